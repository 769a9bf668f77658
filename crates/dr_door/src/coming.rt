//! Words that come.
ghost use Rattle.std.specs.Prelude.{◌≡◌, ℕ, ◌<◌};
ghost use Rattle.dr_door.specs.Coming.{copy_of, refusal_there};
ghost use Rattle.dr_words.specs.{Columns.columns_of, Layout.word_index_of};

use crate::refused::Refused;
use dr_arrival::{has_grown, is_in_form};
use dr_words::Shape;

/// The member in whose copy the place of this index is.
#[tactic(auto, using(crate::proofs::Places::copy_found))]
pub fn receiver_of(shape: &Shape, index: usize) -> u8
    ensures value { result ≡ copy_of shape.now.members shape.now.window index }
    ensures copy { (view copy row column : ℕ) → copy < shape.now.members → row < shape.now.members
        → column < columns_of shape.now.members shape.now.window
        → index ≡ word_index_of shape.now.members shape.now.window view copy row column → result ≡ copy }
{
    let members = usize::from(shape.members);
    (index / shape.columns() / members % members) as u8
}

/// Why a word that comes to the place of this index, which is one of the table, is refused by the member `me` in
/// whose copy this one stands there; `None` where it isn't.
pub(crate) fn refusal(
    shape: &Shape,
    me: u8,
    index: usize,
    stands: u64,
    word: u64,
) -> Option<Refused>
    ensures { result ≡ refusal_there shape.now.members shape.now.window me index stands word }
{
    let members = usize::from(shape.members);
    let column = index % shape.columns();
    if receiver_of(shape, index) != me {
        return Some(Refused::Copy);
    }
    if index / shape.columns() % members == usize::from(me) {
        return Some(Refused::Row);
    }
    if !is_in_form(shape.members, column, word) {
        return Some(Refused::Form);
    }
    if stands < word && !has_grown(shape.members, column, stands, word) {
        return Some(Refused::Growth);
    }
    None
}
