ghost use Rattle.std.specs.Prelude.{◌≡◌, ℕ, ◌<◌, true, false, length, slice_index};
ghost use Rattle.dr_history.specs.Members.{has, members_of};
ghost use Rattle.dr_words.specs.Masks.{IsInRoster};
ghost use Rattle.dr_pred.specs.Group.{IsOfShape};
ghost use Rattle.dr_trim.specs.Trims.{IsLeastReceived};

use dr_entry::MAX_MEMBERS;
use dr_pred::least_word;
use dr_rows::Rows;
use dr_words::{Mask, Shape, unpack_recv};

/// For each sender the least count in the rows of the members of `of`, of whom there is one; 0 for others.
pub fn trim_of(rows: &Rows, shape: &Shape, of: Mask, senders: Mask) -> [u32; MAX_MEMBERS]
    requires shape { IsOfShape shape.now rows.now }
    requires of { IsInRoster rows.now.members of }
    requires some { 0 < length (members_of of) }
    requires senders { IsInRoster rows.now.members senders }
    ensures senders { (n : ℕ) → has senders n ≡ true
        → IsLeastReceived rows.now of n (slice_index result n) }
    ensures others { (n : ℕ) → has senders n ≡ false → slice_index result n ≡ 0 }
{
    let mut trim = [0; MAX_MEMBERS];
    for sender in 0..MAX_MEMBERS as u8 {
        if senders.has(sender) {
            trim[usize::from(sender)] = least_count(rows, shape, of, sender);
        }
    }
    trim
}

// The least count of a sender in the rows of the members of `of`, of whom there is one. It is that of the
// least word, in which the count stands above the mark of the final ones.
fn least_count(rows: &Rows, shape: &Shape, of: Mask, sender: u8) -> u32
    requires shape { IsOfShape shape.now rows.now }
    requires of { IsInRoster rows.now.members of }
    requires some { 0 < length (members_of of) }
    requires sender { sender < rows.now.members }
    ensures { IsLeastReceived rows.now of sender result }
{
    let word = least_word(rows, of, shape.recv_column(sender)).unwrap();
    unpack_recv(word).0
}
