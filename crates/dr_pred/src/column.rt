ghost use Rattle.std.specs.Prelude.{◌≡◌, ℕ, ◌^◌, ◌<◌, ◌≤◌, ◌↔◌, true, false, All, Any, IfSome, IfNone, IsTrue};
ghost use Rattle.dr_history.specs.Members.{has};
ghost use Rattle.dr_words.specs.{Masks.IsInRoster, Packing.{is_final, accept_promise}};
ghost use Rattle.dr_rows.specs.Words.{seen};

use dr_entry::MAX_MEMBERS;
use dr_lane::least;
use dr_rows::Rows;
use dr_words::{Mask, unpack_accept, unpack_recv};

/// The least of the words that the rows of these members have in a column; `None` where there are no
/// members.
pub fn least_word(rows: &Rows, members: Mask, column: usize) -> Option<u64>
    requires most { rows.now.members ≤ MAX_MEMBERS }
    requires roster { IsInRoster rows.now.members members }
    requires column { column < rows.now.columns }
    ensures below { IfSome result (λ least. (i : ℕ) → has members i ≡ true
        → least ≤ seen rows.now i column) }
    ensures among { IfSome result (λ least. (i : ℕ) × (has members i ≡ true)
        × (least ≡ seen rows.now i column)) }
    ensures none { IfNone result ((i : ℕ) → has members i ≡ false) }
{
    let mut words = [0; MAX_MEMBERS];
    let count = rows.column_of(column, members.bits(), &mut words);
    if count == 0 {
        None
    } else {
        Some(least(&words[..count]))
    }
}

// Whether all counts of these recv words are final.
pub(crate) fn all_final(words: &[u64]) -> bool
    requires { All (λ word. word < 2 ^ 33) words.now }
    ensures { IsTrue result ↔ All (λ word. is_final word ≡ true) words.now }
{
    words.iter().all(|word| unpack_recv(*word).1)
}

// Whether all of these accept words have at least this promise.
pub(crate) fn all_promise(words: &[u64], promise: u8) -> bool
    ensures { IsTrue result ↔ All (λ word. promise ≤ accept_promise word) words.now }
{
    words.iter().all(|word| unpack_accept(*word).0 >= promise)
}

// Whether some of these suspected words names the member.
pub(crate) fn any_suspects(words: &[u64], name: u8) -> bool
    requires name { name < MAX_MEMBERS }
    requires masks { All (λ word. word < 2 ^ 16) words.now }
    ensures { IsTrue result ↔ Any (λ word. has word name ≡ true) words.now }
{
    words.iter().any(|word| Mask::of(*word as u16).has(name))
}

// Whether all of these done words are 1.
pub(crate) fn all_done(words: &[u64]) -> bool
    ensures { IsTrue result ↔ All (λ word. word ≡ 1) words.now }
{
    words.iter().all(|word| *word == 1)
}
