//! The logs that end in the last age, and the longest of them.
ghost use Rattle.std.specs.Prelude.{◌≡◌, ◌<◌, ◌≤◌, ◌↔◌, ℕ, IfNone, IfSome, IsTrue, List, length, option_map};
ghost use Rattle.dr_entry.specs.declared.entry.Entry.{Entry as EntryOf};
ghost use Rattle.dr_restart.specs.{Choosing.{AreOnHolder, EndsInAge}, Refusing.IsHeldBy};
ghost use Rattle.dr_quorum.specs.Handing.{handed_by};

use crate::borrowed::BorrowedLists;
use dr_entry::Entry;
use dr_history::view_of;

/// Whether the last View of a log is of this age.
fn ends_in(log: &BorrowedLists, age: u16) -> bool
    ensures { IsTrue result ↔ EndsInAge log.now age }
{
    match view_of(log.entries()) {
        Some(view) => view.age() == age,
        None => false,
    }
}

/// The log of a member, where it was handed in.
fn log_of<'b, 'a>(
    lists: &'b [Option<BorrowedLists<'a>>],
    member: usize,
) -> Option<&'b BorrowedLists<'a>>
    ensures { option_map (λ log. log.now) result ≡ handed_by lists.now member }
{
    match lists.get(member) {
        Some(Some(log)) => Some(log),
        _ => None,
    }
}

/// The entries of a log, where its last View is of this age.
fn entries_ending<'a>(log: &BorrowedLists<'a>, age: u16) -> Option<&'a [Entry]>
    ensures some { IfSome result (λ es. EndsInAge log.now age × (es.now ≡ log.now.entries)) }
    ensures none { IfNone result (EndsInAge log.now age → ⊥) }
{
    if ends_in(log, age) {
        Some(log.entries())
    } else {
        None
    }
}

/// The entries of a member, where its last View is of this age.
pub(crate) fn held<'a>(
    lists: &[Option<BorrowedLists<'a>>],
    age: u16,
    member: usize,
) -> Option<&'a [Entry]>
    ensures some { IfSome result (λ es. IsHeldBy (handed_by lists.now) age member es.now) }
    ensures none { IfNone result ((es : List EntryOf) → IsHeldBy (handed_by lists.now) age member es → ⊥) }
{
    match log_of(lists, member) {
        Some(log) => entries_ending(log, age),
        None => None,
    }
}

/// How many entries a holder has, and 0 of whoever is none.
fn held_length(lists: &[Option<BorrowedLists>], age: u16, member: usize) -> usize
    ensures held { (es : List EntryOf) → IsHeldBy (handed_by lists.now) age member es → result ≡ length es }
    ensures some { 0 < result → (es : List EntryOf) × IsHeldBy (handed_by lists.now) age member es }
{
    match held(lists, age, member) {
        Some(entries) => entries.len(),
        None => 0,
    }
}

/// A member than which no holder has more entries; it is one, where there is one.
fn longest(lists: &[Option<BorrowedLists>], age: u16) -> usize
    ensures { (m : ℕ) (f : List EntryOf) → IsHeldBy (handed_by lists.now) age m f
        → (es : List EntryOf) × IsHeldBy (handed_by lists.now) age result es × (length f ≤ length es) }
{
    let mut best = 0;
    let mut most = 0;
    for m in 0..lists.len() {
        let len = held_length(lists, age, m);
        if most < len {
            best = m;
            most = len;
        }
    }
    best
}

/// The entries of the longest holder, where there is one.
pub(crate) fn longest_held<'a>(lists: &[Option<BorrowedLists<'a>>], age: u16) -> &'a [Entry]
    ensures { (m : ℕ) (f : List EntryOf) → IsHeldBy (handed_by lists.now) age m f
        → AreOnHolder (handed_by lists.now) age result.now × (length f ≤ length result.now) }
{
    match held(lists, age, longest(lists, age)) {
        Some(entries) => entries,
        None => &[],
    }
}
