//! Compares the entries of the logs that end in the last age.
ghost use Rattle.std.specs.Prelude.{◌≡◌, ◌<◌, ◌≤◌, ◌↔◌, ℕ, IfNone, IfSome, IsTrue, List, length};
ghost use Rattle.dr_entry.specs.declared.entry.Entry.{Entry as EntryOf};
ghost use Rattle.dr_history.specs.Restarting.{AreAlong, DifferAt};
ghost use Rattle.dr_restart.specs.{Choosing.AreOnHolder, Refusing.{AreHoldersAlong, IsFirstSplit, IsHeldBy}};
ghost use Rattle.dr_quorum.specs.{Comparing.{AreAlongBelow, IsFirstApart}, Handing.handed_by};

use crate::borrowed::BorrowedLists;
use crate::holders::held;
use dr_entry::Entry;

/// Whether both are one entry.
fn is_same(one: &Entry, other: &Entry) -> bool
    ensures { IsTrue result ↔ (one.now ≡ other.now) }
{
    one == other
}

/// The first place at which two lists both have an entry, and differ.
pub fn first_difference(one: &[Entry], other: &[Entry]) -> Option<usize>
    ensures none { IfNone result (AreAlong one.now other.now) }
    ensures some { IfSome result (DifferAt one.now other.now) }
{
    let shorter = one.len().min(other.len());
    for at in 0..shorter {
        if !is_same(&one[at], &other[at]) {
            return Some(at);
        }
    }
    None
}

/// Where what a member has, if it is a holder, differs from these entries.
fn difference_with(
    lists: &[Option<BorrowedLists>],
    age: u16,
    member: usize,
    entries: &[Entry],
) -> Option<usize>
    ensures none { IfNone result ((f : List EntryOf) → IsHeldBy (handed_by lists.now) age member f
        → AreAlong f entries.now) }
    ensures some { IfSome result (λ place. (f : List EntryOf)
        × IsHeldBy (handed_by lists.now) age member f × DifferAt f entries.now place) }
{
    match held(lists, age, member) {
        Some(own) => first_difference(own, entries),
        None => None,
    }
}

/// Whether what each holder has is along these entries, which are the longest of a holder.
fn are_fronts(lists: &[Option<BorrowedLists>], age: u16, longest: &[Entry]) -> bool
    requires { (f : List EntryOf) → AreOnHolder (handed_by lists.now) age f → length f ≤ length longest.now }
    ensures { IsTrue result → AreHoldersAlong (handed_by lists.now) age }
{
    for m in 0..lists.len() {
        if let Some(_) = difference_with(lists, age, m, longest) {
            return false;
        }
    }
    true
}

/// The first holder below a member that has an entry where these differ, and where.
fn first_apart(
    lists: &[Option<BorrowedLists>],
    age: u16,
    member: usize,
    entries: &[Entry],
) -> Option<(usize, usize)>
    ensures none { IfNone result (AreAlongBelow (handed_by lists.now) age member entries.now) }
    ensures some { IfSome result (λ at.
        IsFirstApart (handed_by lists.now) age member entries.now at.0 at.1) }
{
    for m in 0..member {
        if let Some(place) = difference_with(lists, age, m, entries) {
            return Some((m, place));
        }
    }
    None
}

/// The first holder below a member, where this is one, that has an entry where they differ, and where.
fn apart_from(lists: &[Option<BorrowedLists>], age: u16, member: usize) -> Option<(usize, usize)>
    ensures none { IfNone result ((es : List EntryOf) → IsHeldBy (handed_by lists.now) age member es
        → AreAlongBelow (handed_by lists.now) age member es) }
    ensures some { IfSome result (λ at. (es : List EntryOf) × IsHeldBy (handed_by lists.now) age member es
        × IsFirstApart (handed_by lists.now) age member es at.0 at.1) }
{
    match held(lists, age, member) {
        Some(entries) => first_apart(lists, age, member, entries),
        None => None,
    }
}

/// The first two holders that differ, by the greater of their numbers and then by the less, and where. One
/// pass tells whether there are such; only where there may be the pairs are gone through.
pub(crate) fn find_split(
    lists: &[Option<BorrowedLists>],
    age: u16,
    longest: &[Entry],
) -> Option<(usize, usize, usize)>
    requires { (f : List EntryOf) → AreOnHolder (handed_by lists.now) age f → length f ≤ length longest.now }
    ensures none { IfNone result (AreHoldersAlong (handed_by lists.now) age) }
    ensures some { IfSome result (λ at. IsFirstSplit (handed_by lists.now) age at.0 at.1 at.2) }
    ensures within { IfSome result (λ at. (at.0 < length lists.now) × (at.1 < length lists.now)) }
{
    if are_fronts(lists, age, longest) {
        return None;
    }
    for b in 0..lists.len() {
        if let Some((a, place)) = apart_from(lists, age, b) {
            return Some((a, b, place));
        }
    }
    None
}
