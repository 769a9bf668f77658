//! What an age may start with.
ghost use Rattle.std.specs.Prelude.{◌≡◌, ◌≢◌, ◌↔◌, ◌+◌, ◌<◌, IsTrue, List, [], All, IsSomeAnd, length, take};
ghost use Rattle.dr_entry.specs.declared.entry.Entry.{Entry as EntryOf};
ghost use Rattle.dr_history.specs.{Members.members_of, Soundness.IsLaterAge};
ghost use Rattle.dr_check.specs.{Clauses.{Continues, KeepsStart, MayStart}, Past.IsPast};

use crate::members::{are_below, goes_on_from};
use crate::messages::{keeps_bytes, keeps_index, keeps_sender};
use crate::past::Past;
use crate::report::ReportAge;
use dr_entry::Entry;
use dr_history::{GroupView, members_of};
use dr_script::Script;

/// Whether an age is above that of the last view.
fn is_later(last: &Option<GroupView>, age: u16) -> bool
    ensures { IsTrue result ↔ IsLaterAge last.now age }
{
    match last {
        Some(view) => view.age() < age,
        None => true,
    }
}

/// Whether a View goes on in the age of the last view, with the next number and other members.
fn goes_on(last: &Option<GroupView>, age: u16, number: u8, members: &[u8]) -> bool
    ensures { IsTrue result ↔ IsSomeAnd last.now
        (λ v. (age ≡ v.age) × (number ≡ v.number + 1) × (members.now ≢ v.members)) }
{
    match last {
        Some(view) => goes_on_from(view, age, number, members),
        None => false,
    }
}

/// Whether a View begins a later age, or goes on in one.
fn continues(last: &Option<GroupView>, age: u16, number: u8, members: u16) -> bool
    ensures { IsTrue result ↔ Continues last.now age number members }
{
    (number == 0 && is_later(last, age))
        || goes_on(last, age, number, members_of(members).as_slice())
}

/// Whether a View has members, all of the roster.
fn is_of_roster(script: &Script, members: &[u8]) -> bool
    ensures { IsTrue result ↔ ((members.now ≢ []) × All (λ s. s < script.now.members) members.now) }
{
    !members.is_empty() && are_below(members, script.members)
}

/// Whether an entry may stand in a start behind those that were read.
fn may_start(script: &Script, past: &Past, entry: &Entry) -> bool
    ensures { (read : List EntryOf) → IsPast read past.now
        → IsTrue result ↔ MayStart script.now read entry.now }
{
    match entry {
        Entry::View {
            age,
            number,
            members,
        } => {
            is_of_roster(script, members_of(*members).as_slice())
                && continues(&past.view, *age, *number, *members)
        }
        Entry::Msg { .. } => {
            keeps_sender(past, entry) && keeps_index(past, entry) && keeps_bytes(script, entry)
        }
    }
}

/// Whether an age starts with what it may start with.
pub(crate) fn keeps_start(script: &Script, age: &ReportAge) -> bool
    ensures { IsTrue result ↔ KeepsStart script.now age.now }
{
    let entries = age.start.as_slice();
    let mut past = Past::none();
    for at in 0..entries.len() {
        if !may_start(script, &past, &entries[at]) {
            return false;
        }
        past.note(entries, at);
    }
    is_later(&past.view, age.age)
}
