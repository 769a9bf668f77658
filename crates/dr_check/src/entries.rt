//! What is judged of an entry.
ghost use Rattle.std.specs.Prelude.{◌≡◌, ◌↔◌, ◌≤◌, IsTrue, length, take};
ghost use Rattle.dr_check.specs.{Clauses.{EntryItself, HasSame, KeepsPrefix}, Past.IsPast};

use crate::messages::{keeps_bytes, keeps_index, keeps_sender};
use crate::place::EntryPlace;
use crate::report::{ReportAge, ReportMember};
use crate::views::keeps_view;
use dr_entry::Entry;
use dr_text::Clause;

/// Whether both are one entry.
pub(crate) fn is_same(one: &Entry, other: &Entry) -> bool
    ensures { IsTrue result ↔ (one.now ≡ other.now) }
{
    one == other
}

/// Whether a member that took part and has an entry at place `at` has this one there.
fn has_same(member: &ReportMember, at: usize, entry: &Entry) -> bool
    ensures { IsTrue result ↔ HasSame at entry.now member.now }
{
    if !member.present {
        return true;
    }
    match member.history.as_slice().get(at) {
        Some(own) => is_same(own, entry),
        None => true,
    }
}

/// Whether the members before the member `n` that have an entry at place `at` have this one there.
fn keeps_prefix(age: &ReportAge, n: usize, at: usize, entry: &Entry) -> bool
    requires { n ≤ length age.now.members }
    ensures { IsTrue result ↔ KeepsPrefix age.now n at entry.now }
{
    let earlier = &age.members.as_slice()[..n];
    earlier.iter().all(|member| has_same(member, at, entry))
}

/// Whether the entry at a place in the history of the member `n` keeps a clause.
pub(crate) fn keeps(clause: Clause, n: usize, place: &EntryPlace, entry: &Entry) -> bool
    requires n { n ≤ length place.now.age.now.members }
    requires at { place.now.at ≤ length place.now.member.now.history }
    requires past { IsPast (take place.now.at place.now.member.now.history) place.now.past.now }
    ensures { IsTrue result ↔ EntryItself clause place.now.script.now place.now.age.now n
        place.now.member.now place.now.at entry.now }
{
    match clause {
        Clause::View => keeps_view(place, entry),
        Clause::Sender => keeps_sender(place.past, entry),
        Clause::Index => keeps_index(place.past, entry),
        Clause::Bytes => keeps_bytes(place.script, entry),
        Clause::Prefix => keeps_prefix(place.age, n, place.at, entry),
        Clause::Start | Clause::Durable | Clause::Kept => true,
    }
}
