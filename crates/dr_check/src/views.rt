//! The views of a history.
ghost use Rattle.std.specs.Prelude.{◌≡◌, ◌↔◌, ◌⊎◌, ◌≤◌, IsTrue, All, Contains, length, take};
ghost use Rattle.dr_history.specs.Members.{members_of};
ghost use Rattle.dr_check.specs.Clauses.{FollowsView, IsFirstView, IsLate, KeepsView, MayComeNext, Names, WasNamed};
ghost use Rattle.dr_check.specs.Past.{IsPast};

use crate::members::{are_below, goes_on_from, has_majority, is_late, take_part};
use crate::place::EntryPlace;
use crate::report::ReportAge;
use dr_entry::Entry;
use dr_history::{GroupView, members_of};

/// Whether an entry is the View 0 of an age.
fn is_first_view(age: &ReportAge, entry: &Entry) -> bool
    ensures { IsTrue result ↔ IsFirstView age.now entry.now }
{
    match entry {
        Entry::View {
            age: number_of_age,
            number,
            members,
        } => {
            *number_of_age == age.age
                && *number == 0
                && take_part(age, members_of(*members).as_slice())
        }
        Entry::Msg { .. } => false,
    }
}

/// Whether an entry is a View of the age that names a member.
fn names(age: &ReportAge, entry: &Entry, s: u8) -> bool
    ensures { IsTrue result ↔ Names age.now entry.now s }
{
    match entry {
        Entry::View {
            age: number_of_age,
            members,
            ..
        } => *number_of_age == age.age && members_of(*members).as_slice().contains(&s),
        Entry::Msg { .. } => false,
    }
}

/// Whether a View of the age among these entries names a member.
fn was_named(age: &ReportAge, entries: &[Entry], s: u8) -> bool
    ensures { IsTrue result ↔ WasNamed age.now entries.now s }
{
    entries.iter().any(|entry| names(age, entry, s))
}

/// Whether a member may be in a View at a place, behind a view of these members.
fn may_be_in(place: &EntryPlace, before: &[u8], s: u8) -> bool
    requires { place.now.at ≤ length place.now.member.now.history }
    ensures { IsTrue result ↔ (Contains before.now s ⊎ (IsLate place.now.age.now place.now.member.now s
        × (WasNamed place.now.age.now (take place.now.at place.now.member.now.history) s → ⊥))) }
{
    before.contains(&s)
        || (is_late(place.age, place.member, s)
            && !was_named(place.age, &place.member.history.as_slice()[..place.at], s))
}

/// Whether each of these may be in a View at a place, behind a view of other members.
fn may_all_be_in(place: &EntryPlace, before: &[u8], members: &[u8]) -> bool
    requires { place.now.at ≤ length place.now.member.now.history }
    ensures { IsTrue result ↔ All (λ s. Contains before.now s
        ⊎ (IsLate place.now.age.now place.now.member.now s
        × (WasNamed place.now.age.now (take place.now.at place.now.member.now.history) s → ⊥)))
        members.now }
{
    members.iter().all(|s| may_be_in(place, before, *s))
}

/// Whether a View at a place may follow a view.
fn may_come_next(place: &EntryPlace, view: &GroupView, age: u16, number: u8, mask: u16) -> bool
    requires { place.now.at ≤ length place.now.member.now.history }
    ensures { IsTrue result ↔ MayComeNext place.now.script.now place.now.age.now place.now.member.now
        place.now.at view.now age number mask }
{
    let members = members_of(mask);
    if !goes_on_from(view, age, number, members.as_slice()) {
        return false;
    }
    if !are_below(members.as_slice(), place.script.members) {
        return false;
    }
    if !has_majority(view, mask) {
        return false;
    }
    may_all_be_in(place, view.members(), members.as_slice())
}

/// Whether an entry at a place, behind View 0, follows the view before it where it is a View.
fn follows_view(place: &EntryPlace, entry: &Entry) -> bool
    requires at { place.now.at ≤ length place.now.member.now.history }
    requires past { IsPast (take place.now.at place.now.member.now.history) place.now.past.now }
    ensures { IsTrue result ↔ FollowsView place.now.script.now place.now.age.now place.now.member.now
        place.now.at entry.now }
{
    match entry {
        Entry::View {
            age,
            number,
            members,
        } => match &place.past.view {
            Some(view) => may_come_next(place, view, *age, *number, *members),
            None => false,
        },
        Entry::Msg { .. } => true,
    }
}

/// Whether the entry at a place keeps what is said of views.
pub(crate) fn keeps_view(place: &EntryPlace, entry: &Entry) -> bool
    requires at { place.now.at ≤ length place.now.member.now.history }
    requires past { IsPast (take place.now.at place.now.member.now.history) place.now.past.now }
    ensures { IsTrue result ↔ KeepsView place.now.script.now place.now.age.now place.now.member.now
        place.now.at entry.now }
{
    let start = place.age.start.as_slice().len();
    if place.at < start {
        true
    } else if place.at == start {
        is_first_view(place.age, entry)
    } else {
        follows_view(place, entry)
    }
}
