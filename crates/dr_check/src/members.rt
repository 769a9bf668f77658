//! Who takes part in an age, and who is in a view.
ghost use Rattle.std.specs.Prelude.{◌≡◌, ◌≢◌, ◌↔◌, ◌+◌, ◌*◌, ◌<◌, ◌≤◌, ℕ, IsTrue, All, Contains, length, filter, slice_get, Some};
ghost use Rattle.dr_history.specs.Members.{has, members_of};
ghost use Rattle.dr_check.specs.Clauses.{AreLogged, IsLate, TakesPart, first_members, logged_by, members_named};

use crate::report::{ReportAge, ReportMember};
use dr_entry::{Entry, MAX_MEMBERS};
use dr_history::{GroupView, has, members_of};

/// Whether a member takes part in an age.
pub(crate) fn takes_part(age: &ReportAge, s: u8) -> bool
    ensures { IsTrue result ↔ TakesPart age.now s }
{
    match age.members.as_slice().get(usize::from(s)) {
        Some(member) => member.present,
        None => false,
    }
}

/// Whether each of these members takes part in an age.
pub(crate) fn take_part(age: &ReportAge, members: &[u8]) -> bool
    ensures { IsTrue result ↔ All (TakesPart age.now) members.now }
{
    members.iter().all(|s| takes_part(age, *s))
}

/// The mask of a View; 0 of a message.
fn mask_of(entry: &Entry) -> u16
    ensures { members_of result ≡ members_named (Some entry.now) }
{
    match entry {
        Entry::View { members, .. } => *members,
        Entry::Msg { .. } => 0,
    }
}

/// The mask of the age's View 0, in the history of a member; 0 where it has none.
fn first_mask(age: &ReportAge, member: &ReportMember) -> u16
    ensures { members_of result ≡ first_members age.now member.now }
{
    match member.history.as_slice().get(age.start.as_slice().len()) {
        Some(entry) => mask_of(entry),
        None => 0,
    }
}

/// Whether a member is late.
pub(crate) fn is_late(age: &ReportAge, member: &ReportMember, s: u8) -> bool
    ensures { IsTrue result ↔ IsLate age.now member.now s }
{
    let first = members_of(first_mask(age, member));
    takes_part(age, s) && !first.as_slice().contains(&s)
}

/// Whether no member of an age is late.
pub(crate) fn is_nobody_late(age: &ReportAge, member: &ReportMember) -> bool
    ensures { IsTrue result ↔ ((s : ℕ) → IsLate age.now member.now s → ⊥) }
{
    let first = members_of(first_mask(age, member));
    let members = age.members.as_slice();
    for s in 0..members.len() {
        if members[s].present && !has_number(first.as_slice(), s) {
            return false;
        }
    }
    true
}

/// Whether a number is among those of the members.
fn has_number(members: &[u8], number: usize) -> bool
    ensures { IsTrue result ↔ Contains members.now number }
{
    members.iter().any(|member| usize::from(*member) == number)
}

/// How many entries are on the log of a member.
fn logged_by(age: &ReportAge, s: u8) -> u64
    ensures { result ≡ logged_by age.now s }
{
    match age.members.as_slice().get(usize::from(s)) {
        Some(member) => member.logged,
        None => 0,
    }
}

/// Whether what a member knows to be durable is on the log of each of these.
pub(crate) fn are_logged(age: &ReportAge, member: &ReportMember, members: &[u8]) -> bool
    ensures { IsTrue result ↔ AreLogged age.now member.now members.now }
{
    members.iter().all(|s| member.durable <= logged_by(age, *s))
}

/// Whether each of the members has a number below this one.
pub(crate) fn are_below(members: &[u8], count: u8) -> bool
    ensures { IsTrue result ↔ All (λ s. s < count) members.now }
{
    members.iter().all(|s| *s < count)
}

/// Whether a mask has a member, whatever its number.
fn is_in(mask: u16, s: u8) -> bool
    ensures { result ≡ has mask s }
{
    usize::from(s) < MAX_MEMBERS && has(mask, s)
}

/// How many of the members a mask has.
fn count_in(mask: u16, members: &[u8]) -> usize
    requires { length members.now ≤ MAX_MEMBERS }
    ensures { result ≡ length (filter (has mask) members.now) }
{
    members.iter().filter(|s| is_in(mask, **s)).count()
}

/// Whether a mask has more than half of the members of a view.
pub(crate) fn has_majority(view: &GroupView, mask: u16) -> bool
    ensures { IsTrue result
        ↔ (length view.now.members < 2 * length (filter (has mask) view.now.members)) }
{
    view.members().len() / 2 < count_in(mask, view.members())
}

/// Whether a View of this age and number goes on in the age of a view, with other members.
pub(crate) fn goes_on_from(view: &GroupView, age: u16, number: u8, members: &[u8]) -> bool
    ensures { IsTrue result ↔ ((age ≡ view.now.age) × (number ≡ view.now.number + 1)
        × (members.now ≢ view.now.members)) }
{
    age == view.age()
        && u16::from(number) == u16::from(view.number()) + 1
        && members != view.members()
}
