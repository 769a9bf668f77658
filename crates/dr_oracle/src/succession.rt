ghost use Rattle.std.specs.Prelude.{◌≡◌, ◌+◌, ◌*◌, ◌<◌, ◌⊎◌, ◌↔◌, ℕ, true, false, filter, length, Contains, IsTrue};
ghost use Rattle.dr_entry.specs.declared.entry.Entry.TheVariants.{View};
ghost use Rattle.dr_entry.specs.declared.limits.TheConstants.{MAX_MEMBERS};
ghost use Rattle.dr_history.specs.{Members.has, Order.{AreOfRoster, IsInNoView, IsLateIn, IsSucceededBy, MayJoin}};

use dr_entry::{Entry, MAX_MEMBERS};
use dr_history::{GroupView, Opening, has};

/// Whether the entry is no View of this age that has the member.
fn spares(age: u16, entry: &Entry, member: u8) -> bool
    requires { member < MAX_MEMBERS }
    ensures { IsTrue result
        ↔ ((number members : ℕ) → entry.now ≡ View age number members → has members member ≡ false) }
{
    match entry {
        Entry::View {
            age: of,
            members,
            ..
        } => *of != age || !has(*members, member),
        Entry::Msg { .. } => true,
    }
}

/// Whether the member is in no View of this age among the entries.
fn is_in_no_view(age: u16, entries: &[Entry], member: u8) -> bool
    requires { member < MAX_MEMBERS }
    ensures { IsTrue result ↔ IsInNoView age entries.now member }
{
    for entry in entries {
        if !spares(age, entry, member) {
            return false;
        }
    }
    true
}

/// Whether the member is late.
fn is_late(opening: &Opening, member: u8) -> bool
    requires { member < MAX_MEMBERS }
    ensures { IsTrue result ↔ IsLateIn opening.now member }
{
    has(opening.present, member) && !has(opening.members, member)
}

/// Whether the member may be taken into the next view behind these entries: it is late, and in none so far.
fn may_join(opening: &Opening, entries: &[Entry], member: u8) -> bool
    requires { member < MAX_MEMBERS }
    ensures { IsTrue result ↔ MayJoin opening.now entries.now member }
{
    is_late(opening, member) && is_in_no_view(opening.age, entries, member)
}

/// Whether the member is not in the mask, or is of a roster of so many.
fn is_of_roster(roster: usize, members: u16, member: u8) -> bool
    requires { member < MAX_MEMBERS }
    ensures { IsTrue result ↔ (has members member ≡ true → member < roster) }
{
    !has(members, member) || usize::from(member) < roster
}

/// Whether the mask has some members, and all of them are of a roster of so many.
fn are_of_roster(roster: usize, members: u16) -> bool
    ensures { IsTrue result ↔ AreOfRoster roster members }
{
    if members == 0 {
        return false;
    }
    for member in 0..MAX_MEMBERS as u8 {
        if !is_of_roster(roster, members, member) {
            return false;
        }
    }
    true
}

/// Whether the mask has this number, be it that of a member or not.
fn is_in(members: u16, number: u8) -> bool
    ensures { result ≡ has members number }
{
    number < MAX_MEMBERS as u8 && has(members, number)
}

/// How many of these members are in the mask.
fn count_in(list: &[u8], members: u16) -> usize
    ensures { result ≡ length (filter (has members) list.now) }
{
    let mut count = 0;
    for member in list {
        if is_in(members, *member) {
            count += 1;
        }
    }
    count
}

/// Whether the member is not in the mask, is in the view, or may join behind these entries.
fn comes_well(
    opening: &Opening,
    entries: &[Entry],
    view: &GroupView,
    members: u16,
    member: u8,
) -> bool
    requires { member < MAX_MEMBERS }
    ensures { IsTrue result ↔ (has members member ≡ true
        → Contains view.now.members member ⊎ MayJoin opening.now entries.now member) }
{
    !has(members, member) || view.members().contains(&member) || may_join(opening, entries, member)
}

/// Whether each member of the mask is in the view, or may join behind these entries.
fn all_come_well(opening: &Opening, entries: &[Entry], view: &GroupView, members: u16) -> bool
    ensures { IsTrue result ↔ ((s : ℕ) → has members s ≡ true
        → Contains view.now.members s ⊎ MayJoin opening.now entries.now s) }
{
    for member in 0..MAX_MEMBERS as u8 {
        if !comes_well(opening, entries, view, members, member) {
            return false;
        }
    }
    true
}

/// Whether more than half of the view's members are in the mask.
fn most_stay(view: &GroupView, members: u16) -> bool
    ensures { IsTrue result
        ↔ (length view.now.members < 2 * length (filter (has members) view.now.members)) }
{
    view.members().len() / 2 < count_in(view.members(), members)
}

/// Whether the view of these entries may be succeeded by a View.
pub(crate) fn may_be_succeeded_by(
    opening: &Opening,
    entries: &[Entry],
    view: &GroupView,
    age: u16,
    number: u8,
    members: u16,
) -> bool
    ensures { IsTrue result ↔ IsSucceededBy opening.now entries.now view.now age number members }
{
    if !view.may_be_followed_by(age, number, members) || !most_stay(view, members) {
        return false;
    }
    if !are_of_roster(opening.messages.as_slice().len(), members) {
        return false;
    }
    all_come_well(opening, entries, view, members)
}
