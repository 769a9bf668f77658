ghost use Rattle.std.specs.Prelude.{◌≡◌, ◌<◌, ◌≤◌, ◌↔◌, ℕ, true, All, length, take, slice_get, Some, IsTrue};
ghost use Rattle.dr_entry.specs.declared.{end.MemberEnd.MemberEnd, entry.Entry.{Entry, TheVariants.View}};
ghost use Rattle.dr_history.specs.{Agreement.{SamePast, KnowsDurable, EndsAgreed, accounts_of}, Members.has};
ghost use Rattle.dr_oracle.specs.Agreeing.{AreConsistent, AgreesWithAll, HoldsLoggedView, IsInLoggedView, IsLoggedView};

use crate::prefix::same_entries;
use crate::{in_order, is_prefix};
use dr_entry::{Entry, MAX_MEMBERS, MemberEnd};
use dr_history::{Opening, has, members_of, view_of};

/// Whether entry `i` of one history and entry `j` of another, where they are Views of the same age
/// and number, have the same members and the same entries before them.
fn same_past_at(one: &[Entry], i: usize, other: &[Entry], j: usize) -> bool
    requires i { i < length one.now }
    requires j { j < length other.now }
    ensures { IsTrue result ↔ ((age number m n : ℕ)
        → slice_get one.now i ≡ Some (View age number m)
        → slice_get other.now j ≡ Some (View age number n)
        → (m ≡ n) × (take i one.now ≡ take j other.now)) }
{
    let Entry::View {
        age,
        number,
        members,
    } = &one[i]
    else {
        return true;
    };
    let Entry::View {
        age: other_age,
        number: other_number,
        members: other_members,
    } = &other[j]
    else {
        return true;
    };
    if age != other_age || number != other_number {
        return true;
    }
    members == other_members && same_entries(&one[..i], &other[..j])
}

/// Whether two histories that hold a View of the same age and number have the same members in it
/// and the same entries before it.
fn same_past(one: &[Entry], other: &[Entry]) -> bool
    ensures { IsTrue result ↔ SamePast one.now other.now }
{
    for i in 0..one.len() {
        for j in 0..other.len() {
            if !same_past_at(one, i, other, j) {
                return false;
            }
        }
    }
    true
}

/// Whether two histories may stand side by side: one is a prefix of the other, and members that
/// installed the same view had the same history before it.
fn are_consistent(one: &[Entry], other: &[Entry]) -> bool
    ensures { IsTrue result ↔ AreConsistent one.now other.now }
{
    same_past(one, other) && (is_prefix(one, other) || is_prefix(other, one))
}

/// The history with which a member ended, and no entries where there is no such member.
fn history_of(ends: &[MemberEnd], member: u8) -> &[Entry]
    ensures { result.now ≡ (accounts_of ends.now member).history }
{
    match ends.get(usize::from(member)) {
        Some(end) => end.history.as_slice(),
        None => &[],
    }
}

/// How many entries of its history a member has on its log.
fn logged_by(ends: &[MemberEnd], member: u8) -> u64
    ensures { result ≡ length (accounts_of ends.now member).log }
{
    let Some(end) = ends.get(usize::from(member)) else {
        return 0;
    };
    let delivered = end.history.as_slice().len() as u64;
    if end.logged < delivered {
        end.logged
    } else {
        delivered
    }
}

/// How many entries a member knows to be durable.
fn durable_of(ends: &[MemberEnd], member: u8) -> u64
    ensures { result ≡ (accounts_of ends.now member).durable }
{
    match ends.get(usize::from(member)) {
        Some(end) => end.durable,
        None => 0,
    }
}

/// Whether each of the members has so many entries on its log.
fn all_have_logged(ends: &[MemberEnd], members: &[u8], durable: u64) -> bool
    ensures { IsTrue result ↔ All (λ j. durable ≤ length (accounts_of ends.now j).log) members.now }
{
    for member in members {
        if logged_by(ends, *member) < durable {
            return false;
        }
    }
    true
}

/// Whether an entry is a View of this age each of whose members has so many entries on its log.
fn is_logged_view(ends: &[MemberEnd], age: u16, entry: &Entry, durable: u64) -> bool
    ensures { IsTrue result ↔ IsLoggedView (accounts_of ends.now) age durable entry.now }
{
    match entry {
        Entry::View {
            age: of,
            members,
            ..
        } => *of == age && all_have_logged(ends, members_of(*members).as_slice(), durable),
        Entry::Msg { .. } => false,
    }
}

/// Whether a history holds such a View.
fn has_logged_view(ends: &[MemberEnd], age: u16, history: &[Entry], durable: u64) -> bool
    ensures { IsTrue result ↔ HoldsLoggedView (accounts_of ends.now) age durable history.now }
{
    for entry in history {
        if is_logged_view(ends, age, entry, durable) {
            return true;
        }
    }
    false
}

/// Whether a history is in a view of this age that the member is in, and each member of it has so many entries
/// on its log.
fn is_in_logged_view(
    ends: &[MemberEnd],
    age: u16,
    history: &[Entry],
    member: u8,
    durable: u64,
) -> bool
    ensures { IsTrue result ↔ IsInLoggedView (accounts_of ends.now) age durable history.now member }
{
    match view_of(history) {
        Some(view) => {
            view.age() == age
                && view.members().contains(&member)
                && all_have_logged(ends, view.members(), durable)
        }
        None => false,
    }
}

/// Whether what a member knows to be durable stands on its own log, and on the log of each member of some view
/// of the age in its history; where nobody is late, of the view that it is in.
fn knows_durable(opening: &Opening, ends: &[MemberEnd], member: u8) -> bool
    ensures { IsTrue result ↔ KnowsDurable opening.now (accounts_of ends.now) member }
{
    let durable = durable_of(ends, member);
    let history = history_of(ends, member);
    if logged_by(ends, member) < durable {
        return false;
    }
    if opening.members == opening.present {
        is_in_logged_view(ends, opening.age, history, member, durable)
    } else {
        has_logged_view(ends, opening.age, history, durable)
    }
}

/// Whether a member isn't there, or its history may stand beside this one.
fn is_absent_or_consistent(present: u16, ends: &[MemberEnd], history: &[Entry], member: u8) -> bool
    requires { member < MAX_MEMBERS }
    ensures { IsTrue result ↔ (has present member ≡ true
        → AreConsistent history.now (accounts_of ends.now member).history) }
{
    !has(present, member) || are_consistent(history, history_of(ends, member))
}

/// Whether a history may stand beside those of all members that are there.
fn is_consistent_with_all(present: u16, ends: &[MemberEnd], history: &[Entry]) -> bool
    ensures { IsTrue result ↔ ((j : ℕ) → has present j ≡ true
        → AreConsistent history.now (accounts_of ends.now j).history) }
{
    for member in 0..MAX_MEMBERS as u8 {
        if !is_absent_or_consistent(present, ends, history, member) {
            return false;
        }
    }
    true
}

/// Whether a member agrees with all members that are there.
fn agrees(opening: &Opening, ends: &[MemberEnd], member: u8) -> bool
    ensures { IsTrue result ↔ AgreesWithAll opening.now ends.now member }
{
    let history = history_of(ends, member);
    if !in_order(opening, ends, history) {
        return false;
    }
    is_consistent_with_all(opening.present, ends, history) && knows_durable(opening, ends, member)
}

/// Whether a member isn't there, or agrees with all that are.
fn is_absent_or_agrees(present: u16, opening: &Opening, ends: &[MemberEnd], member: u8) -> bool
    requires { member < MAX_MEMBERS }
    ensures { IsTrue result ↔ (has present member ≡ true → AgreesWithAll opening.now ends.now member) }
{
    !has(present, member) || agrees(opening, ends, member)
}

/// Whether all members of a mask agree with all that are there.
fn all_agree(present: u16, opening: &Opening, ends: &[MemberEnd]) -> bool
    ensures { IsTrue result ↔ ((i : ℕ) → has present i ≡ true
        → AgreesWithAll opening.now ends.now i) }
{
    for member in 0..MAX_MEMBERS as u8 {
        if !is_absent_or_agrees(present, opening, ends, member) {
            return false;
        }
    }
    true
}

/// Whether nobody tells of more entries on its log than it has delivered.
fn all_told(ends: &[MemberEnd]) -> bool
    ensures { IsTrue result ↔ All (λ (e : MemberEnd). e.logged ≤ length e.history) ends.now }
{
    for end in ends {
        if (end.history.as_slice().len() as u64) < end.logged {
            return false;
        }
    }
    true
}

/// Whether the members of an age that has ended agree.
pub fn agreed(opening: &Opening, ends: &[MemberEnd]) -> bool
    ensures { IsTrue result ↔ EndsAgreed opening.now ends.now }
{
    all_told(ends) && all_agree(opening.present, opening, ends)
}
