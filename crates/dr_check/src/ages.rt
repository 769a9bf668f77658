//! What is judged of a member itself and of an age itself.
ghost use Rattle.std.specs.{List.Any, Prelude.{◌≡◌, ◌↔◌, ◌<◌, IsTrue, All, IsSomeAnd, Some, length, slice_get, take}};
ghost use Rattle.dr_history.specs.History.{IsPrefixOf, view_of};
ghost use Rattle.dr_check.specs.Clauses.{AgeItself, AreLogged, HasDelivered, IsDurableView, IsKeptIn, KeepsAge, KeepsDurable, MemberItself};
ghost use Rattle.dr_check.specs.declared.report.ReportAge.{ReportAge as AgeOf};

use crate::members::{are_logged, is_nobody_late};
use crate::report::{ReportAge, ReportMember};
use crate::starts::keeps_start;
use dr_entry::Entry;
use dr_history::{members_of, view_of};
use dr_script::Script;
use dr_text::Clause;

/// Whether an entry is a View of the age on the logs of whose members there is what a member knows to be
/// durable.
fn is_durable_view(age: &ReportAge, member: &ReportMember, entry: &Entry) -> bool
    ensures { IsTrue result ↔ IsDurableView age.now member.now entry.now }
{
    match entry {
        Entry::View {
            age: number_of_age,
            members,
            ..
        } => {
            *number_of_age == age.age && are_logged(age, member, members_of(*members).as_slice())
        }
        Entry::Msg { .. } => false,
    }
}

/// Whether the history of a member has such a View.
fn has_durable_view(age: &ReportAge, member: &ReportMember) -> bool
    ensures { IsTrue result ↔ Any (IsDurableView age.now member.now) member.now.history }
{
    let history = member.history.as_slice();
    history
        .iter()
        .any(|entry| is_durable_view(age, member, entry))
}

/// Whether the last view of a history is one.
fn is_last_such(age: &ReportAge, member: &ReportMember) -> bool
    ensures { IsTrue result ↔ IsSomeAnd (view_of member.now.history)
        (λ v. (v.age ≡ age.now.age) × AreLogged age.now member.now v.members) }
{
    match view_of(member.history.as_slice()) {
        Some(view) => view.age() == age.age && are_logged(age, member, view.members()),
        None => false,
    }
}

/// Whether a member keeps what is said of what is durable.
fn keeps_durable(age: &ReportAge, member: &ReportMember) -> bool
    ensures { IsTrue result ↔ KeepsDurable age.now member.now }
{
    member.logged <= member.history.as_slice().len() as u64
        && has_durable_view(age, member)
        && (!is_nobody_late(age, member) || is_last_such(age, member))
}

/// Whether a member itself keeps a clause.
pub(crate) fn member_keeps(clause: Clause, age: &ReportAge, member: &ReportMember) -> bool
    ensures { IsTrue result ↔ MemberItself clause age.now member.now }
{
    match clause {
        Clause::View => age.start.as_slice().len() < member.history.as_slice().len(),
        Clause::Durable => keeps_durable(age, member),
        _ => true,
    }
}

/// Whether one list of entries is a prefix of another.
fn is_prefix(one: &[Entry], other: &[Entry]) -> bool
    ensures { IsTrue result ↔ IsPrefixOf one.now other.now }
{
    other.starts_with(one)
}

/// Whether a member took part and delivered what an age starts with.
fn has_delivered(member: &ReportMember, next: &ReportAge) -> bool
    ensures { IsTrue result ↔ HasDelivered next.now member.now }
{
    member.present && is_prefix(next.start.as_slice(), member.history.as_slice())
}

/// Whether some member of an age delivered what the next one starts with.
fn have_delivered(age: &ReportAge, next: &ReportAge) -> bool
    ensures { IsTrue result ↔ Any (HasDelivered next.now) age.now.members }
{
    let members = age.members.as_slice();
    members.iter().any(|member| has_delivered(member, next))
}

/// The entries of a member that it knows to be durable.
fn durable_of(member: &ReportMember) -> &[Entry]
    ensures { result.now ≡ take member.now.durable member.now.history }
{
    let history = member.history.as_slice();
    if member.durable < history.len() as u64 {
        &history[..member.durable as usize]
    } else {
        history
    }
}

/// Whether an age starts with all that a member of the one before knew to be durable, if it took part.
fn is_kept_in(member: &ReportMember, next: &ReportAge) -> bool
    ensures { IsTrue result ↔ IsKeptIn next.now member.now }
{
    !member.present || is_prefix(durable_of(member), next.start.as_slice())
}

/// Whether an age starts with all that some member of the one before knew to be durable.
fn are_kept_in(age: &ReportAge, next: &ReportAge) -> bool
    ensures { IsTrue result ↔ All (IsKeptIn next.now) age.now.members }
{
    let members = age.members.as_slice();
    members.iter().all(|member| is_kept_in(member, next))
}

/// Whether an age keeps what the one before it delivered durably.
fn keeps_age(age: &ReportAge, next: &ReportAge) -> bool
    ensures { IsTrue result ↔ KeepsAge age.now next.now }
{
    age.age < next.age && have_delivered(age, next) && are_kept_in(age, next)
}

/// Whether age `i` itself keeps a clause.
pub(crate) fn age_keeps(clause: Clause, script: &Script, ages: &[ReportAge], i: usize) -> bool
    requires { i < length ages.now }
    ensures { (a : AgeOf) → slice_get ages.now i ≡ Some a
        → IsTrue result ↔ AgeItself clause script.now ages.now i a }
{
    match clause {
        Clause::Start => keeps_start(script, &ages[i]),
        Clause::Kept => i == 0 || keeps_age(&ages[i - 1], &ages[i]),
        _ => true,
    }
}
