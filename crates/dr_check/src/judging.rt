//! Finds the first flaw of a report.
ghost use Rattle.std.specs.Prelude.{◌≡◌, ◌<◌, ◌+◌, ◌↔◌, IfSome, IfNone, IsTrue, Some, length, slice_get};
ghost use Rattle.dr_check.specs.Firsts.{AllKeep, FirstBreaks};
ghost use Rattle.dr_check.specs.Flaws.{AgeBreaks, AgeKeeps, BreaksClause, EntryBreaks, EntryKeeps, IsFirstFlaw, IsRight, KeepsClause, MemberBreaks, MemberKeeps, line_behind, own_entries};
ghost use Rattle.dr_check.specs.declared.report.{ReportAge.ReportAge as AgeOf, ReportMember.ReportMember as MemberOf};

use crate::ages::{age_keeps, member_keeps};
use crate::entries::keeps;
use crate::flaw::Flaw;
use crate::past::Past;
use crate::place::EntryPlace;
use crate::report::{Report, ReportAge, ReportMember};
use dr_script::Script;
use dr_text::Clause;

/// The line of entry `k` behind the start.
fn line_behind(member: &ReportMember, k: usize) -> u64
    ensures { result ≡ line_behind member.now k }
{
    member.line.saturating_add(1).saturating_add(k as u64)
}

/// The line of the first entry of the member `n` behind the start that breaks a clause.
fn breach_of_entries(
    clause: Clause,
    script: &Script,
    age: &ReportAge,
    n: usize,
    member: &ReportMember,
) -> Option<u64>
    requires { n < length age.now.members }
    ensures none { IfNone result (AllKeep (EntryKeeps clause script.now age.now n member.now)
        (own_entries age.now member.now)) }
    ensures some { IfSome result (FirstBreaks (EntryKeeps clause script.now age.now n member.now)
        (EntryBreaks clause script.now age.now n member.now) (own_entries age.now member.now)) }
{
    let history = member.history.as_slice();
    let start = age.start.as_slice().len();
    if history.len() <= start {
        return None;
    }
    let mut past = Past::of(&history[..start]);
    for at in start..history.len() {
        let place = EntryPlace {
            script,
            age,
            member,
            at,
            past: &past,
        };
        if !keeps(clause, n, &place, &history[at]) {
            return Some(line_behind(member, at - start));
        }
        past.note(history, at);
    }
    None
}

/// The line at which the member `n` breaks a clause, if it takes part.
fn breach_of_member(clause: Clause, script: &Script, age: &ReportAge, n: usize) -> Option<u64>
    requires { n < length age.now.members }
    ensures none { (m : MemberOf) → slice_get age.now.members n ≡ Some m
        → IfNone result (MemberKeeps clause script.now age.now n m) }
    ensures some { (m : MemberOf) → slice_get age.now.members n ≡ Some m
        → IfSome result (MemberBreaks clause script.now age.now n m) }
{
    let member = &age.members.as_slice()[n];
    if !member.present {
        None
    } else if !member_keeps(clause, age, member) {
        Some(member.line)
    } else {
        breach_of_entries(clause, script, age, n, member)
    }
}

/// The line of the first member of an age that breaks a clause.
fn breach_of_members(clause: Clause, script: &Script, age: &ReportAge) -> Option<u64>
    ensures none { IfNone result (AllKeep (MemberKeeps clause script.now age.now) age.now.members) }
    ensures some { IfSome result (FirstBreaks (MemberKeeps clause script.now age.now)
        (MemberBreaks clause script.now age.now) age.now.members) }
{
    for n in 0..age.members.as_slice().len() {
        if let Some(line) = breach_of_member(clause, script, age, n) {
            return Some(line);
        }
    }
    None
}

/// The line at which age `i` breaks a clause.
fn breach_of_age(clause: Clause, script: &Script, ages: &[ReportAge], i: usize) -> Option<u64>
    requires { i < length ages.now }
    ensures none { (a : AgeOf) → slice_get ages.now i ≡ Some a
        → IfNone result (AgeKeeps clause script.now ages.now i a) }
    ensures some { (a : AgeOf) → slice_get ages.now i ≡ Some a
        → IfSome result (AgeBreaks clause script.now ages.now i a) }
{
    if !age_keeps(clause, script, ages, i) {
        return Some(ages[i].line);
    }
    breach_of_members(clause, script, &ages[i])
}

/// The line at which a report first breaks a clause.
fn breach_of_report(clause: Clause, script: &Script, report: &Report) -> Option<u64>
    ensures none { IfNone result (KeepsClause clause script.now report.now) }
    ensures some { IfSome result (BreaksClause clause script.now report.now) }
{
    let ages = report.ages.as_slice();
    for i in 0..ages.len() {
        if let Some(line) = breach_of_age(clause, script, ages, i) {
            return Some(line);
        }
    }
    None
}

/// The first flaw of a report of a script: `None` exactly where it keeps every clause.
pub fn judge(script: &Script, report: &Report) -> Option<Flaw>
    ensures none { IfNone result (IsRight script.now report.now) }
    ensures some { IfSome result (IsFirstFlaw script.now report.now) }
{
    let clauses = [
        Clause::Start,
        Clause::View,
        Clause::Sender,
        Clause::Index,
        Clause::Bytes,
        Clause::Prefix,
        Clause::Durable,
        Clause::Kept,
    ];
    for clause in clauses {
        if let Some(line) = breach_of_report(clause, script, report) {
            return Some(Flaw { clause, line });
        }
    }
    None
}
