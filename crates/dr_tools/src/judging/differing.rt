//! The entries by which two histories of an age differ.
ghost use Rattle.std.specs.Prelude.{◌≡◌, ◌≢◌, ◌↔◌, ◌<◌, ◌≤◌, IfNone, IfSome, IsTrue, Some, length, slice_get};
ghost use Rattle.dr_check.specs.{Clauses.{HasSame, KeepsPrefix}, Flaws.line_behind};
ghost use Rattle.dr_check.specs.declared.report.ReportMember.{ReportMember as MemberOf};
ghost use Rattle.dr_tools.specs.Differing.{AgeAgreesAt, AgreeAt, Differs, DiffersIn, DiffersOf, HasOther, ReportAgreesAt};

use dr_check::{Report, ReportAge, ReportMember};
use dr_entry::Entry;

/// An entry of a history, and the line of the report at which it stands.
#[derive(Clone, Copy)]
pub(crate) struct Told<'a> {
    pub line: u64,
    pub entry: &'a Entry,
}

/// An entry of a history, and the other one that an earlier member of the age has in its place.
#[derive(Clone, Copy)]
pub(crate) struct Difference<'a> {
    pub entry: &'a Entry,
    pub other: Told<'a>,
}

/// The entry at this line of a report, where an earlier member of its age has another one in its place.
pub(crate) fn difference_at(report: &Report, line: u64) -> Option<Difference<'_>>
    ensures none { IfNone result (ReportAgreesAt line report.now) }
    ensures some { IfSome result (λ d.
        Differs report.now line d.entry.now d.other.line d.other.entry.now) }
{
    let ages = report.ages.as_slice();
    for i in 0..ages.len() {
        if let Some(difference) = difference_in(&ages[i], line) {
            return Some(difference);
        }
    }
    None
}

/// The same of an age.
fn difference_in(age: &ReportAge, line: u64) -> Option<Difference<'_>>
    ensures none { IfNone result (AgeAgreesAt line age.now) }
    ensures some { IfSome result (λ d.
        DiffersIn age.now line d.entry.now d.other.line d.other.entry.now) }
{
    for n in 0..age.members.as_slice().len() {
        if let Some(difference) = difference_of(age, n, line) {
            return Some(difference);
        }
    }
    None
}

/// The same of the history of member `n`, behind the start.
fn difference_of(age: &ReportAge, n: usize, line: u64) -> Option<Difference<'_>>
    requires { n < length age.now.members }
    ensures none { (m : MemberOf) → slice_get age.now.members n ≡ Some m
        → IfNone result (AgreeAt line age.now n m) }
    ensures some { IfSome result (λ d.
        DiffersOf age.now n line d.entry.now d.other.line d.other.entry.now) }
{
    let start = age.start.as_slice().len();
    let member = &age.members.as_slice()[n];
    let history = member.history.as_slice();
    for at in start..history.len() {
        if line_behind(member, at - start) == line {
            if let Some(other) = other_entry(age, n, at, &history[at]) {
                return Some(Difference {
                    entry: &history[at],
                    other,
                });
            }
        }
    }
    None
}

/// Another entry than this one that a member before member `n` has at place `at`, behind the start.
fn other_entry<'a>(age: &'a ReportAge, n: usize, at: usize, entry: &Entry) -> Option<Told<'a>>
    requires n { n ≤ length age.now.members }
    requires at { length age.now.start ≤ at }
    ensures none { IfNone result (KeepsPrefix age.now n at entry.now) }
    ensures some { IfSome result (λ t. HasOther age.now n at entry.now t.line t.entry.now) }
{
    let start = age.start.as_slice().len();
    let members = age.members.as_slice();
    for k in 0..n {
        if let Some(own) = other_of(&members[k], at, entry) {
            return Some(Told {
                line: line_behind(&members[k], at - start),
                entry: own,
            });
        }
    }
    None
}

/// Another entry than this one that a member has at place `at`, if it took part.
fn other_of<'a>(member: &'a ReportMember, at: usize, entry: &Entry) -> Option<&'a Entry>
    ensures none { IfNone result (HasSame at entry.now member.now) }
    ensures some { IfSome result (λ own. (slice_get member.now.history at ≡ Some own.now)
        × (own.now ≢ entry.now)) }
{
    if !member.present {
        return None;
    }
    let own = member.history.as_slice().get(at)?;
    if is_same(own, entry) { None } else { Some(own) }
}

/// Whether both are one entry.
fn is_same(one: &Entry, other: &Entry) -> bool
    ensures { IsTrue result ↔ (one.now ≡ other.now) }
{
    one == other
}

/// The line of entry `k` behind the start.
fn line_behind(member: &ReportMember, k: usize) -> u64
    ensures { result ≡ line_behind member.now k }
{
    member.line.saturating_add(1).saturating_add(k as u64)
}
