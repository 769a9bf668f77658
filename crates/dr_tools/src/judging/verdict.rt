//! What is said of a report.
ghost use Rattle.std.specs.Prelude.{◌≡◌, ◌++◌, ℕ, List, IfOk, OnOk, string_bytes};
ghost use Rattle.dr_check.specs.{Flaws.IsFirstFlaw, Verdicts.IsVerdict};
ghost use Rattle.dr_script.specs.{Ranges.HasGroupRanges, Reading.reading_of};
ghost use Rattle.dr_script.specs.declared.script.Script.{Script as ScriptOf};
ghost use Rattle.dr_tools.specs.Differing.{ReportAgreesAt, ShowsDifference, told_entry};
ghost use Rattle.dr_tools.specs.Judged.{FollowsVerdict, IsJudged, SaysOfBytes, SaysOfText, StandsBehind};

use crate::judging::differing::difference_at;
use dr_check::{Clause, Flaw, Report, Verdict, verdict_on};
use dr_entry::Entry;
use dr_intake::{Answer, script_or_refusal};
use dr_script::Script;
use dr_text::{Last, push_entry};
use std::alloc::{AllocError, Global};
use std::fmt::Write;

/// The most bytes of a report that is judged.
pub(crate) const LONGEST_REPORT: usize = 2_147_483_648;

/// What is said of the bytes of a script and of a report of it.
pub(crate) fn answer_for(alloc: Global, script: &[u8], text: &[u8]) -> Result<Answer, AllocError>
    ensures { IfOk result (λ a. IsJudged (reading_of script.now) text.now (string_bytes a.text, a.status)) }
{
    match script_or_refusal(alloc, script) {
        Ok(script) => answer_to_bytes(alloc, &script, text),
        Err(line) => Answer::of_refusal(alloc, line),
    }
}

/// What is said of the bytes of a report of this script.
fn answer_to_bytes(alloc: Global, script: &Script, text: &[u8]) -> Result<Answer, AllocError>
    requires { HasGroupRanges script.now }
    ensures { IfOk result (λ a. SaysOfBytes text.now script.now (string_bytes a.text, a.status)) }
{
    if text.len() > LONGEST_REPORT {
        return Answer::of_line(alloc, &Last::TooLong);
    }
    answer_to_text(alloc, script, text)
}

/// What is said of bytes that are not too many.
fn answer_to_text(alloc: Global, script: &Script, text: &[u8]) -> Result<Answer, AllocError>
    requires { HasGroupRanges script.now }
    ensures { IfOk result (λ a. SaysOfText script.now text.now (string_bytes a.text, a.status)) }
{
    let verdict = verdict_on(alloc, script, text)?;
    let mut answer = Answer::of_line(alloc, &verdict.line())?;
    push_behind(&mut answer.text, &verdict)?;
    Ok(answer)
}

/// Appends what stands behind the line of a verdict: where that tells of an entry that an earlier member has otherwise,
/// both entries.
fn push_behind(out: &mut String, verdict: &Verdict) -> Result<(), AllocError>
    requires { (script : ScriptOf) × (text : List ℕ) × IsVerdict script text verdict.now }
    ensures { OnOk result ((more : List ℕ) × FollowsVerdict verdict.now more
        × (string_bytes out.new ≡ string_bytes out.old ++ more)) }
{
    match verdict {
        Verdict::Wrong(report, flaw) => push_behind_flaw(out, report, *flaw),
        _ => Ok(()),
    }
}

/// Appends what stands behind the line of a flaw.
fn push_behind_flaw(out: &mut String, report: &Report, flaw: Flaw) -> Result<(), AllocError>
    requires { (script : ScriptOf) × IsFirstFlaw script report.now flaw }
    ensures { OnOk result ((more : List ℕ) × StandsBehind flaw.clause report.now flaw.line more
        × (string_bytes out.new ≡ string_bytes out.old ++ more)) }
{
    match flaw.clause {
        Clause::Prefix => push_difference(out, report, flaw.line),
        _ => Ok(()),
    }
}

/// Appends the entry at this line of a report and the other one that an earlier member has in its place, each behind its
/// line, the earlier one first.
fn push_difference(out: &mut String, report: &Report, line: u64) -> Result<(), AllocError>
    requires { ReportAgreesAt line report.now → ⊥ }
    ensures { OnOk result ((more : List ℕ) × ShowsDifference report.now line more
        × (string_bytes out.new ≡ string_bytes out.old ++ more)) }
{
    let Some(difference) = difference_at(report, line) else {
        return Ok(());
    };
    push_told(out, difference.other.line, difference.other.entry)?;
    push_told(out, line, difference.entry)
}

/// Appends an entry behind the line at which it stands.
fn push_told(out: &mut String, line: u64, entry: &Entry) -> Result<(), AllocError>
    ensures { OnOk result (string_bytes out.new ≡ string_bytes out.old ++ told_entry line entry.now) }
{
    write!(out, "line {line}:")?;
    push_entry(out, entry)
}
