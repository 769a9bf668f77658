//! What is said behind the verdict: where a start comes from, what is missing, and what may be done.

ghost use Rattle.std.specs.{List.{list_all, list_any}, Prelude.{◌≡◌}};
ghost use Rattle.dr_folder.specs.Told.{is_missing, lack_some};

use crate::advice::{Advice, are_intact_but, are_shared};
use crate::checking::FolderCheck;
use crate::differences::entries_of;
use crate::survey::Survey;
use dr_restart::Start;
use dr_text::{Last, push_entry};
use std::alloc::{AllocError, Global};
use std::fmt::Write;

/// What is said behind the verdict.
pub(crate) fn details_of(alloc: Global, check: &FolderCheck) -> Result<String, AllocError> {
    let mut text = String::new(alloc);
    match &check.next {
        Ok(start) => {
            push_source(&mut text, start, &check.surveys)?;
            push_missing(&mut text, start, &check.surveys)?;
        }
        Err(last) => push_foreign(&mut text, last, &check.surveys)?,
    }
    push_advice(&mut text, &check.advice)?;
    Ok(text)
}

/// Appends from which log a start has its entries, if it has some.
fn push_source(out: &mut String, start: &Start, surveys: &[Survey]) -> Result<(), AllocError> {
    let entries = start.entries.as_slice();
    for (number, survey) in surveys.iter().enumerate() {
        if !entries.is_empty() && entries_of(survey) == entries {
            return writeln!(out, "  from member-{number}.log");
        }
    }
    Ok(())
}

/// Whether some logs are missing and others are there.
pub(crate) fn lack_some(surveys: &[Survey]) -> bool
    ensures { result ≡ lack_some surveys.now }
{
    some_missing(surveys) && !all_missing(surveys)
}

fn some_missing(surveys: &[Survey]) -> bool
    ensures { result ≡ list_any is_missing surveys.now }
{
    surveys.iter().any(|survey| is_missing(survey))
}

fn all_missing(surveys: &[Survey]) -> bool
    ensures { result ≡ list_all is_missing surveys.now }
{
    surveys.iter().all(|survey| is_missing(survey))
}

fn is_missing(survey: &Survey) -> bool
    ensures { result ≡ is_missing survey.now }
{
    matches!(survey, Survey::Missing)
}

/// Appends which logs are missing where others are there, and what that means where a run starts so without them.
fn push_missing(out: &mut String, start: &Start, surveys: &[Survey]) -> Result<(), AllocError> {
    if !lack_some(surveys) {
        return Ok(());
    }
    out.push_str("missing logs, which count as empty ones:")?;
    let mut alone = false;
    let mut before = " ";
    for (number, survey) in surveys.iter().enumerate() {
        if let Survey::Missing = survey {
            write!(out, "{before}{number}")?;
            before = ",";
            alone = are_intact_but(surveys, number);
        }
    }
    out.push_str(if alone && are_shared(start.entries.as_slice()) {
        "\nit is one alone, so what was durable stands on the others\n"
    } else {
        "\nput them back first: what was durable may stand on them alone\n"
    })
}

/// Appends the entry for which a log is refused as none of the script's.
fn push_foreign(out: &mut String, last: &Last, surveys: &[Survey]) -> Result<(), AllocError> {
    let Last::Foreign { member, place } = last else {
        return Ok(());
    };
    let Some(survey) = surveys.get(usize::from(*member)) else {
        return Ok(());
    };
    match entries_of(survey).get(*place as usize) {
        Some(entry) => push_entry(out, entry),
        None => Ok(()),
    }
}

/// Appends what may be done.
fn push_advice(out: &mut String, advice: &Advice) -> Result<(), AllocError> {
    match advice {
        Advice::NotNeeded => Ok(()),
        Advice::Away { member, start } => {
            let age = start.age;
            let count = start.entries.as_slice().len();
            writeln!(
                out,
                "member-{member}.log may be moved away, and nothing durable is lost: age {age} starts with {count} then"
            )
        }
        Advice::Alone { member } => writeln!(
            out,
            "member-{member}.log is the bad one, and what was durable may stand on it alone, so don't move it away"
        ),
        Advice::Unclear { one, other } => writeln!(
            out,
            "member-{one}.log or member-{other}.log is wrong, and nothing tells which, so move none away"
        ),
        Advice::Nothing => out.push_str(
            "no log may be moved away: another one is bad, missing, empty or with bytes behind, or none is there\n",
        ),
    }
}
