//! What is said of a folder of logs.

ghost use Rattle.std.specs.Prelude.{◌≡◌, ◌++◌, IfOk, OnOk, codes, string_bytes};
ghost use Rattle.dr_text.specs.Report.{last_text};
ghost use Rattle.dr_folder.specs.Told.{TellsNext, next_run_line, start_line, status_due};

use crate::checking::FolderCheck;
use crate::details::{details_of, lack_some};
use crate::differences::push_differences;
use crate::rows::push_rows;
use dr_intake::{Answer, DONE, status_of};
use dr_restart::Start;
use dr_text::{Last, push_last};
use std::alloc::{AllocError, Global};
use std::fmt::Write;

/// The status where the next run starts, and some of the logs are missing and others are there.
pub const LOGS_MISSING: u8 = 14;

/// What is said of a folder of logs: a row for each member, and how logs differ; then what the next run starts
/// with, or its last line; then what may be done.
///
/// # Errors
///
/// Want of memory alone.
pub fn folder_report(alloc: Global, check: &FolderCheck) -> Result<Answer, AllocError>
    ensures told { IfOk result (λ answer. TellsNext check.now.next (string_bytes answer.text)) }
    ensures due { IfOk result (λ answer.
        answer.status ≡ status_due check.now.surveys.items check.now.next) }
{
    let mut text = String::new(alloc);
    push_rows(&mut text, &check.surveys)?;
    push_differences(&mut text, &check.surveys)?;
    push_next(&mut text, &check.next)?;
    let details = details_of(alloc, check)?;
    text.push_str(details.as_str())?;
    Ok(Answer {
        text,
        status: status_due(check),
    })
}

/// Appends what the next run starts with, or its last line.
fn push_next(out: &mut String, next: &Result<Start, Last>) -> Result<(), AllocError>
    ensures { OnOk result (string_bytes out.new ≡ string_bytes out.old ++ next_run_line next.now) }
{
    match next {
        Ok(start) => push_start(out, start.age, start.entries.as_slice().len()),
        Err(last) => push_refusal(out, last),
    }
}

fn push_start(out: &mut String, age: u16, count: usize) -> Result<(), AllocError>
    ensures { OnOk result (string_bytes out.new ≡ string_bytes out.old ++ start_line age count) }
{
    writeln!(out, "the next run: age {age} start {count}")
}

fn push_refusal(out: &mut String, last: &Last) -> Result<(), AllocError>
    ensures { OnOk result
        (string_bytes out.new ≡ string_bytes out.old ++ (codes "the next run: " ++ last_text last.now)) }
{
    out.push_str("the next run: ")?;
    push_last(out, last)
}

/// The status that is due.
fn status_due(check: &FolderCheck) -> u8
    ensures { result ≡ status_due check.now.surveys.items check.now.next }
{
    match &check.next {
        Err(last) => status_of(last),
        Ok(_) if lack_some(&check.surveys) => LOGS_MISSING,
        Ok(_) => DONE,
    }
}
