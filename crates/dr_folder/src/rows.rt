//! A row for each member: what its file has.

use crate::survey::Survey;
use dr_entry::Entry;
use dr_log_bytes::Content;
use dr_text::push_entry;
use std::alloc::AllocError;
use std::fmt::Write;

/// Appends the row of each member.
pub(crate) fn push_rows(out: &mut String, surveys: &[Survey]) -> Result<(), AllocError> {
    for (number, survey) in surveys.iter().enumerate() {
        push_row(out, number, survey)?;
    }
    Ok(())
}

fn push_row(out: &mut String, number: usize, survey: &Survey) -> Result<(), AllocError> {
    match survey {
        Survey::Missing => writeln!(out, "member-{number}.log: missing"),
        Survey::Unread { why } => {
            let why = why.as_str();
            writeln!(out, "member-{number}.log can't be read: {why}")
        }
        Survey::Empty { len } => writeln!(out, "member-{number}.log: bytes {len}, empty"),
        Survey::Log {
            len,
            content,
            at,
            closed,
        } => {
            write!(out, "member-{number}.log: bytes {len}, ")?;
            push_content(out, content)?;
            push_end(out, *len, *at, *closed)?;
            push_last_view(out, content.entries.as_slice())
        }
    }
}

/// Appends what is on a log, by number; of age votes only where there are some.
fn push_content(out: &mut String, content: &Content) -> Result<(), AllocError> {
    let entries = content.entries.len();
    let votes = content.votes.len();
    let age_votes = content.age_votes.len();
    write!(out, "entries {entries}, votes {votes}, ")?;
    if age_votes == 0 {
        return Ok(());
    }
    write!(out, "age votes {age_votes}, ")
}

/// Appends where the records of a log end, and how.
fn push_end(out: &mut String, len: usize, at: usize, closed: bool) -> Result<(), AllocError> {
    let behind = len.saturating_sub(at).saturating_sub(1);
    if !closed {
        writeln!(out, "damaged at {at}")
    } else if behind == 0 {
        writeln!(out, "closed at {at}")
    } else {
        writeln!(out, "closed at {at}, bytes behind it: {behind}")
    }
}

/// Appends the line of the last View of a log, where there is one.
fn push_last_view(out: &mut String, entries: &[Entry]) -> Result<(), AllocError> {
    for entry in entries.iter().rev() {
        if let Entry::View { .. } = entry {
            return push_entry(out, entry);
        }
    }
    Ok(())
}
