//! Reads the text of a report, line by line.
ghost use Rattle.std.specs.Prelude.{◌≡◌, ◌⊎◌, ◌<◌, ◌≤◌, ◌∷◌, ◌++◌, [], ℕ, IfOk, IfSome, IfNone, OnOk, Err, Some, None, length, take, drop};
ghost use Rattle.dr_script.specs.Ranges.{HasGroupRanges};
ghost use Rattle.dr_check.specs.{Course.next_course, Grammar.{IsNoReportAt, IsReport}, Lines.{IsLineText, lines_of}};
ghost use Rattle.dr_check.specs.{Progress.{AreWhole, IsOnly}, declared.line.Line.Line as LineOf};
ghost use Rattle.dr_check.specs.declared.reading.ParseFault.TheVariants.{NoReport};

use crate::assembling::report_of;
use crate::course::Course;
use crate::line::Line;
use crate::lines::read_line;
use crate::report::Report;
use dr_script::Script;
use std::alloc::{AllocError, Global};

/// Why a text was not read as a report.
#[derive(Clone, Copy, Debug, PartialEq, Eq)]
pub enum ParseFault {
    OutOfMemory,
    /// No report has this line, counted from 1, behind those before it. Where the text ends too early, it is
    /// the one behind its last.
    NoReport { line: u64 },
}

impl From<AllocError> for ParseFault {
    ghost use Rattle.std.specs.Prelude.{◌≡◌};
    ghost use Rattle.dr_check.specs.declared.reading.ParseFault.TheVariants.{OutOfMemory};

    ghost from_gives = { λ _ fault. fault ≡ OutOfMemory };

    fn from(_: AllocError) -> Self {
        ParseFault::OutOfMemory
    }
}

/// Where the first line ends.
fn line_end(bytes: &[u8]) -> usize
    requires { 0 < length bytes.now }
    ensures some { 0 < result }
    ensures within { result ≤ length bytes.now }
    ensures first { lines_of bytes.now ≡ take result bytes.now ∷ lines_of (drop result bytes.now) }
{
    for at in 0..bytes.len() {
        if bytes[at] == b'\n' {
            return at + 1;
        }
    }
    bytes.len()
}

/// The line that bytes are, and what comes of it, where they are one that may come.
fn next_line(
    alloc: Global,
    members: u8,
    course: Course,
    bytes: &[u8],
) -> Result<Option<(Line, Course)>, AllocError>
    ensures some { IfOk result (λ found. IfSome found (λ one. IsOnly one.0 bytes.now
        × (next_course members course one.0 ≡ Some one.1))) }
    ensures none { IfOk result (λ found. IfNone found (((l : LineOf) → IsLineText l bytes.now → ⊥)
        ⊎ ((l : LineOf) × IsOnly l bytes.now × (next_course members course l ≡ None)))) }
{
    let Some(line) = read_line(alloc, bytes)? else {
        return Ok(None);
    };
    match course.next(members, &line) {
        Some(next) => Ok(Some((line, next))),
        None => Ok(None),
    }
}

/// Keeps a line more.
fn keep(found: &mut Vec<Line>, line: Line) -> Result<(), AllocError>
    ensures { OnOk result (found.new.items ≡ found.old.items ++ line ∷ []) }
{
    found.push(line)?;
    Ok(())
}

/// The lines of a text that is a report of so many members.
fn read_lines(alloc: Global, members: u8, text: &[u8]) -> Result<Vec<Line>, ParseFault>
    requires { members ≤ 16 }
    ensures lines { IfOk result (λ lines. AreWhole members text.now lines.items) }
    ensures none { (line : ℕ) → result ≡ Err (NoReport line) → IsNoReportAt members text.now line }
{
    let mut found = Vec::new(alloc);
    let mut course = Course::begin(members);
    let mut rest = text;
    while !rest.is_empty() {
        let (bytes, behind) = rest.split_at(line_end(rest));
        let Some((line, next)) = next_line(alloc, members, course, bytes)? else {
            return Err(ParseFault::NoReport {
                line: found.len() as u64 + 1,
            });
        };
        course = next;
        keep(&mut found, line)?;
        rest = behind;
    }
    let ended = course.ended;
    if ended {
        return Ok(found);
    }
    Err(ParseFault::NoReport {
        line: found.len() as u64 + 1,
    })
}

/// The report that a text is, of a script.
///
/// # Errors
///
/// Want of memory; or the first line at which the text is no report.
pub fn parse(alloc: Global, script: &Script, text: &[u8]) -> Result<Report, ParseFault>
    requires { HasGroupRanges script.now }
    ensures report { IfOk result (IsReport script.now.members text.now) }
    ensures none { (line : ℕ) → result ≡ Err (NoReport line)
        → IsNoReportAt script.now.members text.now line }
{
    let lines = read_lines(alloc, script.members, text)?;
    Ok(report_of(alloc, lines)?)
}
