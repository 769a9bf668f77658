//! What the text of a report comes to.
ghost use Rattle.std.specs.Prelude.{◌≡◌, IfOk};
ghost use Rattle.dr_check.specs.Verdicts.{IsVerdict, verdict_line};
ghost use Rattle.dr_script.specs.Ranges.{HasGroupRanges};

use crate::flaw::Flaw;
use crate::judging::judge;
use crate::reading::{ParseFault, parse};
use crate::report::Report;
use dr_script::Script;
use dr_text::Last;
use std::alloc::{AllocError, Global};

/// What a text is beside a script.
#[derive(Debug, PartialEq, Eq, Drop)]
pub enum Verdict {
    /// A report that keeps every clause.
    Right(Report),
    /// A report, with its first flaw.
    Wrong(Report, Flaw),
    /// No report, first at this line.
    NoReport { line: u64 },
}

impl Verdict {
    /// What the last line says of it.
    pub fn line(&self) -> Last
        ensures { result ≡ verdict_line self.now }
    {
        match self {
            Verdict::Right(_) => Last::Right,
            Verdict::Wrong(_, flaw) => Last::Wrong {
                clause: flaw.clause,
                line: flaw.line,
            },
            Verdict::NoReport { line } => Last::NoReport { line: *line },
        }
    }
}

/// The verdict on the text of a report of a script.
///
/// # Errors
///
/// Want of memory alone.
pub fn verdict_on(alloc: Global, script: &Script, text: &[u8]) -> Result<Verdict, AllocError>
    requires { HasGroupRanges script.now }
    ensures { IfOk result (IsVerdict script.now text.now) }
{
    match parse(alloc, script, text) {
        Ok(report) => match judge(script, &report) {
            Some(flaw) => Ok(Verdict::Wrong(report, flaw)),
            None => Ok(Verdict::Right(report)),
        },
        Err(ParseFault::NoReport { line }) => Ok(Verdict::NoReport { line }),
        Err(ParseFault::OutOfMemory) => Err(AllocError),
    }
}
