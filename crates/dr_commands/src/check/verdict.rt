//! The verdict on a report.
ghost use Rattle.std.specs.Prelude.{Contains, IfSome, option_map};
ghost use Rattle.dr_intake.specs.Status.{status_of};
ghost use Rattle.dr_script.specs.Ranges.{HasGroupRanges};
ghost use Rattle.dr_commands.specs.Check.{IsChecked, SaysOfStrings, TellsVerdict, check_ends};

use crate::check::handing::{handed_in, value_of};
use dr_check::verdict_on;
use dr_intake::script_or_refusal;
use dr_script::{MAX_SCRIPT, Script};
use dr_text::Last;
use std::alloc::{AllocError, Global};

/// What the last line says of the text of a report of a script; none where memory was wanting.
fn line_for_report(alloc: Global, script: &Script, text: &[u8]) -> Option<Last>
    requires { HasGroupRanges script.now }
    ensures { IfSome result (TellsVerdict script.now text.now) }
{
    match verdict_on(alloc, script, text) {
        Ok(verdict) => Some(verdict.line()),
        Err(AllocError) => None,
    }
}

/// What it says of the texts of a script and of a report.
fn line_for(alloc: Global, texts: Option<(&str, &str)>) -> Option<Last>
    ensures { IfSome result (SaysOfStrings (option_map (λ t. (t.0.now, t.1.now)) texts.entry)) }
{
    let Some((script, text)) = texts else {
        return Some(Last::NotCheck);
    };
    match script_or_refusal(alloc, script.as_bytes()) {
        Ok(script) => line_for_report(alloc, &script, text.as_bytes()),
        Err(line) => line,
    }
}

/// What it says of bytes that were read for a check.
fn line_on(alloc: Global, bytes: &[u8]) -> Option<Last>
    ensures { IfSome result (IsChecked bytes.now) }
{
    if bytes.len() > MAX_SCRIPT {
        return Some(Last::TooLong);
    }
    match value_of(alloc, bytes) {
        Ok(value) => line_for(alloc, handed_in(&value)),
        Err(line) => line,
    }
}

/// What the last line says of bytes that were read for a check: that there are more than a script has, that
/// they are no JSON or hand in no script and text, the refusal of the script, the line at which the text is
/// no report, that the report is right, or the first flaw of it. None where memory was wanting.
pub fn checked_line(alloc: Global, bytes: &[u8]) -> Option<Last>
    ensures checked { IfSome result (IsChecked bytes.now) }
    ensures ends { IfSome result (λ last. Contains check_ends (status_of last)) }
{
    line_on(alloc, bytes)
}
