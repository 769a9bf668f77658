//! The summary of a run as a JSON object.
ghost use Rattle.std.specs.Prelude.{◌≡◌, ◌++◌, IfOk, OnOk, string_bytes};
ghost use Rattle.dr_tools.specs.Object.{age_objects, ages_part, enough_digits, enough_part, status_part, summary_object};

use crate::summary::enough::Enough;
use dr_entry::AgeEnd;
use dr_intake::status_of;
use dr_script::Script;
use dr_summary::push_age_object;
use dr_text::Last;
use std::alloc::{AllocError, Global};
use std::fmt::Write;

/// The summary of a run of a script as a JSON object: so many turns would have been enough for it, these are its
/// ages, and its last line.
pub(crate) fn object_of(
    alloc: Global,
    script: &Script,
    enough: Enough,
    ages: &[AgeEnd],
    last: &Last,
) -> Result<String, AllocError>
    ensures { IfOk result
        (λ text. string_bytes text ≡ summary_object script.now enough ages.now last.now) }
{
    let mut text = String::new(alloc);
    push_object(alloc, &mut text, script, enough, ages, last)?;
    Ok(text)
}

fn push_object(
    alloc: Global,
    out: &mut String,
    script: &Script,
    enough: Enough,
    ages: &[AgeEnd],
    last: &Last,
) -> Result<(), AllocError>
    ensures { OnOk result
        (string_bytes out.new ≡ string_bytes out.old ++ summary_object script.now enough ages.now last.now) }
{
    push_ages_part(alloc, out, script, ages)?;
    push_status_part(out, status_of(last), script.turns)?;
    push_enough_part(out, enough)
}

/// Appends the ages, as a summary begins.
fn push_ages_part(
    alloc: Global,
    out: &mut String,
    script: &Script,
    ages: &[AgeEnd],
) -> Result<(), AllocError>
    ensures { OnOk result
        (string_bytes out.new ≡ string_bytes out.old ++ ages_part script.now ages.now) }
{
    out.push_str("{\"ages\": [")?;
    push_ages(alloc, out, script, ages)
}

/// Appends the status, and how many turns a script has.
fn push_status_part(out: &mut String, status: u8, turns: u32) -> Result<(), AllocError>
    ensures { OnOk result
        (string_bytes out.new ≡ string_bytes out.old ++ status_part status turns) }
{
    write!(
        out,
        "],\n \"status\": {status},\n \"turns\": {turns},\n \"turns_enough\": "
    )
}

/// Appends how many would have been enough, as a summary ends.
fn push_enough_part(out: &mut String, enough: Enough) -> Result<(), AllocError>
    ensures { OnOk result (string_bytes out.new ≡ string_bytes out.old ++ enough_part enough) }
{
    push_enough(out, enough)?;
    out.push_str("}\n")
}

fn push_ages(
    alloc: Global,
    out: &mut String,
    script: &Script,
    ages: &[AgeEnd],
) -> Result<(), AllocError>
    ensures { OnOk result
        (string_bytes out.new ≡ string_bytes out.old ++ age_objects script.now ages.now) }
{
    for (nth, age) in ages.iter().enumerate() {
        push_age_object(alloc, out, script, nth, age)?;
    }
    Ok(())
}

/// Appends how many turns would have been enough, as far as that is known.
fn push_enough(out: &mut String, enough: Enough) -> Result<(), AllocError>
    ensures { OnOk result (string_bytes out.new ≡ string_bytes out.old ++ enough_digits enough) }
{
    match enough {
        Enough::ForRun(turns) => write!(out, "{turns}"),
        Enough::InLockstep(turns) => write!(out, "{turns}"),
        Enough::Unknown => out.push_str("null"),
    }
}
