use crate::explaining::found::Found;
use crate::explaining::keys::push_keys;
use crate::explaining::values::{push_found, push_value, push_whole};
use serde_json::Value;
use std::alloc::AllocError;
use std::fmt::Write;

/// The greatest number of a push that a crash may name.
const MAX_PUSH: u64 = 65_535;

/// Appends why the faults, or the one at this path, have not the form that is wanted.
pub(crate) fn push_form(out: &mut String, found: Found<'_>, path: &str) -> Result<(), AllocError> {
    match found.value {
        _ if path == "/faults" => push_found(out, found, "an array of at most 256 objects"),
        Some(fault) if fault.is_object() => push_fault_keys(out, found),
        _ => push_found(out, found, "an object"),
    }
}

fn push_fault_keys(out: &mut String, fault: Found<'_>) -> Result<(), AllocError> {
    let crash = fault.part("crash").value.is_some();
    let suspect = fault.part("suspect").value.is_some();
    match (crash, suspect) {
        (true, true) => {
            out.push_str("both \"crash\" and \"suspect\"; wanted one of them\n")?;
            push_keys(out, fault, &["age", "member", "crash", "suspect"])
        }
        (true, false) => push_keys(out, fault, &["age", "member", "crash"]),
        (false, true) => push_keys(out, fault, &["age", "member", "suspect"]),
        (false, false) => {
            out.push_str("missing: \"crash\" or \"suspect\"\n")?;
            push_keys(out, fault, &["age", "member"])
        }
    }
}

/// Appends which of a fault's age and member are none of the script's.
pub(crate) fn push_place(
    out: &mut String,
    script: Found<'_>,
    fault: Found<'_>,
) -> Result<(), AllocError> {
    let ages = size_of(script, "ages");
    let members = size_of(script, "members");
    push_outside(out, "age", fault.part("age"), 0, ages.saturating_sub(1))?;
    push_outside(
        out,
        "member",
        fault.part("member"),
        0,
        members.saturating_sub(1),
    )
}

/// Appends why a fault is no crash and no suspicion of the script's turns and members.
pub(crate) fn push_deed(
    out: &mut String,
    script: Found<'_>,
    fault: Found<'_>,
) -> Result<(), AllocError> {
    let turns = size_of(script, "turns");
    let members = size_of(script, "members");
    let (crash, suspect) = (fault.part("crash"), fault.part("suspect"));
    match (crash.value, suspect.value) {
        (Some(Value::Array(pair)), _) if pair.len() == 2 => {
            push_outside(out, "turn", crash.nth(0), 1, turns)?;
            push_outside(out, "push", crash.nth(1), 0, MAX_PUSH)
        }
        (None, Some(Value::Array(pair))) if pair.len() == 2 => {
            let other = suspect.nth(1);
            push_outside(out, "turn", suspect.nth(0), 1, turns)?;
            push_outside(out, "other member", other, 0, members.saturating_sub(1))?;
            push_itself(out, fault.part("member"), other)
        }
        (None, _) => push_found(out, suspect, "an array of a turn and another member"),
        _ => push_found(out, crash, "an array of a turn and the number of a push"),
    }
}

fn push_itself(out: &mut String, member: Found<'_>, other: Found<'_>) -> Result<(), AllocError> {
    let number = member.value.and_then(Value::as_u64);
    if number.is_some() && number == other.value.and_then(Value::as_u64) {
        return out.push_str("a member does not suspect itself\n");
    }
    Ok(())
}

/// Appends a number that is not in its range.
fn push_outside(
    out: &mut String,
    what: &str,
    found: Found<'_>,
    low: u64,
    high: u64,
) -> Result<(), AllocError> {
    if let Some(number) = found.value.and_then(Value::as_u64) {
        if low <= number && number <= high {
            return Ok(());
        }
    }
    write!(out, "{what}: found ")?;
    push_value(out, found)?;
    writeln!(out, "; wanted a whole number from {low} to {high}")?;
    push_whole(out, found)
}

/// A number of the script; 0 where it has none.
fn size_of(script: Found<'_>, key: &str) -> u64 {
    let size = script.part(key).value;
    size.and_then(Value::as_u64).unwrap_or(0)
}
