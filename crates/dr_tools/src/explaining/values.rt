use crate::explaining::found::Found;
use serde_json::Value;
use std::alloc::AllocError;
use std::fmt::Write;

/// The longest text that is shown as it is.
const SHOWN: usize = 40;

/// Appends what was found in the place of something else, and what was wanted there.
pub(crate) fn push_found(
    out: &mut String,
    found: Found<'_>,
    wanted: &str,
) -> Result<(), AllocError> {
    out.push_str("found ")?;
    push_value(out, found)?;
    writeln!(out, "; wanted {wanted}")?;
    push_whole(out, found)
}

/// Appends what a whole number is, where another number was found.
pub(crate) fn push_whole(out: &mut String, found: Found<'_>) -> Result<(), AllocError> {
    match found.value {
        Some(value) if value.is_number() && !value.is_u64() => out.push_str(
            "a whole number is written in digits alone, without sign, point and exponent, and is below 2^64\n",
        ),
        _ => Ok(()),
    }
}

/// Appends a value in words, or as JSON where it is short, a number as it is written.
pub(crate) fn push_value(out: &mut String, found: Found<'_>) -> Result<(), AllocError> {
    match found.value {
        Some(Value::Array(list)) => push_count(out, "an array", list.len(), "element"),
        Some(Value::Object(object)) => push_count(out, "an object", object.len(), "key"),
        Some(Value::String(text)) if text.len() > SHOWN => {
            push_count(out, "a text", text.len(), "byte")
        }
        Some(value) => match found.written() {
            Some(digits) if value.is_number() => out.push_str(digits),
            _ => write!(out, "{value}"),
        },
        None => out.push_str("nothing"),
    }
}

fn push_count(out: &mut String, what: &str, count: usize, part: &str) -> Result<(), AllocError> {
    let ending = if count == 1 { "" } else { "s" };
    write!(out, "{what} of {count} {part}{ending}")
}
