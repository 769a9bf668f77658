use crate::explaining::found::Found;
use serde_json::Value;
use std::alloc::AllocError;
use std::fmt::Write;

/// Appends which of these keys a value has not, and which others it has.
pub(crate) fn push_keys(
    out: &mut String,
    found: Found<'_>,
    names: &[&str],
) -> Result<(), AllocError> {
    let Some(value) = found.value else {
        return Ok(());
    };
    push_missing(out, value, names)?;
    push_unknown(out, value, names)
}

fn push_missing(out: &mut String, value: &Value, names: &[&str]) -> Result<(), AllocError> {
    let mut some = false;
    for name in names {
        if value.get(*name).is_none() {
            push_name(out, "missing", some, name)?;
            some = true;
        }
    }
    end_line(out, some)
}

fn push_unknown(out: &mut String, value: &Value, names: &[&str]) -> Result<(), AllocError> {
    let mut some = false;
    if let Some(object) = value.as_object() {
        for key in object.keys() {
            if !names.iter().any(|name| *name == key.as_str()) {
                push_name(out, "not known", some, key.as_str())?;
                some = true;
            }
        }
    }
    end_line(out, some)
}

/// Appends a name to a line of names, which begins with this heading.
fn push_name(out: &mut String, heading: &str, some: bool, name: &str) -> Result<(), AllocError> {
    if some {
        write!(out, ", {name:?}")
    } else {
        write!(out, "{heading}: {name:?}")
    }
}

fn end_line(out: &mut String, some: bool) -> Result<(), AllocError> {
    if some { out.push_str("\n") } else { Ok(()) }
}
