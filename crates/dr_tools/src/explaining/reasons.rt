use crate::explaining::faults::{push_deed, push_form, push_place};
use crate::explaining::found::Found;
use crate::explaining::keys::push_keys;
use crate::explaining::never::{Plan, push_never};
use crate::explaining::repeats::push_repeat;
use crate::explaining::syntax::push_syntax;
use crate::explaining::values::{push_found, push_value};
use dr_script::MAX_SCRIPT;
use dr_text::Last;
use serde_json::Value;
use std::alloc::{AllocError, Global};
use std::fmt::Write;

/// The keys of a script.
const KEYS: [&str; 8] = [
    "members", "window", "turns", "patience", "ages", "messages", "faults", "schedule",
];

/// Why a text is refused by this last line, in words.
pub(crate) fn reasons_for(alloc: Global, bytes: &[u8], line: &Last) -> Result<String, AllocError> {
    let mut out = String::new(alloc);
    if let Last::TooLong = line {
        writeln!(out, "a script has at most {MAX_SCRIPT} bytes")?;
        return Ok(out);
    }
    match (Value::from_slice(alloc, bytes), line) {
        (Ok(value), Last::Rule { rule, path }) => {
            push_rule(&mut out, *rule, Found::whole(bytes, &value), path.as_str())?;
            push_repeat(alloc, &mut out, bytes)?;
        }
        (Err(error), _) => push_syntax(&mut out, bytes, &error)?,
        _ => {}
    }
    Ok(out)
}

/// What more is to be said of a script with this plan, whose group takes so many turns in lockstep without faults.
pub(crate) fn words_for(
    alloc: Global,
    bytes: &[u8],
    plan: &Plan,
    taken: u32,
) -> Result<String, AllocError> {
    let mut out = String::new(alloc);
    if plan.is_seeded() {
        out.push_str(
            "the schedule is a seed: more may be needed, and nothing is proved of how many\n",
        )?;
    }
    push_never(&mut out, plan, taken)?;
    push_repeat(alloc, &mut out, bytes)?;
    Ok(out)
}

/// What breaks a rule at the place with this path, and what is wanted there.
fn push_rule(out: &mut String, rule: u8, whole: Found<'_>, path: &str) -> Result<(), AllocError> {
    let found = whole.at_path(path);
    match rule {
        1 => push_found(out, whole, "an object"),
        2 => push_keys(out, whole, &KEYS),
        3 | 7 => push_found(out, found, "a whole number from 1 to 16"),
        4 => push_found(out, found, "a whole number from 1 to 8"),
        5 => push_found(out, found, "a whole number from 1 to 1000000"),
        6 => push_found(out, found, "a whole number from 3 to 1000000, or 0"),
        8 => push_messages(out, whole, found),
        9 => push_found(out, found, "an array of at most 4096 elements"),
        10 => push_found(out, found, "a text of at most 64 bytes"),
        11 => push_form(out, found, path),
        12 => push_place(out, whole, found),
        13 => push_deed(out, whole, found),
        _ => push_found(out, found, "\"lockstep\", or a whole number, a seed"),
    }
}

/// Why the messages are not an array for each member.
fn push_messages(out: &mut String, whole: Found<'_>, found: Found<'_>) -> Result<(), AllocError> {
    push_found(out, found, "an array of as many arrays as members")?;
    let members = whole.part("members");
    if members.value.is_some() {
        out.push_str("\"members\" is ")?;
        push_value(out, members)?;
        out.push_str("\n")?;
    }
    if let Some(Value::Array(lists)) = found.value {
        for (index, list) in lists.iter().enumerate() {
            if !list.is_array() {
                write!(out, "element {index}: ")?;
                return push_found(out, found.nth(index), "an array");
            }
        }
    }
    Ok(())
}
