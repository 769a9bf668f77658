ghost use Rattle.std.specs.Prelude.{◌≡◌, ◌++◌, OnOk, string_bytes};
ghost use Rattle.dr_json.specs.Json.{element_json, fault_json, faults_json, faults_line, group_sizes, list_json, lists_json, member_json, messages_line, run_sizes, schedule_json, schedule_line, script_head, script_json, script_lists, size_json, what_json, whose_json};

use crate::text::{push_comma, push_text};
use dr_entry::{Message, Seq};
use dr_script::{Fault, Schedule, Script, What};
use std::alloc::{AllocError, Global};
use std::fmt::Write;

/// Appends the JSON text of a script.
///
/// # Errors
///
/// Want of memory alone.
pub fn push_script(alloc: Global, out: &mut String, script: &Script) -> Result<(), AllocError>
    ensures { OnOk result (string_bytes out.new ≡ string_bytes out.old ++ script_json script.now) }
{
    push_script_head(out, script)?;
    push_script_lists(alloc, out, script)?;
    push_schedule_line(out, script.schedule)
}

/// Appends a script up to its numbers.
fn push_script_head(out: &mut String, script: &Script) -> Result<(), AllocError>
    ensures { OnOk result (string_bytes out.new ≡ string_bytes out.old ++ script_head script.now) }
{
    out.push_str("{\n")?;
    push_group_sizes(out, script)?;
    push_run_sizes(out, script)
}

/// Appends the messages and the faults of a script.
fn push_script_lists(alloc: Global, out: &mut String, script: &Script) -> Result<(), AllocError>
    ensures { OnOk result (string_bytes out.new ≡ string_bytes out.old ++ script_lists script.now) }
{
    let messages = script.messages.as_slice();
    let faults = script.faults.as_slice();
    push_messages_line(alloc, out, messages)?;
    push_faults_line(out, faults)
}

/// Appends the numbers of the group of a script.
fn push_group_sizes(out: &mut String, script: &Script) -> Result<(), AllocError>
    ensures { OnOk result (string_bytes out.new ≡ string_bytes out.old ++ group_sizes script.now) }
{
    push_small(out, "members", script.members)?;
    push_small(out, "window", script.window)
}

/// Appends the numbers of the runs of a script.
fn push_run_sizes(out: &mut String, script: &Script) -> Result<(), AllocError>
    ensures { OnOk result (string_bytes out.new ≡ string_bytes out.old ++ run_sizes script.now) }
{
    push_size(out, "turns", script.turns)?;
    push_size(out, "patience", script.patience)?;
    push_small(out, "ages", script.ages)
}

fn push_small(out: &mut String, key: &str, size: u8) -> Result<(), AllocError>
    ensures { OnOk result (string_bytes out.new ≡ string_bytes out.old ++ size_json key.now size) }
{
    push_size(out, key, u32::from(size))
}

fn push_size(out: &mut String, key: &str, size: u32) -> Result<(), AllocError>
    ensures { OnOk result (string_bytes out.new ≡ string_bytes out.old ++ size_json key.now size) }
{
    writeln!(out, "  \"{key}\": {size},")
}

fn push_messages_line(
    alloc: Global,
    out: &mut String,
    lists: &[Seq<Message>],
) -> Result<(), AllocError>
    ensures { OnOk result (string_bytes out.new ≡ string_bytes out.old ++ messages_line lists.now) }
{
    out.push_str("  \"messages\": [")?;
    push_lists(alloc, out, lists)?;
    out.push_str("],\n")
}

fn push_faults_line(out: &mut String, faults: &[Fault]) -> Result<(), AllocError>
    ensures { OnOk result (string_bytes out.new ≡ string_bytes out.old ++ faults_line faults.now) }
{
    out.push_str("  \"faults\": [")?;
    push_faults(out, faults)?;
    out.push_str("],\n")
}

fn push_schedule_line(out: &mut String, schedule: Schedule) -> Result<(), AllocError>
    ensures { OnOk result
        (string_bytes out.new ≡ string_bytes out.old ++ schedule_line schedule) }
{
    out.push_str("  \"schedule\": ")?;
    push_schedule(out, schedule)?;
    out.push_str("\n}\n")
}

fn push_lists(alloc: Global, out: &mut String, lists: &[Seq<Message>]) -> Result<(), AllocError>
    ensures { OnOk result (string_bytes out.new ≡ string_bytes out.old ++ lists_json lists.now) }
{
    for (member, list) in lists.iter().enumerate() {
        push_list(alloc, out, member, list)?;
    }
    Ok(())
}

/// Appends the messages of the member with this number.
fn push_list(
    alloc: Global,
    out: &mut String,
    member: usize,
    messages: &Seq<Message>,
) -> Result<(), AllocError>
    ensures { OnOk result
        (string_bytes out.new ≡ string_bytes out.old ++ member_json member messages.now) }
{
    push_comma(out, member)?;
    out.push_str("[")?;
    push_messages(alloc, out, messages.as_slice())?;
    out.push_str("]")
}

fn push_messages(alloc: Global, out: &mut String, messages: &[Message]) -> Result<(), AllocError>
    ensures { OnOk result (string_bytes out.new ≡ string_bytes out.old ++ list_json messages.now) }
{
    for (index, message) in messages.iter().enumerate() {
        push_element(alloc, out, index, message)?;
    }
    Ok(())
}

/// Appends the message with this number.
fn push_element(
    alloc: Global,
    out: &mut String,
    index: usize,
    message: &Message,
) -> Result<(), AllocError>
    ensures { OnOk result
        (string_bytes out.new ≡ string_bytes out.old ++ element_json index message.now) }
{
    push_comma(out, index)?;
    push_text(alloc, out, message)
}

fn push_faults(out: &mut String, faults: &[Fault]) -> Result<(), AllocError>
    ensures { OnOk result (string_bytes out.new ≡ string_bytes out.old ++ faults_json faults.now) }
{
    for (index, fault) in faults.iter().enumerate() {
        push_fault(out, index, fault)?;
    }
    Ok(())
}

/// Appends the fault with this number.
fn push_fault(out: &mut String, index: usize, fault: &Fault) -> Result<(), AllocError>
    ensures { OnOk result
        (string_bytes out.new ≡ string_bytes out.old ++ fault_json index fault.now) }
{
    push_comma(out, index)?;
    push_whose(out, fault.age, fault.member)?;
    push_what(out, fault.what)
}

/// Appends the keys that say whose fault it is.
fn push_whose(out: &mut String, age: u8, member: u8) -> Result<(), AllocError>
    ensures { OnOk result (string_bytes out.new ≡ string_bytes out.old ++ whose_json age member) }
{
    write!(out, "{{\"age\": {age}, \"member\": {member}, ")
}

fn push_what(out: &mut String, what: What) -> Result<(), AllocError>
    ensures { OnOk result (string_bytes out.new ≡ string_bytes out.old ++ what_json what) }
{
    match what {
        What::Crash { turn, push } => write!(out, "\"crash\": [{turn}, {push}]}}"),
        What::Suspect { turn, other } => write!(out, "\"suspect\": [{turn}, {other}]}}"),
    }
}

fn push_schedule(out: &mut String, schedule: Schedule) -> Result<(), AllocError>
    ensures { OnOk result
        (string_bytes out.new ≡ string_bytes out.old ++ schedule_json schedule) }
{
    match schedule {
        Schedule::Lockstep => out.push_str("\"lockstep\""),
        Schedule::Seed(seed) => write!(out, "{seed}"),
    }
}
