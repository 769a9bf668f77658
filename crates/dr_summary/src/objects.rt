//! The summary of an age as a JSON object.
ghost use Rattle.std.specs.Prelude.{◌≡◌, ◌+◌, ◌<◌, ◌^◌, ◌++◌, OnOk, length, string_bytes};
ghost use Rattle.dr_summary.specs.Notes.{missed, undelivered};
ghost use Rattle.dr_summary.specs.Objects.{age_back, age_entries, age_front, age_members, age_missed, age_object, age_start, age_undelivered, entry_object, entry_objects, line_before, member_ended, member_known, member_object, member_objects, message_head, name_array, name_arrays, next_entry_object, number_element, number_elements, view_tail};

use crate::age::behind;
use crate::faults::missed;
use crate::histories::longest;
use crate::undelivered::undelivered;
use dr_entry::{AgeEnd, Entry, MemberEnd, Message};
use dr_json::{push_comma, push_text};
use dr_script::{Fault, Script};
use dr_text::{push_end, push_mask};
use std::alloc::{AllocError, Global};
use std::fmt::Write;

/// Appends age number `nth` of a run of the script, from 0, as a JSON object.
///
/// # Errors
///
/// Want of memory alone.
pub fn push_age_object(
    alloc: Global,
    out: &mut String,
    script: &Script,
    nth: usize,
    age: &AgeEnd,
) -> Result<(), AllocError>
    ensures { OnOk result
        (string_bytes out.new ≡ string_bytes out.old ++ age_object script.now nth age.now) }
{
    let history = longest(age.members.as_slice());
    push_age_front(alloc, out, nth, age, history)?;
    push_age_back(alloc, out, script, nth, age, history)
}

/// Appends an age up to its members, by this history.
fn push_age_front(
    alloc: Global,
    out: &mut String,
    nth: usize,
    age: &AgeEnd,
    history: &[Entry],
) -> Result<(), AllocError>
    ensures { OnOk result
        (string_bytes out.new ≡ string_bytes out.old ++ age_front nth age.now history.now) }
{
    begin_line(out, nth)?;
    push_age_entries(alloc, out, age, history)?;
    push_age_members(out, age)
}

/// Appends what stands behind them.
fn push_age_back(
    alloc: Global,
    out: &mut String,
    script: &Script,
    nth: usize,
    age: &AgeEnd,
    history: &[Entry],
) -> Result<(), AllocError>
    ensures { OnOk result
        (string_bytes out.new ≡ string_bytes out.old ++ age_back script.now nth age.now history.now) }
{
    let faults = script.faults.as_slice();
    let members = age.members.as_slice();
    push_missed(alloc, out, faults, nth, members)?;
    push_start(out, age)?;
    push_undelivered_names(alloc, out, script, history)
}

/// Appends the number of an age whose longest history is this one, and the entries that it added.
fn push_age_entries(
    alloc: Global,
    out: &mut String,
    age: &AgeEnd,
    history: &[Entry],
) -> Result<(), AllocError>
    ensures { OnOk result
        (string_bytes out.new ≡ string_bytes out.old ++ age_entries age.now history.now) }
{
    let number = age.age;
    let start = age.start.as_slice().len();
    write!(out, " {{\"age\": {number},\n  \"entries\": [")?;
    push_entries(alloc, out, start, behind(history, start))?;
    out.push_str("],\n")
}

/// Appends its members.
fn push_age_members(out: &mut String, age: &AgeEnd) -> Result<(), AllocError>
    ensures { OnOk result (string_bytes out.new ≡ string_bytes out.old ++ age_members age.now) }
{
    out.push_str("  \"members\": [")?;
    push_members(out, age.members.as_slice())?;
    out.push_str("],\n")
}

/// Appends the numbers of the faults of this age, which has number `nth`, that never came.
fn push_missed(
    alloc: Global,
    out: &mut String,
    faults: &[Fault],
    nth: usize,
    members: &[MemberEnd],
) -> Result<(), AllocError>
    ensures { OnOk result (string_bytes out.new
        ≡ string_bytes out.old ++ age_missed (missed faults.now nth members.now)) }
{
    let numbers = missed(alloc, faults, nth, members)?;
    out.push_str("  \"never_came\": [")?;
    push_fault_numbers(out, &numbers)?;
    out.push_str("],\n")
}

/// Appends how many entries it started with.
fn push_start(out: &mut String, age: &AgeEnd) -> Result<(), AllocError>
    ensures { OnOk result (string_bytes out.new ≡ string_bytes out.old ++ age_start age.now) }
{
    let start = age.start.as_slice().len();
    writeln!(out, "  \"start\": {start},")
}

/// Appends the messages of the script that are not in this history.
fn push_undelivered_names(
    alloc: Global,
    out: &mut String,
    script: &Script,
    history: &[Entry],
) -> Result<(), AllocError>
    ensures { OnOk result (string_bytes out.new
        ≡ string_bytes out.old ++ age_undelivered (undelivered script.now history.now)) }
{
    let names = undelivered(alloc, script, history)?;
    out.push_str("  \"undelivered\": [")?;
    push_names(out, &names)?;
    out.push_str("]}")
}

/// Begins the line of an element of a list with this number.
fn begin_line(out: &mut String, number: usize) -> Result<(), AllocError>
    ensures { OnOk result (string_bytes out.new ≡ string_bytes out.old ++ line_before number) }
{
    out.push_str(if number == 0 { "\n" } else { ",\n" })
}

/// Appends these entries, the first of which has this number.
fn push_entries(
    alloc: Global,
    out: &mut String,
    first: usize,
    entries: &[Entry],
) -> Result<(), AllocError>
    requires { first + length entries.now < 2 ^ 64 }
    ensures { OnOk result
        (string_bytes out.new ≡ string_bytes out.old ++ entry_objects first entries.now) }
{
    for (place, entry) in entries.iter().enumerate() {
        push_next_entry(alloc, out, first, place, entry)?;
    }
    Ok(())
}

fn push_next_entry(
    alloc: Global,
    out: &mut String,
    first: usize,
    place: usize,
    entry: &Entry,
) -> Result<(), AllocError>
    requires { first + place < 2 ^ 64 }
    ensures { OnOk result
        (string_bytes out.new ≡ string_bytes out.old ++ next_entry_object first place entry.now) }
{
    begin_line(out, place)?;
    push_entry(alloc, out, first + place, entry)
}

fn push_entry(
    alloc: Global,
    out: &mut String,
    number: usize,
    entry: &Entry,
) -> Result<(), AllocError>
    ensures { OnOk result
        (string_bytes out.new ≡ string_bytes out.old ++ entry_object number entry.now) }
{
    match entry {
        Entry::View {
            number: view,
            members,
            ..
        } => push_view(out, number, *view, *members),
        Entry::Msg {
            sender,
            index,
            bytes,
        } => push_msg(alloc, out, number, *sender, *index, bytes),
    }
}

fn push_view(out: &mut String, number: usize, view: u8, members: u16) -> Result<(), AllocError>
    ensures { OnOk result (string_bytes out.new
        ≡ string_bytes out.old ++ entry_object number (Entry.View 0 view members)) }
{
    out.push_str("   {\"members\": [")?;
    push_mask(out, members)?;
    push_view_tail(out, number, view)
}

/// Appends what stands behind the members of a View.
fn push_view_tail(out: &mut String, number: usize, view: u8) -> Result<(), AllocError>
    ensures { OnOk result
        (string_bytes out.new ≡ string_bytes out.old ++ view_tail number view) }
{
    write!(out, "], \"number\": {number}, \"view\": {view}}}")
}

fn push_msg(
    alloc: Global,
    out: &mut String,
    number: usize,
    sender: u8,
    index: u32,
    bytes: &Message,
) -> Result<(), AllocError>
    ensures { OnOk result (string_bytes out.new
        ≡ string_bytes out.old ++ entry_object number (Entry.Msg sender index bytes.now)) }
{
    push_head(out, number, sender, index)?;
    push_text(alloc, out, bytes)?;
    out.push_str("}")
}

/// Appends what stands before the text of a message.
fn push_head(out: &mut String, number: usize, sender: u8, index: u32) -> Result<(), AllocError>
    ensures { OnOk result
        (string_bytes out.new ≡ string_bytes out.old ++ message_head number sender index) }
{
    write!(
        out,
        "   {{\"index\": {index}, \"number\": {number}, \"sender\": {sender}, \"text\": "
    )
}

fn push_members(out: &mut String, members: &[MemberEnd]) -> Result<(), AllocError>
    ensures { OnOk result
        (string_bytes out.new ≡ string_bytes out.old ++ member_objects members.now) }
{
    for (number, member) in members.iter().enumerate() {
        push_member(out, number, member)?;
    }
    Ok(())
}

/// Appends the member with this number.
fn push_member(out: &mut String, number: usize, member: &MemberEnd) -> Result<(), AllocError>
    ensures { OnOk result
        (string_bytes out.new ≡ string_bytes out.old ++ member_object number member.now) }
{
    begin_line(out, number)?;
    push_known(out, member)?;
    push_end(out, member.end)?;
    push_ended(out, number, member)
}

/// Appends what a member has delivered and knows to be durable.
fn push_known(out: &mut String, member: &MemberEnd) -> Result<(), AllocError>
    ensures { OnOk result (string_bytes out.new ≡ string_bytes out.old ++ member_known member.now) }
{
    let delivered = member.history.as_slice().len();
    let durable = member.durable;
    write!(
        out,
        "   {{\"delivered\": {delivered}, \"durable\": {durable}, \"end\": \""
    )
}

/// Appends what stands behind its end.
fn push_ended(out: &mut String, number: usize, member: &MemberEnd) -> Result<(), AllocError>
    ensures { OnOk result
        (string_bytes out.new ≡ string_bytes out.old ++ member_ended number member.now) }
{
    let logged = member.logged;
    let turns = member.turns;
    write!(
        out,
        "\", \"logged\": {logged}, \"member\": {number}, \"turns\": {turns}}}"
    )
}

fn push_names(out: &mut String, names: &[(usize, usize)]) -> Result<(), AllocError>
    ensures { OnOk result
        (string_bytes out.new ≡ string_bytes out.old ++ name_arrays names.now) }
{
    for (place, name) in names.iter().enumerate() {
        push_name(out, place, *name)?;
    }
    Ok(())
}

/// Appends the message with this sender and this number.
fn push_name(out: &mut String, place: usize, name: (usize, usize)) -> Result<(), AllocError>
    ensures { OnOk result
        (string_bytes out.new ≡ string_bytes out.old ++ name_array place name) }
{
    let (sender, index) = name;
    push_comma(out, place)?;
    write!(out, "[{sender}, {index}]")
}

fn push_fault_numbers(out: &mut String, numbers: &[usize]) -> Result<(), AllocError>
    ensures { OnOk result
        (string_bytes out.new ≡ string_bytes out.old ++ number_elements numbers.now) }
{
    for (place, number) in numbers.iter().enumerate() {
        push_fault_number(out, place, *number)?;
    }
    Ok(())
}

fn push_fault_number(out: &mut String, place: usize, number: usize) -> Result<(), AllocError>
    ensures { OnOk result
        (string_bytes out.new ≡ string_bytes out.old ++ number_element place number) }
{
    push_comma(out, place)?;
    write!(out, "{number}")
}
