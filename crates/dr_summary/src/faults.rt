ghost use Rattle.std.specs.Prelude.{◌≡◌, ◌++◌, IfOk, OnOk, slice_get, string_bytes};
ghost use Rattle.dr_summary.specs.Notes.{fault_in, fault_text, faults_text, has_come, is_crashed, is_forestalled, is_sooner, missed, missed_in, never_came, never_line, was_missed};

use dr_entry::{End, MemberEnd};
use dr_script::{Fault, What};
use std::alloc::{AllocError, Global};
use std::fmt::Write;

/// Appends the faults of this age of the run, from 0, that never came.
pub(crate) fn push_faults(
    out: &mut String,
    faults: &[Fault],
    nth: usize,
    members: &[MemberEnd],
) -> Result<(), AllocError>
    ensures { OnOk result
        (string_bytes out.new ≡ string_bytes out.old ++ faults_text faults.now nth members.now) }
{
    for (number, fault) in faults.iter().enumerate() {
        push_fault_in(out, faults, nth, number, fault, members)?;
    }
    Ok(())
}

/// The same of one fault, which has this number.
fn push_fault_in(
    out: &mut String,
    faults: &[Fault],
    nth: usize,
    number: usize,
    fault: &Fault,
    members: &[MemberEnd],
) -> Result<(), AllocError>
    ensures { OnOk result (string_bytes out.new
        ≡ string_bytes out.old ++ fault_in faults.now nth members.now number fault.now) }
{
    if usize::from(fault.age) != nth {
        return Ok(());
    }
    push_fault(out, faults, number, fault, members)
}

/// Appends the line of the fault of this number, where it never came.
fn push_fault(
    out: &mut String,
    faults: &[Fault],
    number: usize,
    fault: &Fault,
    members: &[MemberEnd],
) -> Result<(), AllocError>
    ensures { OnOk result (string_bytes out.new ≡ string_bytes out.old
        ++ fault_text faults.now number fault.now (slice_get members.now fault.now.member)) }
{
    let Some(end) = members.get(usize::from(fault.member)) else {
        return Ok(());
    };
    if has_come(faults, fault, end) {
        return Ok(());
    }
    push_never(out, number, fault.member, end.turns)
}

fn push_never(out: &mut String, number: usize, member: u8, turns: u32) -> Result<(), AllocError>
    ensures { OnOk result
        (string_bytes out.new ≡ string_bytes out.old ++ never_line number member turns) }
{
    writeln!(
        out,
        "fault {number} never came: member {member} ended in turn {turns}"
    )
}

/// The numbers of the faults of this age of the run, from 0, that never came.
pub(crate) fn missed(
    alloc: Global,
    faults: &[Fault],
    nth: usize,
    members: &[MemberEnd],
) -> Result<Vec<usize>, AllocError>
    ensures { IfOk result (λ numbers. numbers.items ≡ missed faults.now nth members.now) }
{
    let mut numbers = Vec::new(alloc);
    for (number, fault) in faults.iter().enumerate() {
        push_missed_in(&mut numbers, faults, nth, number, fault, members)?;
    }
    Ok(numbers)
}

/// Appends the number of a fault, where it is one of those.
fn push_missed_in(
    numbers: &mut Vec<usize>,
    faults: &[Fault],
    nth: usize,
    number: usize,
    fault: &Fault,
    members: &[MemberEnd],
) -> Result<(), AllocError>
    ensures { OnOk result (numbers.new.items
        ≡ numbers.old.items ++ missed_in faults.now nth members.now number fault.now) }
{
    if never_came(faults, nth, fault, members) {
        numbers.push(number)?;
    }
    Ok(())
}

/// Whether a fault is one of this age of the run and never came.
fn never_came(faults: &[Fault], nth: usize, fault: &Fault, members: &[MemberEnd]) -> bool
    ensures { result ≡ never_came faults.now nth members.now fault.now }
{
    usize::from(fault.age) == nth && was_missed(faults, fault, members)
}

/// Whether what was planned for one of these members never came.
fn was_missed(faults: &[Fault], fault: &Fault, members: &[MemberEnd]) -> bool
    ensures { result ≡ was_missed faults.now fault.now (slice_get members.now fault.now.member) }
{
    match members.get(usize::from(fault.member)) {
        Some(end) => !has_come(faults, fault, end),
        None => false,
    }
}

/// Whether a fault has come, as its member ended so.
fn has_come(faults: &[Fault], fault: &Fault, end: &MemberEnd) -> bool
    ensures { result ≡ has_come faults.now fault.now.age fault.now.member end.now fault.now.what }
{
    match fault.what {
        What::Crash { turn, push } => {
            is_crashed(end.end) && end.turns == turn && !is_forestalled(faults, fault, turn, push)
        }
        What::Suspect { turn, .. } => turn <= end.turns,
    }
}

fn is_crashed(end: End) -> bool
    ensures { result ≡ is_crashed end }
{
    matches!(end, End::Crashed)
}

/// Whether the same member was to crash in this turn before this push.
fn is_forestalled(faults: &[Fault], fault: &Fault, turn: u32, push: u32) -> bool
    ensures { result ≡ is_forestalled faults.now fault.now.age fault.now.member turn push }
{
    faults.iter().any(|other| other.age == fault.age
        && other.member == fault.member
        && is_sooner(turn, push, other.what))
}

fn is_sooner(turn: u32, push: u32, what: What) -> bool
    ensures { result ≡ is_sooner turn push what }
{
    match what {
        What::Crash { turn: t, push: p } => t == turn && p < push,
        What::Suspect { .. } => false,
    }
}
