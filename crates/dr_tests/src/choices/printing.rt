//! Prints what was chosen.
use dr_entry::Entry;
use dr_quorum::ChooseFault;
use dr_restart::Start;
use std::alloc::{AllocError, Global};
use std::fmt::Write;

/// A start, or why there is none.
pub(crate) fn text_of(alloc: Global, choice: Result<Start, ChooseFault>) -> anyhow::Result<String> {
    match choice {
        Ok(start) => start_text(alloc, &start),
        Err(fault) => fault_text(alloc, &fault),
    }
}

fn start_text(alloc: Global, start: &Start) -> anyhow::Result<String> {
    let mut text = format!(in alloc; "age {} members ", start.age)?;
    push_digits(&mut text, start.members)?;
    if start.present != start.members {
        text.push_str(" of whom ")?;
        push_digits(&mut text, start.present)?;
        text.push_str(" take part")?;
    }
    text.push_str(" start")?;
    for entry in start.entries.as_slice() {
        push_word(&mut text, entry)?;
    }
    Ok(text)
}

/// Appends an entry as a word.
fn push_word(out: &mut String, entry: &Entry) -> Result<(), AllocError> {
    match entry {
        Entry::View {
            age,
            number,
            members,
        } => {
            write!(out, " v{age}.{number}.")?;
            push_digits(out, *members)?;
        }
        Entry::Msg {
            sender,
            index,
            bytes,
        } => {
            write!(out, " m{sender}.{index}.")?;
            for byte in bytes.bytes() {
                out.push(char::from(*byte))?;
            }
        }
    }
    Ok(())
}

/// Why nothing was chosen.
pub(crate) fn fault_text(alloc: Global, fault: &ChooseFault) -> anyhow::Result<String> {
    let text = match fault {
        ChooseFault::OutOfMemory => return Err(AllocError.into()),
        ChooseFault::Foreign { member, place } => {
            format!(in alloc; "foreign entry of member {member} at {place}")?
        }
        ChooseFault::NoQuorum { view, have, need } => match view {
            Some(view) => format!(in alloc; "quorum of view {view} has {have} of {need}")?,
            None => format!(in alloc; "quorum of roster has {have} of {need}")?,
        },
        ChooseFault::Disagree { a, b, place } => {
            format!(in alloc; "members {a} and {b} disagree at {place}")?
        }
        ChooseFault::AgesUsedUp => format!(in alloc; "ages used up")?,
    };
    Ok(text)
}

/// Appends the members of a mask as digits.
fn push_digits(out: &mut String, members: u16) -> Result<(), AllocError> {
    for m in 0..16_u8 {
        if members >> m & 1 == 1 {
            write!(out, "{m}")?;
        }
    }
    Ok(())
}
