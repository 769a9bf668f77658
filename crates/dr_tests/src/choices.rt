//! This part reads scripts and logs, a line each, and prints what the next age starts with. What it
//! has to print was worked out by hand.
//!
//! A line that begins with a brace is a script, and takes away the logs; one that begins with `#` says what
//! the lines behind it show. `log M` and what stands on it is the log of a member: `vA.N.L` is a View of an
//! age, a number and members, `mS.I.T` a message of a sender, an index and a text, `bA.N.B.R.L` a vote of an
//! age, a view, a ballot, a roster and leavers, `aA.L` an age vote of an age and members. Members are listed as digits.
//! `choose` and members chooses a start by the logs of all others, and `copy` copies a start of members of whom
//! some take part.
pub(crate) mod printing;
pub(crate) mod reading;

use crate::choices::printing::text_of;
use crate::choices::reading::{borrowed, lists_of, mask_of};
use dr_entry::Seq;
use dr_quorum::choose;
use dr_restart::Start;
use dr_script::read_script;
use std::alloc::Global;

/// The script and the logs of the lines so far.
#[derive(Drop)]
struct Case {
    script: String,
    logs: Vec<String>,
}

/// Prints what becomes of these lines.
pub(crate) fn show(rt: &HostRuntime, lines: &str) -> anyhow::Result<()> {
    let alloc = rt.alloc();
    let mut case = Case {
        script: String::new(alloc),
        logs: Vec::new(alloc),
    };
    for line in lines.lines() {
        println!(rt; "{line}")?;
        case.take(rt, line)?;
    }
    Ok(())
}

impl Case {
    /// Takes a line, and prints what it chooses or copies.
    fn take(&mut self, rt: &HostRuntime, line: &str) -> anyhow::Result<()> {
        let alloc = rt.alloc();
        if line.starts_with('{') {
            self.script = String::from_str(alloc, line)?;
            self.logs.clear();
        } else if let Some(log) = line.strip_prefix("log ") {
            self.logs.push(String::from_str(alloc, log)?)?;
        } else if let Some(missing) = line.strip_prefix("choose") {
            let said = chosen(alloc, self.script.as_str(), self.logs.as_slice(), missing)?;
            println!(rt; "{said}")?;
        } else if let Some(masks) = line.strip_prefix("copy ") {
            let said = copied(alloc, masks)?;
            println!(rt; "{said}")?;
        }
        Ok(())
    }
}

/// The copy of a start of these members, of whom those behind the blank take part.
fn copied(alloc: Global, masks: &str) -> anyhow::Result<String> {
    let (members, present) = masks.split_once(' ').unwrap_or((masks, masks));
    let start = Start {
        age: 0,
        members: mask_of(members)?,
        present: mask_of(present)?,
        entries: Seq::of(Vec::new(alloc)),
    };
    text_of(alloc, Ok(start.copy(alloc)?))
}

/// What the logs of all but the missing make of a script.
fn chosen(alloc: Global, script: &str, logs: &[String], missing: &str) -> anyhow::Result<String> {
    let script = read_script(alloc, script.as_bytes())?;
    let lists = lists_of(alloc, script.members, logs, missing)?;
    let lists = borrowed(alloc, lists.as_slice())?;
    text_of(alloc, choose(alloc, &script, lists.as_slice()))
}
