//! This part reads scripts and events, a line each, and prints which events came, and what a world
//! comes to. What it has to print was worked out by hand.
//!
//! A line that begins with a brace is a script, and opens the world of its group; `absent M` opens it anew
//! without this member too, and `late M` so that this one isn't in its first view. A line that begins with `#` says
//! what the lines behind it show. `world` prints the world, and `again` that of a new run through all
//! events so far. `word M ROW COLUMN` prints a word of a member's copy of the table, and `show FROM TO
//! FIRST END` has a member push its words of these columns to another, which looks at them. Any other line
//! is an event: its name, its member, and what else belongs to it.
mod events;
mod played;
mod printing;

use crate::world::played::Played;
use anyhow::anyhow;
use std::alloc::Global;

/// Prints what becomes of these lines.
pub(crate) fn show(rt: &HostRuntime, lines: &str) -> anyhow::Result<()> {
    let alloc = rt.alloc();
    let mut played = None;
    for line in lines.lines() {
        if line.starts_with('{') {
            played = Some(Played::open(alloc, line)?);
        }
        let said = match &mut played {
            Some(played) if !line.starts_with(['{', '#']) => said_to(alloc, played, line)?,
            _ => String::new(alloc),
        };
        println!(rt; "{line}{said}")?;
    }
    Ok(())
}

/// What a line comes to.
fn said_to(alloc: Global, played: &mut Played, line: &str) -> anyhow::Result<String> {
    let mut words = line.split_whitespace();
    let name = words.next().unwrap_or("");
    let mut numbers = Vec::new(alloc);
    for word in words {
        numbers.push(word.parse()?)?;
    }
    played
        .answer(alloc, name, numbers.as_slice())?
        .ok_or(anyhow!("{line} is no line of a test"))
}
