//! A test program: it reads calls, and prints what they answer. What it has to print was worked out by hand, or
//! computed apart from this repository.
//!
//! A line `= PART` says to which part those behind it belong, up to the next such line; the module of that name says
//! what its lines mean.
#![tactic(auto)]

mod base;
mod check;
mod choices;
mod log;
mod opening;
mod store;
mod text;

use anyhow::anyhow;
use std::io;

fn main(rt: HostRuntime) -> anyhow::Result<()> {
    let text = io::read_to_string(rt.alloc(), rt.reader())?;
    for part in text.as_str().split("\n= ") {
        let (name, lines) = part.split_once('\n').unwrap_or((part, ""));
        show(&rt, name.trim_start_matches("= "), lines)?;
    }
    Ok(())
}

/// Prints what the calls of a part answer.
fn show(rt: &HostRuntime, part: &str, lines: &str) -> anyhow::Result<()> {
    match part {
        "text" => text::show(rt),
        "store" => store::show(rt, lines),
        "log" => log::show(rt, lines),
        "check" => check::show(rt, lines),
        "base" => base::show(rt, lines),
        "choices" => choices::show(rt, lines),
        "opening" => opening::show(rt, lines),
        _ => Err(anyhow!("there is no part {part}")),
    }
}
