//! A test program: it reads scripts and events, and prints what comes of them. What it has to print was worked out by
//! hand, or computed apart from this repository.
//!
//! A line `= PART` says to which part those behind it belong, up to the next such line; the module of that name says
//! what its lines mean.
#![tactic(auto)]

mod door;
mod starts;
mod suspicions;
mod threads;
mod world;

use anyhow::anyhow;
use std::io;
use std::thread::Threads;

fn main(rt: HostRuntime) -> anyhow::Result<()> {
    let text = io::read_to_string(rt.alloc(), rt.reader())?;
    for part in text.as_str().split("\n= ") {
        let (name, lines) = part.split_once('\n').unwrap_or((part, ""));
        show(&rt, &rt, name.trim_start_matches("= "), lines)?;
    }
    Ok(())
}

/// Prints what becomes of the lines of a part.
fn show(
    rt: &HostRuntime,
    threads: &(impl Threads + Sync),
    part: &str,
    lines: &str,
) -> anyhow::Result<()> {
    match part {
        "world" => world::show(rt, lines),
        "suspicions" => suspicions::show(rt, threads, lines),
        "threads" => threads::show(rt, threads, lines),
        "door" => door::show(rt, lines),
        _ => Err(anyhow!("there is no part {part}")),
    }
}
