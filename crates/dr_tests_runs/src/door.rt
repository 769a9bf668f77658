//! This part reads lines and prints what the doors of a group do. A script leads them to their ends, over a way on
//! which words come late, twice and out of order; so does `late M SCRIPT`, where this member is late, over one on which
//! each word comes at once, and `lost M SCRIPT`, where its letter is lost too. `open ME SCRIPT` opens the door of a
//! member, of which the calls of the lines behind it are asked: `came INDEX WORD`, `judge INDEX WORD`, `again TO FROM`,
//! and others by their names alone; the index of a word is
//! `((bank * members + copy) * members + row) * columns + column`. A line that begins with `#` says what those behind
//! it show.
mod calls;
mod led;

use crate::door::calls::told_of;
use crate::door::led::{Way, lead_all, print_ends, print_way};
use crate::starts::start_without;
use anyhow::anyhow;
use dr_door::{Door, begun_door, open_door};
use dr_script::read_script;
use dr_words::Mask;
use std::alloc::Global;

/// Of so many packets one comes late where a script stands alone.
const LATE: usize = 4;

/// Prints what becomes of these lines.
pub(crate) fn show(rt: &HostRuntime, lines: &str) -> anyhow::Result<()> {
    let mut door = None;
    for line in lines.lines() {
        match line.strip_prefix("open ") {
            Some(rest) => door = print_opened(rt, rt.alloc(), rest)?,
            None => show_line(rt, line, &mut door)?,
        }
    }
    Ok(())
}

/// Prints what becomes of a line that opens no door, where this one was opened last.
fn show_line(rt: &HostRuntime, line: &str, door: &mut Option<Door>) -> anyhow::Result<()> {
    if line.starts_with('#') {
        println!(rt; "{line}")?;
    } else if line.starts_with('{') {
        print_led(rt, line)?;
    } else if let Some(rest) = line.strip_prefix("late ") {
        print_late(rt, rest, true)?;
    } else if let Some(rest) = line.strip_prefix("lost ") {
        print_late(rt, rest, false)?;
    } else if let Some(door) = door {
        print_told(rt, door, line)?;
    }
    Ok(())
}

/// Leads the doors of a script's new group, to which some words come late.
fn print_led(rt: &HostRuntime, script: &str) -> anyhow::Result<()> {
    let alloc = rt.alloc();
    let mut way = Way::new(alloc, LATE, true);
    let led = lead_all(alloc, new_doors(alloc, script)?, &mut way)?;
    print_way(rt, led.as_slice(), &way)?;
    print_ends(rt, led.as_slice())
}

/// Prints what a door answers to the call of a line.
fn print_told(rt: &HostRuntime, door: &mut Door, line: &str) -> anyhow::Result<()> {
    println!(rt; "{line}: {}", told_of(rt.alloc(), door, line)?)?;
    Ok(())
}

/// Leads the doors of a script's new group with a late member, whose letter comes or is lost.
fn print_late(rt: &HostRuntime, line: &str, comes: bool) -> anyhow::Result<()> {
    let alloc = rt.alloc();
    let mut way = Way::new(alloc, 0, comes);
    let led = lead_all(alloc, late_doors(alloc, line)?, &mut way)?;
    print_ends(rt, led.as_slice())
}

/// The doors of a script's new group.
fn new_doors(alloc: Global, script: &str) -> anyhow::Result<Vec<Door>> {
    let mut doors = Vec::new(alloc);
    for me in 0..read_script(alloc, script.as_bytes())?.members {
        doors.push(open_door(alloc, script.as_bytes(), me)?)?;
    }
    Ok(doors)
}

/// The doors of a script's new group, of which one member is late.
fn late_doors(alloc: Global, line: &str) -> anyhow::Result<Vec<Door>> {
    let Some((late, script)) = line.split_once(' ') else {
        return Err(anyhow!("{line} has no script"));
    };
    let script = read_script(alloc, script.as_bytes())?;
    let late: u8 = late.parse()?;
    if script.members <= late {
        return Err(anyhow!("the group has no member {late}"));
    }
    let late = Mask::empty().with(late);
    let Some(start) = start_without(alloc, &script, Mask::empty(), late) else {
        return Err(anyhow!("all are late"));
    };
    let there = Mask::of(start.present);
    let mut doors = Vec::new(alloc);
    for me in 0..script.members {
        if there.has(me) {
            doors.push(begun_door(alloc, &script, &start, 0, me)?)?;
        }
    }
    Ok(doors)
}

/// Opens the door of the member and the script of a line, and prints why where it isn't opened.
fn print_opened(rt: &HostRuntime, alloc: Global, line: &str) -> anyhow::Result<Option<Door>> {
    let Some((me, script)) = line.split_once(' ') else {
        return Err(anyhow!("{line} has no script"));
    };
    match open_door(alloc, script.as_bytes(), me.parse()?) {
        Ok(door) => {
            println!(rt; "open {me}: turn {}", door.turns())?;
            Ok(Some(door))
        }
        Err(fault) => {
            println!(rt; "open {me}: {fault:?}")?;
            Ok(None)
        }
    }
}
