//! This part reads scripts and disks, a line each, opens ages on the logs of these, and prints what has
//! come of it. What it has to print was worked out by hand.
//!
//! A line that begins with a brace is a script, and takes away the disks; one that begins with `#` says what the
//! lines behind it show. `disk` is the disk of the next member, and what stands on it, in hexadecimal. `open` and
//! members opens an age on the logs of all others; members are listed as digits. With `late` and members behind
//! that, these are late, and with `after M N` the disk of member M fails from its call N + 1 on. What stands on each
//! disk then is there when the next age opens.
mod disks;
mod printing;

use crate::opening::disks::{keep_all, late_among, logs_of};
use crate::opening::printing::text_of;
use dr_opening::open_age;
use dr_script::read_script;
use std::alloc::Global;

/// Prints what becomes of these lines.
pub(crate) fn show(rt: &HostRuntime, lines: &str) -> anyhow::Result<()> {
    let alloc = rt.alloc();
    let mut script = String::new(alloc);
    let mut disks = Vec::new(alloc);
    for line in lines.lines() {
        println!(rt; "{line}")?;
        if line.starts_with('{') {
            script = String::from_str(alloc, line)?;
            disks.clear();
        } else if let Some(disk) = line.strip_prefix("disk") {
            disks.push(String::from_str(alloc, disk.trim())?)?;
        } else if let Some(words) = line.strip_prefix("open") {
            let said = opened(alloc, script.as_str(), &mut disks, words)?;
            println!(rt; "{said}")?;
            for disk in &disks {
                println!(rt; "{disk}")?;
            }
        }
    }
    Ok(())
}

/// What comes of opening an age of the script on these disks.
fn opened(
    alloc: Global,
    script: &str,
    disks: &mut Vec<String>,
    words: &str,
) -> anyhow::Result<String> {
    let script = read_script(alloc, script.as_bytes())?;
    let (members, rest) = words.split_once("after").unwrap_or((words, ""));
    let (missing, late) = members.split_once("late").unwrap_or((members, ""));
    let mut logs = logs_of(alloc, script.members, disks.as_slice(), missing, rest)?;
    let late = late_among(logs.as_slice(), late)?;
    let answer = open_age(alloc, &script, late, logs.as_mut_slice());
    keep_all(alloc, logs, disks)?;
    text_of(alloc, answer)
}
