//! This part reads what is done with logs, a case a line, and prints what becomes of them. What it has to
//! print was computed apart from this repository, by the table of the records and by what a crash may leave of a disk.
//!
//! A case is its name, the greatest length of its log, which call of its disk fails, behind how many calls it stops,
//! which byte a crash then leaves of all that isn't safe, the bytes on the disk, in hexadecimal, and what is done. A
//! dash stands for none. A record in hexadecimal is appended, as often as the number behind `*` says; of three with
//! `+` between them the entries are appended behind one gate; `vote=AGE,MEMBERS` votes for an age. Behind what the log
//! answers stands what is on it, and then the bytes of the disk, and what is on it when it is mounted again. A line
//! that begins with `#` says what those behind it show.
mod steps;

use crate::log::steps::done_on;
use anyhow::anyhow;
use dr_disk::{Disk, MemoryDisk};
use std::alloc::{AllocError, Global};
use std::fmt::Write;

/// Prints what becomes of these lines.
pub(crate) fn show(rt: &HostRuntime, lines: &str) -> anyhow::Result<()> {
    let alloc = rt.alloc();
    for line in lines.lines() {
        if line.starts_with('#') {
            println!(rt; "{line}")?;
        } else {
            match told_of(alloc, line) {
                Ok(told) => println!(rt; "{line}:{told}")?,
                Err(error) => println!(rt; "{line}: {error}")?,
            }
        }
    }
    Ok(())
}

/// What becomes of a case.
fn told_of(alloc: Global, line: &str) -> anyhow::Result<String> {
    let mut words = line.split_whitespace();
    let _name = words.next();
    let limit = number(words.next()).unwrap_or(0);
    let fails = number(words.next()).unwrap_or(0);
    let stops = number(words.next());
    let crash = number(words.next());
    let disk = disk_with(alloc, fails, stops, words.next().unwrap_or(""))?;
    let mut told = String::new(alloc);
    let disk = done_on(alloc, disk, limit, words, &mut told)?;
    let disk = crashed(alloc, disk, crash)?;
    push_bytes(&mut told, disk.bytes())?;
    let _disk = done_on(alloc, disk, limit, "".split_whitespace(), &mut told)?;
    Ok(told)
}

/// The number that a word spells, where it spells one.
fn number(word: Option<&str>) -> Option<u64> {
    word?.parse().ok()
}

/// A disk with the bytes of a word on it, whose call `fails` fails, and which stops behind so many calls.
fn disk_with(
    alloc: Global,
    fails: u64,
    stops: Option<u64>,
    word: &str,
) -> anyhow::Result<MemoryDisk> {
    let bytes = hex::decode(alloc, word.trim_start_matches('-'))?;
    let mut disk = MemoryDisk::new(alloc, &[fails], stops)?;
    if !bytes.is_empty() {
        disk.reserve(2, bytes.len() as u64)?;
        if disk.write_at(0, bytes.as_slice()).is_err() || disk.sync().is_err() {
            return Err(anyhow!("the disk failed before"));
        }
    }
    Ok(disk)
}

/// A disk behind a crash, where there is one, that leaves this byte of all that isn't safe.
fn crashed(alloc: Global, disk: MemoryDisk, byte: Option<u64>) -> Result<MemoryDisk, AllocError> {
    match byte {
        Some(byte) => disk.crashed(alloc, byte.to_le_bytes()[0]),
        None => Ok(disk),
    }
}

/// Appends the first bytes of a disk, in hexadecimal.
fn push_bytes(out: &mut String, bytes: &[u8]) -> Result<(), AllocError> {
    out.push_str("\n  ")?;
    for byte in bytes.iter().take(80) {
        write!(out, "{byte:02x}")?;
    }
    Ok(())
}
