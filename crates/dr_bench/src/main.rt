//! Does one kind of work many times over, so that a clock outside can tell its speed: the work of a member
//! on its words, that of a log, the report of a large age, or a whole group, by its schedule or in threads.
#![tactic(auto)]

mod ages;
mod bytes;
mod counter;
mod group;
mod groups;
mod logs;
mod looks;
mod made;
mod puts;
mod readies;
mod stores;
mod words;

use bytes::Bytes;
use dr_disk::CalmDisk;
use dr_io::OutputSink;
use group::Tally;
use logs::{appends, mounts};
use made::report_again;
use std::alloc::{AllocError, Global};
use std::io;
use std::process::ExitCode;
use words::{Kind, Logging, Task, Work, read_words, task_of};

const USAGE: &str =
    "usage: dr_bench looks|puts|readies|stores ROUNDS, or append|mount calm|bytes RECORDS ROUNDS, \
    or report MESSAGES ROUNDS";

fn main(rt: HostRuntime) -> io::Result<ExitCode> {
    let alloc = rt.alloc();
    let words = read_words(&rt)?;
    if let Some((first, more)) = words.split_first() {
        if first.as_str() == "groups" {
            return groups::groups(&rt, &rt, more);
        }
    }
    match task_of(&words) {
        Some(Task::Calls { work, rounds }) => print(&rt, called(alloc, work, rounds)?),
        Some(
            Task::Logs {
                logging,
                kind,
                records,
                rounds,
            },
        ) => print(&rt, logged(alloc, logging, kind, records, rounds)?),
        Some(Task::Report { messages, rounds }) => report(&rt, messages, rounds),
        None => {
            println!(rt; "{USAGE}, or {}", groups::USAGE)?;
            Ok(ExitCode::from(2))
        }
    }
}

/// Prints what was done: its name, how often, and a number made of what came of it.
fn print(rt: &HostRuntime, done: (&str, Tally)) -> io::Result<ExitCode> {
    let (name, Tally { count, checksum }) = done;
    println!(rt; "{name}: {count} checksum: {checksum:016x}")?;
    Ok(ExitCode::SUCCESS)
}

fn called(alloc: Global, work: Work, rounds: u32) -> Result<(&'static str, Tally), AllocError> {
    match work {
        Work::Looks => Ok(("looks", looks::looks(alloc, rounds)?)),
        Work::Puts => Ok(("puts", puts::puts(alloc, rounds)?)),
        Work::Readies => Ok(("readies", readies::readies(alloc, rounds)?)),
        Work::Stores => Ok(("stores", stores::stores(alloc, rounds)?)),
    }
}

fn logged(
    alloc: Global,
    logging: Logging,
    kind: Kind,
    records: u32,
    rounds: u32,
) -> Result<(&'static str, Tally), AllocError> {
    let (name, tally) = match (logging, kind) {
        (Logging::Append, Kind::Calm) => ("append", appends::<CalmDisk>(alloc, records, rounds)?),
        (Logging::Append, Kind::Bytes) => ("append", appends::<Bytes>(alloc, records, rounds)?),
        (Logging::Mount, Kind::Calm) => ("mount", mounts::<CalmDisk>(alloc, records, rounds)?),
        (Logging::Mount, Kind::Bytes) => ("mount", mounts::<Bytes>(alloc, records, rounds)?),
    };
    Ok((name, tally))
}

/// Makes the report of a large age so many times, and prints the last one, and the bytes of all.
fn report(rt: &HostRuntime, messages: u32, rounds: u32) -> io::Result<ExitCode> {
    let alloc = rt.alloc();
    let made = report_again(alloc, &[ages::age_of(alloc, messages)?], rounds)?;
    let mut sink = OutputSink::new(rt.stdout());
    if made.report.write_to(&mut sink).is_err() {
        return Ok(ExitCode::from(5));
    }
    let bytes = made.bytes;
    println!(rt; "bytes: {bytes}")?;
    Ok(ExitCode::SUCCESS)
}
