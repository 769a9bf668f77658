//! Runs a group, by its schedule or in threads.
ghost use Rattle.dr_script.specs.Ranges.{HasRanges};

mod ends;
mod first;
mod members;
mod pace;
mod run;
mod task;

use dr_entry::AgeEnd;
use dr_pace::{Pace, SnoozePace};
use dr_script::{Schedule, Script};
use ends::ends_of;
use members::{Group, bounded, members, script_of};
use pace::{FreePace, SpinPace, Sums, TimedPace};
use run::{in_threads, simulated};
use std::alloc::{AllocError, Global};
use std::io;
use std::process::ExitCode;
use std::thread::Threads;
use std::time::Clock;
use task::{Mode, Task, task_of};

/// How a group is told, behind the program's name.
pub const USAGE: &str =
    "groups lockstep|seeded MESSAGES [SENDERS [SUSPECTED [TURNS [MEMBERS [FROM [LATE]]]]]], \
    or groups MEMBERS MESSAGES SIZE sim|free|spin|yield [times]";

/// Runs the group that these words tell, and prints what came of it, or how such a group is told.
pub fn groups<R: Threads + Clock + Sync>(
    rt: &HostRuntime,
    threads: &R,
    words: &[String],
) -> io::Result<ExitCode> {
    match task_of(words) {
        Some(Task::Scheduled(group)) => by_schedule(rt, group),
        Some(Task::Threads(group, mode, has_times)) => {
            let script = script_of(rt.alloc(), bounded(group))?;
            let (age, sums) = ended(threads, rt.alloc(), mode, has_times, &script)?;
            print_ends(rt, &age, sums)
        }
        None => {
            println!(rt; "usage: dr_bench {USAGE}")?;
            Ok(ExitCode::from(2))
        }
    }
}

/// Runs a group by its schedule, and prints what came of it.
fn by_schedule(rt: &HostRuntime, group: Group) -> io::Result<ExitCode> {
    let name = match group.schedule {
        Schedule::Lockstep => "lockstep",
        Schedule::Seed(_) => "seeded",
    };
    let tally = members(rt.alloc(), group)?;
    let count = tally.count;
    let checksum = tally.checksum;
    println!(rt; "{name}: {count} checksum: {checksum:016x}")?;
    Ok(ExitCode::SUCCESS)
}

/// Prints how an age in threads ended, and the times that are to be told.
fn print_ends(rt: &HostRuntime, age: &AgeEnd, sums: Option<Sums>) -> io::Result<ExitCode> {
    let ends = ends_of(age);
    let (done, agreed, entries) = (ends.done, ends.agreed, ends.entries);
    println!(rt;
        "done {done} agreed {agreed} entries {entries} checksum {:016x}",
        ends.checksum
    )?;
    if let Some(sums) = sums {
        let (turns, least) = (sums.turns, sums.least);
        let (turning, backing_off) = (sums.turning, sums.backing_off);
        println!(rt; "turns {turns} turning {turning} least {least} backing-off {backing_off}")?;
    }
    Ok(ExitCode::SUCCESS)
}

/// How the age of a script ended in this mode, with the times that are to be told.
fn ended<R: Threads + Clock + Sync>(
    rt: &R,
    alloc: Global,
    mode: Mode,
    has_times: bool,
    script: &Script,
) -> Result<(AgeEnd, Option<Sums>), AllocError>
    requires ranges { HasRanges script.now }
{
    match (mode, has_times) {
        (Mode::Sim, _) => Ok((simulated(alloc, script)?, None)),
        (Mode::Free, false) => Ok((in_threads(rt, alloc, script, &FreePace)?, None)),
        (Mode::Spin, false) => Ok((in_threads(rt, alloc, script, &SpinPace)?, None)),
        (Mode::Yield, false) => Ok((in_threads(rt, alloc, script, &SnoozePace)?, None)),
        (Mode::Free, true) => timed(rt, alloc, script, FreePace),
        (Mode::Spin, true) => timed(rt, alloc, script, SpinPace),
        (Mode::Yield, true) => timed(rt, alloc, script, SnoozePace),
    }
}

/// How it ended in threads at this pace, with the times of their turns.
fn timed<R: Threads + Clock + Sync, P: Pace + Sync + Drop>(
    rt: &R,
    alloc: Global,
    script: &Script,
    pace: P,
) -> Result<(AgeEnd, Option<Sums>), AllocError>
    requires ranges { HasRanges script.now }
{
    let pace = TimedPace::new(alloc, rt, pace)?;
    let age = in_threads(rt, alloc, script, &pace)?;
    Ok((age, Some(pace.sums())))
}
