//! The runs of a script's first age, over logs in memory.
ghost use Rattle.dr_script.specs.Ranges.{HasRanges};

use dr_entry::AgeEnd;
use dr_fresh::logs_of;
use dr_pace::Pace;
use dr_restart::first_start;
use dr_script::Script;
use dr_sim::sim_age;
use dr_threads::run_script_age;
use std::alloc::{AllocError, Global};
use std::thread::Threads;

/// How it ends by the script's schedule.
pub fn simulated(alloc: Global, script: &Script) -> Result<AgeEnd, AllocError>
    requires ranges { HasRanges script.now }
{
    let start = first_start(alloc, script);
    let mut logs = logs_of(alloc, script, &start)?;
    sim_age(alloc, script, &start, 0, logs.as_mut_slice())
}

/// How it ends in threads.
pub fn in_threads<R: Threads + Sync, P: Pace + Sync>(
    rt: &R,
    alloc: Global,
    script: &Script,
    pace: &P,
) -> Result<AgeEnd, AllocError>
    requires ranges { HasRanges script.now }
{
    let start = first_start(alloc, script);
    let logs = logs_of(alloc, script, &start)?;
    match run_script_age(rt, alloc, script, &start, 0, logs, pace) {
        Ok((age, _)) => Ok(age),
        Err((_, error)) => Err(error),
    }
}
