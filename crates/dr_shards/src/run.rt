ghost use Rattle.std.specs.Prelude.{◌≡◌, ◌≢◌, [], All, IfOk};
ghost use Rattle.dr_script.specs.{Ranges.HasRanges, declared.script.Script.Script as ScriptOf};
ghost use Rattle.dr_shards.specs.Shards.{AreShardAges, IsShardAge};

use dr_entry::AgeEnd;
use dr_fresh::logs_of;
use dr_pace::Pace;
use dr_restart::first_start;
use dr_script::Script;
use dr_sim::sim_age;
use dr_threads::run_script_age;
use std::alloc::{AllocError, Global};
use std::thread::Threads;

/// How the members of shards run.
#[derive(Clone, Copy, Debug, PartialEq, Eq)]
pub enum ShardMode {
    /// One after the other, by the schedule of the script.
    Sim,
    /// Each in a thread of its own.
    Run,
}

/// Runs these groups, one after the other, each over fresh logs in memory, and answers how the age of each
/// ended. Threads call the pace after each turn of a member, a simulation never.
///
/// # Errors
///
/// Want of memory alone.
pub fn run_shards<R: Threads + Sync, P: Pace + Sync>(
    rt: &R,
    alloc: Global,
    scripts: &[Script],
    mode: ShardMode,
    pace: &P,
) -> Result<Vec<AgeEnd>, AllocError>
    requires some { scripts.now ≢ [] }
    requires ranges { All (λ (s : ScriptOf). HasRanges s × (s.ages ≡ 1)) scripts.now }
    ensures { IfOk result (λ ages. AreShardAges mode scripts.now ages.items) }
{
    let mut ages = Vec::with_capacity(alloc, scripts.len())?;
    for script in scripts {
        ages.push(run_shard(rt, alloc, script, mode, pace)?)?;
    }
    Ok(ages)
}

/// Runs one of them.
fn run_shard<R: Threads + Sync, P: Pace + Sync>(
    rt: &R,
    alloc: Global,
    script: &Script,
    mode: ShardMode,
    pace: &P,
) -> Result<AgeEnd, AllocError>
    requires ranges { HasRanges script.now }
    ensures { IfOk result (IsShardAge mode script.now) }
{
    let start = first_start(alloc, script);
    let mut logs = logs_of(alloc, script, &start)?;
    match mode {
        ShardMode::Sim => sim_age(alloc, script, &start, 0, &mut logs),
        ShardMode::Run => match run_script_age(rt, alloc, script, &start, 0, logs, pace) {
            Ok((age, _)) => Ok(age),
            Err((_, fault)) => Err(fault),
        },
    }
}
