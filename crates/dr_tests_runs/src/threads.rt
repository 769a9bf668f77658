//! This part runs each script that it reads, a script a line, live, in as many rounds as its word
//! asks for. It prints the report of the ages, and behind the last line of that what `derecho live` says of
//! them before its last line. At the line `moments` it runs apps that push at different moments, in three rounds,
//! and prints in which ages their messages are. A script behind the word `shards` is laid out in one shard,
//! whose members run in threads that wait for one another after each turn; behind what is said of it stands
//! whether they met.
//!
//! How messages fall into rounds is up to the threads. So the gate runs it in no round, where all of them are in
//! the one last age, and `tools/live-runs` judges what it prints of others.
mod moments;

use anyhow::anyhow;
use dr_commands::{rounds_of, run_lived, run_sharded, sharding_of};
use dr_intake::words_of;
use dr_io::OutputSink;
use dr_outcome::{Body, Outcome};
use dr_pace::{MeetPace, SnoozePace};
use dr_script::read_script;
use dr_text::Report;
use std::alloc::Global;
use std::thread::Threads;

/// How often a thread looks at most whether the others have come.
const LOOKS: u64 = 100_000_000;

/// Prints what becomes of these lines.
pub(crate) fn show(
    rt: &HostRuntime,
    threads: &(impl Threads + Sync),
    lines: &str,
) -> anyhow::Result<()> {
    let alloc = rt.alloc();
    let words = words_of(rt, alloc)?;
    let Some(rounds) = rounds_of(&words) else {
        return Err(anyhow!("usage: dr_tests_runs ROUNDS < SCRIPTS"));
    };
    for line in lines.lines() {
        if line == "moments" {
            print!(rt; "{}", moments::told_of_moments(threads, alloc)?)?;
        } else if let Some(script) = line.strip_prefix("shards ") {
            let (outcome, has_met) = run_one_shard(threads, alloc, script)?;
            tell(rt, alloc, outcome)?;
            println!(rt; "met: {has_met}")?;
        } else {
            let outcome = run_lived(threads, alloc, line.as_bytes(), &rounds, &SnoozePace);
            tell(rt, alloc, outcome)?;
        }
    }
    Ok(())
}

/// What comes of a script in one shard, whose threads wait for one another, and whether they met.
fn run_one_shard(
    rt: &(impl Threads + Sync),
    alloc: Global,
    script: &str,
) -> anyhow::Result<(Outcome, bool)> {
    let words = vec![in alloc;
        String::from_str(alloc, "1")?,
        String::from_str(alloc, "run")?,
    ]?;
    let Some(sharding) = sharding_of(&words) else {
        return Err(anyhow!("these words ask for no shards"));
    };
    let Ok(group) = read_script(alloc, script.as_bytes()) else {
        return Err(anyhow!("this is no script"));
    };
    let pace = MeetPace::new(alloc, group.members, LOOKS)?;
    let outcome = run_sharded(rt, alloc, script.as_bytes(), &sharding, &pace);
    let has_met = pace.missed() == 0 && pace.met() >= u32::from(group.members);
    Ok((outcome, has_met))
}

/// Prints what came of a script.
fn tell(rt: &HostRuntime, alloc: Global, outcome: Outcome) -> anyhow::Result<()> {
    let Outcome {
        ages,
        body,
        last,
        ..
    } = outcome;
    let Some(last) = last else {
        return Err(anyhow!("memory was wanting"));
    };
    let mut sink = OutputSink::new(rt.stdout());
    Report::of(alloc, ages.as_slice(), &last)?.write_to(&mut sink)?;
    if let Body::Text(text) = body {
        text.write_with("", &mut sink)?;
    }
    Ok(())
}
