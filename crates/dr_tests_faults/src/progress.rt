//! When something is said of a run, and what.
use dr_io::MemorySink;
use dr_outcome::{Part, are_all_late};
use dr_progress::{Progress, SteppedTimer, watch_next_with_progress, watch_with_progress};
use dr_script::read_script;
use dr_sim::Unwatched;
use std::alloc::Global;
use std::fmt::Write;
use std::process::Abort;
use std::test::Fail;
use std::thread::Threads;

/// A script whose members 1 and 2 wait for the first one, which has crashed, until their turns are spent.
const STUCK: &[u8] =
    br#"{"members":3,"window":1,"turns":1000,"patience":0,"ages":1,"messages":[[],["a"],[]],
  "faults":[{"age":0,"member":0,"crash":[1,0]}],"schedule":"lockstep"}"#;

/// Blanks the line that stands on a terminal.
const BLANK: &str = "\r                                                           \r";

/// The turns in which a run is looked at behind the first look, where a line is due at every other one.
const TURNS: [u32; 15] = [
    63, 127, 191, 255, 319, 383, 447, 511, 575, 639, 703, 767, 831, 895, 959,
];

/// Checks in which turns something is said of the run, where each reading of the timer is so much later than
/// the one before, up to the first that fails, and that no line is left behind it.
fn check<R: Threads + Sync + Abort>(
    rt: &R,
    alloc: Global,
    is_terminal: bool,
    step: u64,
    readings: u64,
    turns: &[u32],
) -> Result<(), Fail> {
    let script = read_script(alloc, STUCK)?;
    let sink = MemorySink::new(alloc, 4096, &[])?;
    let timer = SteppedTimer::new(step, readings);
    let mut progress = Progress::new(alloc, timer, sink, is_terminal);
    let part = Part::everybody();
    if !are_all_late(&script, &part) {
        watch_with_progress(rt, alloc, &script, &part, &mut Unwatched, &mut progress);
    }
    let mut wanted = String::new(alloc);
    for turn in turns {
        write!(wanted, "{BLANK}age 0, turn {turn} of at most 1000")?;
    }
    if !turns.is_empty() {
        wanted.push_str(BLANK)?;
    }
    assert_eq!(rt; progress.into_sink().bytes(), wanted.as_bytes());
    Ok(())
}

#[test]
fn says_nothing_before_two_seconds(rt: HostRuntime) -> Result<(), Fail> {
    check(&rt, rt.alloc(), true, 1, 100, &[])
}

#[test]
fn says_nothing_where_there_is_no_terminal(rt: HostRuntime) -> Result<(), Fail> {
    check(&rt, rt.alloc(), false, 1000, 100, &[])
}

#[test]
fn says_a_line_each_second(rt: HostRuntime) -> Result<(), Fail> {
    check(&rt, rt.alloc(), true, 700, 100, &TURNS)
}

#[test]
fn says_nothing_more_once_the_timer_fails(rt: HostRuntime) -> Result<(), Fail> {
    check(&rt, rt.alloc(), true, 700, 4, &[63])
}

/// How far three runs are, where there are two, and then nobody knows how many more come: a line is due at every other
/// look, of which a run has 32.
#[test]
fn says_which_of_several_runs_it_is(rt: HostRuntime) -> Result<(), Fail> {
    let alloc = rt.alloc();
    let script = read_script(alloc, STUCK)?;
    let sink = MemorySink::new(alloc, 8192, &[])?;
    let mut progress = Progress::new(alloc, SteppedTimer::new(700, 1000), sink, true);
    let part = Part::everybody();
    let mut wanted = String::new(alloc);
    progress.begin();
    for (run, runs, name) in [(1, 2, "run 1 of 2"), (2, 2, "run 2 of 2"), (1, 0, "run 1")] {
        if run == 1 {
            progress.count(runs);
        }
        if !are_all_late(&script, &part) {
            watch_next_with_progress(&rt, alloc, &script, &part, &mut Unwatched, &mut progress);
        }
        if name != "run 1 of 2" {
            wanted.push_str(BLANK)?;
            wanted.push_str(name)?;
            wanted.push_str(", age 0, turn 0")?;
        }
        for turn in TURNS {
            wanted.push_str(BLANK)?;
            wanted.push_str(name)?;
            write!(wanted, ", age 0, turn {turn}")?;
        }
    }
    progress.end();
    wanted.push_str(BLANK)?;
    assert_eq!(rt; progress.into_sink().bytes(), wanted.as_bytes());
    Ok(())
}
