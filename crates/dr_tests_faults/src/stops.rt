//! Stops: the disk of a member stops after so many calls, and then all disks crash.
use crate::runs::{MEMBERS, Ran, disks_with, has_failed, run};
use dr_disk::MemoryDisk;
use dr_entry::{AgeEnd, Entry};
use dr_text::Last;
use std::alloc::Global;
use std::process::Abort;
use std::test::Fail;
use std::thread::Threads;

/// The disks behind a crash that leaves this byte wherever it may.
fn crashed(alloc: Global, disks: Vec<MemoryDisk>, fill: u8) -> Result<Vec<MemoryDisk>, Fail> {
    let mut left = Vec::new(alloc);
    for disk in disks {
        left.push(disk.crashed(alloc, fill)?)?;
    }
    Ok(left)
}

/// Whether a start begins with so many entries of a history.
fn begins_with(start: &[Entry], history: &[Entry], count: u64) -> bool {
    let count = count as usize;
    count <= start.len() && count <= history.len() && start[..count] == history[..count]
}

/// Whether the first age of a run begins with all that a member of the last age of another called durable.
fn keeps_durable(first: Option<&AgeEnd>, last: Option<&AgeEnd>) -> bool {
    let Some(last) = last else {
        return true;
    };
    let Some(first) = first else {
        return false;
    };
    let start = first.start.as_slice();
    for member in last.members.as_slice() {
        if !begins_with(start, member.history.as_slice(), member.durable) {
            return false;
        }
    }
    true
}

/// Runs the script over disks of which one stops, lets all crash, and runs it again: the second run comes to
/// its end, and begins with all that was durable. Answers whether the first one met a stop.
fn is_outlived(
    rt: &(impl Threads + Sync + Abort),
    alloc: Global,
    member: u8,
    stop: u64,
    fill: u8,
) -> Result<bool, Fail> {
    let Ran { outcome, disks } = run(rt, alloc, disks_with(alloc, member, &[], Some(stop))?, &[])?;
    let stopped = has_failed(disks.as_slice(), member);
    let again = run(rt, alloc, crashed(alloc, disks, fill)?, &[])?;
    assert!(rt; matches!(again.outcome.last, Some(Last::Done)));
    assert!(rt; again.outcome.ages.as_slice().len() == 2);
    assert!(rt;
        keeps_durable(
            again.outcome.ages.as_slice().first(),
            outcome.ages.as_slice().last()
        )
    );
    Ok(stopped)
}

/// How many stops of a member's disk a run goes on behind, up to the first that it doesn't meet.
fn stops_outlived(
    rt: &(impl Threads + Sync + Abort),
    alloc: Global,
    member: u8,
    fill: u8,
) -> Result<u64, Fail> {
    for stop in 0..1000 {
        if !is_outlived(rt, alloc, member, stop, fill)? {
            return Ok(stop);
        }
    }
    Err(Fail::from("the calls don't end"))
}

/// Each disk stops after each number of calls, until a run ends without a stop.
#[test]
fn a_run_goes_on_behind_each_stop_and_crash(rt: HostRuntime) -> Result<(), Fail> {
    let alloc = rt.alloc();
    for member in 0..MEMBERS {
        for fill in [0, 1] {
            let stops = stops_outlived(&rt, alloc, member, fill)?;
            assert!(rt; stops > 20, "{stops} stops of member {member}");
        }
    }
    Ok(())
}
