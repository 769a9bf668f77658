//! Ages in which the log of a member stops it.
ghost use Rattle.std.specs.Prelude.{◌<◌, IfOk};
ghost use Rattle.dr_fresh.specs.Fresh.{IsFresh};

use dr_disk::MemoryDisk;
use dr_entry::{AgeEnd, End};
use dr_fresh::{FreshWhy, LOG_LIMIT, fresh_log};
use dr_log::Log;
use dr_restart::{Start, first_start};
use dr_script::read_script;
use dr_sim::sim_age;
use std::alloc::Global;
use std::process::Abort;
use std::test::Fail;

/// Two members with one message each.
const TWO: &[u8] = br#"{"members":2,"window":1,"turns":4,"patience":0,"ages":1,
    "messages":[["a"],["b"]],"faults":[],"schedule":"lockstep"}"#;

/// The first call of the disk in the age: making the log takes seven calls, and its View 0 four.
const FIRST_CALL: u64 = 12;

/// View 0 of two members takes a log to 16 bytes, and the message `a` takes 9 more.
const TOO_LOW: u64 = 24;

/// The age of the two members, of whom member 0 has this log.
fn ended(
    alloc: Global,
    fails: &[u64],
    limit: u64,
) -> Result<(AgeEnd, [Option<Log<MemoryDisk>>; 2]), Fail> {
    let script = read_script(alloc, TWO)?;
    if script.members != 2 {
        return Err("there are two members")?;
    }
    let start = first_start(alloc, &script);
    let mut logs = [
        Some(log_on(alloc, fails, limit, &start)?),
        Some(log_on(alloc, &[], LOG_LIMIT, &start)?),
    ];
    let age = sim_age(alloc, &script, &start, 0, &mut logs)?;
    Ok((age, logs))
}

/// A fresh log on a disk on which these calls fail.
fn log_on(alloc: Global, fails: &[u64], limit: u64, start: &Start) -> Result<Log<MemoryDisk>, Fail>
    requires { 0 < start.now.members }
    ensures { IfOk result (IsFresh start.now limit) }
{
    let disk = MemoryDisk::new(alloc, fails, None)?;
    fresh_log(alloc, disk, limit, start).map_err(|_| Fail::from("there is no fresh log"))
}

/// Shows how an age came out in which member 0 could not append its first message: it ended so, and
/// member 1 waited for it, with its own log whole. Answers the log of member 0.
fn shows_stop<'l>(
    rt: &impl Abort,
    age: &AgeEnd,
    end: End,
    logs: &'l [Option<Log<MemoryDisk>>],
) -> Result<&'l Log<MemoryDisk>, Fail> {
    let ([zero, one], [Some(zero_log), Some(one_log)]) = (age.members.as_slice(), logs) else {
        return Err("there are two members")?;
    };
    assert!(rt; zero.end == end && zero.history.as_slice().len() == 3);
    assert!(rt; zero.logged == 1 && zero.durable == 1 && zero_log.entries().len() == 1);
    assert!(rt; one.end == End::Spent { turns: 4 } && one.history.as_slice().len() == 2);
    assert!(rt; one.logged == 2 && one.durable == 1);
    assert!(rt; one_log.entries().len() == 2 && !one_log.failed());
    Ok(zero_log)
}

#[test]
fn a_member_ends_at_a_fault_of_its_disk(rt: HostRuntime) -> Result<(), Fail> {
    let (age, logs) = ended(rt.alloc(), &[FIRST_CALL], LOG_LIMIT)?;
    let log = shows_stop(&rt, &age, End::DiskFault, &logs)?;
    assert!(rt; log.failed());
    Ok(())
}

#[test]
fn a_member_ends_at_its_full_log(rt: HostRuntime) -> Result<(), Fail> {
    let (age, logs) = ended(rt.alloc(), &[], TOO_LOW)?;
    let log = shows_stop(&rt, &age, End::LogFull { len: 16 }, &logs)?;
    assert!(rt; !log.failed() && log.len() == 16);
    Ok(())
}

/// A log has room for its View 0 from 16 bytes on.
#[test]
fn a_fresh_log_wants_16_bytes(rt: HostRuntime) -> Result<(), Fail> {
    let alloc = rt.alloc();
    let script = read_script(alloc, TWO)?;
    if script.members != 2 {
        return Err("there are two members")?;
    }
    let start = first_start(alloc, &script);
    let disk = MemoryDisk::new(alloc, &[], None)?;
    let Err(low) = fresh_log(alloc, disk, 15, &start) else {
        return Err(Fail::from("fifteen bytes were enough"));
    };
    assert!(rt; low.why == FreshWhy::LogFull);
    let Ok(log) = fresh_log(alloc, low.disk, 16, &start) else {
        return Err(Fail::from("sixteen bytes were too few"));
    };
    let Err(used) = fresh_log(alloc, log.unmount(), 16, &start) else {
        return Err(Fail::from("a log was made fresh again"));
    };
    assert!(rt; used.why == FreshWhy::Used);
    Ok(())
}
