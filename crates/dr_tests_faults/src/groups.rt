//! Ages over disks that want groups.
ghost use Rattle.std.specs.Prelude.{◌≡◌, ◌<◌, IfOk, []};
ghost use Rattle.dr_fresh.specs.{Fresh.IsFresh, declared.logs.TheConstants.LOG_LIMIT};

use dr_disk::{CalmDisk, Disk, MemoryDisk};
use dr_entry::{AgeEnd, End};
use dr_fresh::{LOG_LIMIT, fresh_log};
use dr_io::Failed;
use dr_log::Log;
use dr_restart::{Start, first_start};
use dr_script::read_script;
use dr_sim::sim_age;
use std::alloc::{AllocError, Global};
use std::process::Abort;
use std::test::Fail;

/// Two members, which send three messages and two. As member 0 first appends, it has all five due.
const FIVE: &[u8] = br#"{"members":2,"window":3,"turns":40,"patience":0,"ages":1,
    "messages":[["a","b","c"],["d","e"]],"faults":[],"schedule":"lockstep"}"#;

/// The first call of the disk in the age: making the log takes seven calls, and its View 0 four.
const FIRST_CALL: u64 = 12;

/// The write of the gate before the group: the writes of its five entries, and a sync, come first.
const GATE_CALL: u64 = 18;

/// The sync behind that.
const LAST_CALL: u64 = 19;

/// A disk in memory that wants groups.
#[derive(Drop)]
struct GroupedDisk {
    disk: MemoryDisk,
}

impl Disk for GroupedDisk {
    ghost use Rattle.std.specs.Prelude.{Some, true};
    ghost use Rattle.dr_disk.specs.Disk.{Calls};

    ghost told = { λ grouped. Some (Calls grouped.disk.calls) };

    ghost room_calls = { λ grouped. grouped.disk.room_calls };

    ghost room_bytes = { λ grouped. grouped.disk.room_bytes };

    ghost faults = { λ grouped. grouped.disk.plan.faults };

    ghost groups = { λ _. true };

    fn wants_groups(&self) -> bool {
        true
    }

    fn reserve(&mut self, calls: u64, bytes: u64) -> Result<(), AllocError> {
        self.disk.reserve(calls, bytes)
    }

    fn len(&mut self) -> Result<u64, Failed> {
        self.disk.len()
    }

    fn read_at(&mut self, at: u64, into: &mut [u8]) -> Result<usize, Failed> {
        self.disk.read_at(at, into)
    }

    fn write_at(&mut self, at: u64, from: &[u8]) -> Result<(), Failed> {
        self.disk.write_at(at, from)
    }

    fn cut(&mut self, to: u64) -> Result<(), Failed> {
        self.disk.cut(to)
    }

    fn sync(&mut self) -> Result<(), Failed> {
        self.disk.sync()
    }
}

/// One whose calls of these numbers fail.
fn grouped(alloc: Global, fails: &[u64]) -> Result<GroupedDisk, AllocError> {
    Ok(GroupedDisk {
        disk: MemoryDisk::new(alloc, fails, None)?,
    })
}

/// The age of both members over these disks, and their logs behind it.
fn age_over<D: Disk>(
    alloc: Global,
    zero: D,
    one: D,
) -> Result<(AgeEnd, [Option<Log<D>>; 2]), Fail> {
    let script = read_script(alloc, FIVE)?;
    if script.members != 2 {
        return Err("there are two members")?;
    }
    let start = first_start(alloc, &script);
    let mut logs = [
        Some(log_on(alloc, zero, &start)?),
        Some(log_on(alloc, one, &start)?),
    ];
    let age = sim_age(alloc, &script, &start, 0, &mut logs)?;
    Ok((age, logs))
}

/// A fresh log on a disk.
fn log_on<D: Disk>(alloc: Global, disk: D, start: &Start) -> Result<Log<D>, Fail>
    requires { 0 < start.now.members }
    ensures { IfOk result (IsFresh start.now LOG_LIMIT) }
{
    fresh_log(alloc, disk, LOG_LIMIT, start).map_err(|_| Fail::from("there is no fresh log"))
}

/// How many entries are found on the log's disk behind a crash that leaves this byte wherever it may.
fn entries_found(alloc: Global, log: Log<GroupedDisk>, fill: u8) -> Result<usize, Fail> {
    let left = log.unmount().disk.crashed(alloc, fill)?;
    match Log::mount(alloc, left, LOG_LIMIT) {
        Ok(log) => Ok(log.entries().len()),
        Err(_) => Err(Fail::from("what a crash left is no log")),
    }
}

/// Over disks that want groups an age ends as over others, and leaves the same bytes.
#[test]
fn groups_leave_what_single_records_do(rt: HostRuntime) -> Result<(), Fail> {
    let alloc = rt.alloc();
    let (age, logs) = age_over(alloc, grouped(alloc, &[])?, grouped(alloc, &[])?)?;
    let (calm_age, calm_logs) = age_over(alloc, CalmDisk::new(alloc), CalmDisk::new(alloc))?;
    assert!(rt; age == calm_age);
    for (log, calm_log) in logs.iter().zip(&calm_logs) {
        let (Some(log), Some(calm_log)) = (log, calm_log) else {
            return Err("there are two members")?;
        };
        assert!(rt; log.disk().disk.bytes() == calm_log.disk().bytes());
    }
    Ok(())
}

/// A fault at any call of the group ends its member, with none of the entries on its log, or all of them: these where
/// the byte that the write of the gate left is that of an open one.
#[test]
fn a_fault_amid_a_group_leaves_none_or_all(rt: HostRuntime) -> Result<(), Fail> {
    let alloc = rt.alloc();
    for call in FIRST_CALL..=LAST_CALL {
        for fill in [0, 1] {
            let (age, mut logs) = age_over(alloc, grouped(alloc, &[call])?, grouped(alloc, &[])?)?;
            shows_fault(&rt, &age)?;
            let Some(zero) = logs[0].take() else {
                return Err("there are two members")?;
            };
            let found = entries_found(alloc, zero, fill)?;
            let wanted = if call >= GATE_CALL && fill == 1 { 6 } else { 1 };
            assert!(rt; found == wanted, "{found} behind call {call}");
        }
    }
    let (age, _) = age_over(
        alloc,
        grouped(alloc, &[LAST_CALL + 1])?,
        grouped(alloc, &[])?,
    )?;
    for member in age.members.as_slice() {
        assert!(rt; member.end == End::Done && member.logged == 6);
    }
    Ok(())
}

/// Shows how an age ended in which the group of member 0 failed: none of it counts as logged, and member 1 waited.
fn shows_fault(rt: &impl Abort, age: &AgeEnd) -> Result<(), Fail> {
    let [zero, one] = age.members.as_slice() else {
        return Err("there are two members")?;
    };
    assert!(rt; zero.end == End::DiskFault && zero.history.as_slice().len() == 6);
    assert!(rt; zero.logged == 1 && zero.durable == 1);
    assert!(rt; one.end == End::Spent { turns: 40 });
    Ok(())
}
