//! An age in threads, from its opening to the ends of all members.
ghost use Rattle.std.specs.Prelude.{IfErr, IfOk, Option};
ghost use Rattle.dr_machine.specs.Group.{IsGroup};
ghost use Rattle.dr_restart.specs.Groups.{group_of};
ghost use Rattle.dr_script.specs.Ranges.{HasRanges};
ghost use Rattle.dr_play.specs.{Age.IsAgeOn, Logged.AreOpened, Run.IsRun};
ghost use Rattle.dr_threads.specs.Logs.{AreLonger};

use crate::age::run_age;
use dr_disk::Disk;
use dr_entry::{AgeEnd, Seq};
use dr_log::Log;
use dr_pace::Pace;
use dr_play::{begun_members, ends_of};
use dr_restart::{Start, copy_entries};
use dr_script::Script;
use dr_table::{close, deal};
use std::alloc::{AllocError, Global};
use std::thread::Threads;

/// Runs the group of a script through one age, each member in a thread, and answers how it ended.
/// `nth` is the number of the age in the run, from 0: it says which of the faults are those of this
/// age. Each member that is there appends to the log of its number; one whose append fails ends with that. The
/// place of a log is empty where its member is absent, and such a member takes no part.
///
/// # Errors
///
/// Want of memory alone. Each log has what it had then, and maybe more.
pub fn run_script_age<R: Threads + Sync, D: Disk, P: Pace + Sync>(
    rt: &R,
    alloc: Global,
    script: &Script,
    start: &Start,
    nth: u8,
    logs: Vec<Option<Log<D>>>,
    pace: &P,
) -> Result<(AgeEnd, Vec<Option<Log<D>>>), (Vec<Option<Log<D>>>, AllocError)>
    requires ranges { HasRanges script.now }
    requires group { IsGroup (group_of script.now start.now) }
    requires logs { AreOpened (group_of script.now start.now) logs.items }
    ensures age { IfOk result (λ r. IsAgeOn IsRun D.told D.faults script.now start.now nth
        logs.items r.1.items r.0) }
    ensures logs { IfErr result (λ r. AreLonger D.told D.faults logs.items r.0.items) }
{
    let Ok(entries) = copy_entries(alloc, &start.entries) else {
        return Err((logs, AllocError));
    };
    let Ok(ends) = Vec::with_capacity(alloc, usize::from(script.members)) else {
        return Err((logs, AllocError));
    };
    let Ok(members) = begun_members(alloc, script, start, nth) else {
        return Err((logs, AllocError));
    };
    let Ok((board, hand)) = deal(alloc, members) else {
        return Err((logs, AllocError));
    };
    let (hand, logs) = run_age(rt, alloc, &board, hand, logs, pace)?;
    let members = close(board, hand);
    let age = AgeEnd {
        age: start.age,
        start: entries,
        members: Seq::of(ends_of(alloc, members, ends)),
    };
    Ok((age, logs))
}
