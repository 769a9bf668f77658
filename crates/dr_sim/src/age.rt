//! An age, from its opening to the ends of all members.
ghost use Rattle.std.specs.Prelude.{◌≡◌, ◌≤◌, IfOk, OnErr, List, [], length, vec_capacity, Option};
ghost use Rattle.dr_machine.specs.Group.{Group, IsGroup};
ghost use Rattle.dr_program.specs.Program.{Program, age_of};
ghost use Rattle.dr_restart.specs.Groups.{group_of};
ghost use Rattle.dr_script.specs.Ranges.{HasRanges};
ghost use Rattle.dr_log.specs.State.{LogState};
ghost use Rattle.dr_served.specs.Served.{AreReady, HaveSamePlaces, HaveServed};
ghost use Rattle.dr_play.specs.{Age.IsAgeOn, Logged.{AreAsBefore, AreCalm, AreOpened}, Sound.IsSound};
ghost use Rattle.dr_sim.specs.{Simulated.{HasRun, IsSimulated}, Watched.{IsWatched, WasTold}};

use crate::simulation::Simulation;
use crate::watcher::{Unwatched, Watcher};
use dr_disk::Disk;
use dr_entry::{AgeEnd, Entry, MemberEnd, Seq};
use dr_log::Log;
use dr_play::ends_of;
use dr_restart::{Start, copy_entries};
use dr_script::{Schedule, Script};
use std::alloc::{AllocError, Global};

/// Runs the group of a script through one age, by the script's schedule, and answers how it ended.
/// `nth` is the number of the age in the run, from 0: it says which of the faults are those of this
/// age. Each member that is there appends to the log of its number; one whose append fails ends with that. The
/// place of a log is empty where its member is absent, and such a member takes no part.
///
/// # Errors
///
/// Want of memory alone, before the first deed.
pub fn sim_age<D: Disk>(
    alloc: Global,
    script: &Script,
    start: &Start,
    nth: u8,
    logs: &mut [Option<Log<D>>],
) -> Result<AgeEnd, AllocError>
    requires ranges { HasRanges script.now }
    requires group { IsGroup (group_of script.now start.now) }
    requires logs { AreOpened (group_of script.now start.now) logs.old }
    ensures age { IfOk result (IsAgeOn IsSimulated D.told D.faults script.now start.now nth logs.old logs.new) }
    ensures kept { OnErr result (AreAsBefore logs.old logs.new) }
    ensures calm { OnErr result (AreCalm D.told D.faults logs.old logs.new) }
    ensures places { HaveSamePlaces logs.old logs.new }
{
    watch_age(alloc, script, start, nth, logs, &mut Unwatched)
}

/// Runs the group of a script through one age, as [`sim_age`] does, before a watcher. It is told that the
/// age opens, of each deed right before it is done, and how all stand at the end.
///
/// # Errors
///
/// Want of memory alone, before the watcher is told anything.
pub fn watch_age<D: Disk, W: Watcher>(
    alloc: Global,
    script: &Script,
    start: &Start,
    nth: u8,
    logs: &mut [Option<Log<D>>],
    watcher: &mut W,
) -> Result<AgeEnd, AllocError>
    requires ranges { HasRanges script.now }
    requires group { IsGroup (group_of script.now start.now) }
    requires logs { AreOpened (group_of script.now start.now) logs.old }
    ensures age { IfOk result (IsAgeOn IsSimulated D.told D.faults script.now start.now nth logs.old logs.new) }
    ensures kept { OnErr result (AreAsBefore logs.old logs.new) }
    ensures calm { OnErr result (AreCalm D.told D.faults logs.old logs.new) }
    ensures places { HaveSamePlaces logs.old logs.new }
    ensures watched { IfOk result (IsWatched W.opens W.sees W.closes script.now start.now nth
        watcher.old watcher.new) }
    ensures untold { OnErr result (watcher.new ≡ watcher.old) }
{
    let entries = copy_entries(alloc, &start.entries)?;
    let ends = Vec::with_capacity(alloc, usize::from(script.members))?;
    let simulation = Simulation::begin(alloc, script, start, nth)?;
    simulation.make_room(logs)?;
    Ok(run(
        alloc, simulation, script, start, entries, ends, logs, watcher,
    ))
}

/// Runs the members by the script's schedule, and tells how their age ended, by its entries and with
/// room for its ends.
fn run<D: Disk, W: Watcher>(
    alloc: Global,
    mut simulation: Simulation,
    script: &Script,
    start: &Start,
    entries: Seq<Entry>,
    ends: Vec<MemberEnd>,
    logs: &mut [Option<Log<D>>],
    watcher: &mut W,
) -> AgeEnd
    ghost group: { Group }
    requires sound { IsSound group simulation }
    requires entries { entries ≡ start.now.entries }
    requires none { ends.items ≡ [] }
    requires room { length simulation.members ≤ vec_capacity ends }
    requires ready { AreReady logs.old simulation.members }
    ensures { (p : Program) × (run : HasRun script.now.schedule simulation p) × IsSound group p
        × (result ≡ age_of (group_of script.now start.now).opening p)
        × ((bases : List (Option (LogState D))) → HaveServed D.told D.faults bases logs.old simulation.members
        → HaveServed D.told D.faults bases logs.new p.members)
        × HaveSamePlaces logs.old logs.new
        × (opened ended : W) × W.opens watcher.old start.now opened
        × WasTold W.sees simulation run.moves opened ended
        × W.closes ended p.members p.table watcher.new }
{
    watcher.open(start);
    match script.schedule {
        Schedule::Lockstep => simulation.run_lockstep(logs, watcher),
        Schedule::Seed(seed) => simulation.run_seeded(seed, logs, watcher),
    }
    simulation.tell_end(watcher);
    AgeEnd {
        age: start.age,
        start: entries,
        members: Seq::of(ends_of(alloc, simulation.into_members(), ends)),
    }
}
