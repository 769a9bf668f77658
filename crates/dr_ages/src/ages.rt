//! Runs ages one after the other.
//!
//! What a crash leaves of a disk once an age has ended stands in the contract of each age. Behind a run that
//! a stop ended it is said by what has not been lost (`PassOn`), since a log may have got all of a start
//! before another one was refused, or the vote for the age alone. An opening may cut entries off that the
//! start lacks, so what is kept is said of what all starts have that were chosen since; votes stay. A log's
//! length as a run begins bounds its votes, and what was cut off it; what an age adds is bounded by start and
//! script, and an opening adds 14 bytes at most besides, for an upgrade, a vote for the age and a cut: so
//! 536,870,912 bytes leave room for all ages of a run.
ghost use Rattle.std.specs.Prelude.{◌≡◌, ◌≢◌, ◌<◌, ℕ, [], Some, IfErr, IfOk, OnErr, false, length};
ghost use Rattle.dr_play.specs.{Age.IsAgeOn, Logged.{AreAsBefore, AreCalm, AreOpened}};
ghost use Rattle.dr_entry.specs.declared.limits.TheConstants.{MAX_MEMBERS};
ghost use Rattle.dr_log.specs.State.{LogState};
ghost use Rattle.dr_served.specs.Served.{HaveSamePlaces};
ghost use Rattle.dr_machine.specs.Group.{IsGroup};
ghost use Rattle.dr_opening.specs.Lists.{contents_of, log_of};
ghost use Rattle.dr_restart.specs.Groups.{group_of};
ghost use Rattle.dr_script.specs.Ranges.{HasRanges};
ghost use Rattle.dr_yard.specs.Yards.{AllTell, YardState, state_by};
ghost use Rattle.dr_ages.specs.{Ages.{HaveSomebodyPrompt, IsAgeOf, IsPlayed, start_of}, Lacking.LackedMemory};
ghost use Rattle.dr_ages.specs.{Lent.{AreAllBut, AreMounted, with_logs}, Opened.{AreLater, HaveGoneOn}, Runs.IsRunOf};
ghost use Rattle.dr_ages.specs.{Stops.{HasKept, HasStopped, IsBehindMounts, NamesFaults}, Tried.AreTried};
ghost use Rattle.dr_ages.specs.{Watched.{AreWatched, HasSeen}, declared.mode.Mode.TheVariants.Sim};
ghost use Rattle.dr_ages.specs.declared.stop.Stop.TheVariants as stops;

use crate::lending::{give_all_back, mount_all};
use crate::mode::Mode;
use crate::part::Part;
use crate::stop::Stop;
use dr_disk::Disk;
use dr_entry::{AgeEnd, Seq};
use dr_log::Log;
use dr_opening::open_age;
use dr_pace::Pace;
use dr_restart::Start;
use dr_script::Script;
use dr_sim::{Unwatched, Watcher, watch_age};
use dr_threads::run_script_age;
use dr_yard::Yard;
use std::alloc::{AllocError, Global};
use std::thread::Threads;

/// How a run ended: the ages that ran to their ends, in order, and why no further one was opened, where the
/// script asks for more.
#[derive(Debug, PartialEq, Eq, Drop)]
pub struct AgesEnd {
    pub ages: Seq<AgeEnd>,
    pub stop: Option<Stop>,
}

/// Runs the ages of a script, one after the other, over the disks of a yard, those in this folder. For each
/// age the logs of all members that take part are mounted, ascending, and a start is chosen of them. Each gets a
/// vote for the age, and is then cut back and brought up to the start; then the members take their deeds, as the
/// mode says, and all disks are given back. The first thing that is in the way of an age ends the run. No disk of
/// the yard is lent, before and behind it, and what no crash would have lost of a log before it none would lose
/// behind it, but for entries that a start lacks. Threads call the pace after each turn of a member, a simulation
/// never.
pub fn run_ages<R: Threads + Sync, Y: Yard, P: Pace + Sync>(
    rt: &R,
    alloc: Global,
    script: &Script,
    part: &Part,
    mode: Mode,
    folder: &str,
    yard: &mut Y,
    pace: &P,
) -> AgesEnd
    requires ranges { HasRanges script.now }
    requires some { HaveSomebodyPrompt script.now part.now }
    requires here { (m : ℕ) → m < MAX_MEMBERS → Y.is_lent yard.old m ≡ false }
    ensures here { (m : ℕ) → m < MAX_MEMBERS → Y.is_lent yard.new m ≡ false }
    // How the disks were, and are, tells which ages ran, and why no further one did.
    ensures run { IsRunOf script.now part.now mode (state_by Y.told Y.faults yard.old)
        (state_by Y.told Y.faults yard.new) result.ages result.stop }
{
    watch_ages(
        rt,
        alloc,
        script,
        part,
        mode,
        folder,
        yard,
        pace,
        &mut Unwatched,
    )
}

/// Runs the ages of a script, as [`run_ages`] does, before a watcher. It is told of each simulated age, in
/// turn, and of nothing that threads do. Of an age that is not opened it is told nothing.
pub fn watch_ages<R: Threads + Sync, Y: Yard, P: Pace + Sync, W: Watcher>(
    rt: &R,
    alloc: Global,
    script: &Script,
    part: &Part,
    mode: Mode,
    folder: &str,
    yard: &mut Y,
    pace: &P,
    watcher: &mut W,
) -> AgesEnd
    requires ranges { HasRanges script.now }
    requires some { HaveSomebodyPrompt script.now part.now }
    requires here { (m : ℕ) → m < MAX_MEMBERS → Y.is_lent yard.old m ≡ false }
    ensures here { (m : ℕ) → m < MAX_MEMBERS → Y.is_lent yard.new m ≡ false }
    ensures run { IsRunOf script.now part.now mode (state_by Y.told Y.faults yard.old)
        (state_by Y.told Y.faults yard.new) result.ages result.stop }
    ensures watched { AreWatched W.opens W.sees W.closes mode script.now part.now 0 result.ages
        watcher.old watcher.new }
{
    let Ok(mut ages) = Vec::with_capacity(alloc, usize::from(script.ages)) else {
        return AgesEnd {
            ages: Seq::of(Vec::new(alloc)),
            stop: Some(Stop::OutOfMemory),
        };
    };
    for nth in 0..script.ages {
        match run_age(
            rt, alloc, script, part, mode, folder, nth, yard, pace, watcher,
        ) {
            Ok(age) => ages.push(age).unwrap(),
            Err(stop) => {
                return AgesEnd {
                    ages: Seq::of(ages),
                    stop: Some(stop),
                };
            }
        }
    }
    AgesEnd {
        ages: Seq::of(ages),
        stop: None,
    }
}

/// Runs one age. `nth` is its number in the run, from 0. Where it doesn't run to its end the watcher is told
/// nothing.
fn run_age<R: Threads + Sync, Y: Yard, P: Pace + Sync, W: Watcher>(
    rt: &R,
    alloc: Global,
    script: &Script,
    part: &Part,
    mode: Mode,
    folder: &str,
    nth: u8,
    yard: &mut Y,
    pace: &P,
    watcher: &mut W,
) -> Result<AgeEnd, Stop>
    requires ranges { HasRanges script.now }
    requires some { HaveSomebodyPrompt script.now part.now }
    requires here { (m : ℕ) → m < MAX_MEMBERS → Y.is_lent yard.old m ≡ false }
    ensures here { (m : ℕ) → m < MAX_MEMBERS → Y.is_lent yard.new m ≡ false }
    ensures age { IfOk result (IsAgeOf script.now part.now mode nth
        (state_by Y.told Y.faults yard.old) (state_by Y.told Y.faults yard.new)) }
    ensures stopped { IfErr result (HasStopped script.now part.now
        (state_by Y.told Y.faults yard.old) (state_by Y.told Y.faults yard.new)) }
    ensures lacked { IfErr result (λ stop. stop ≡ stops.OutOfMemory → LackedMemory script.now part.now mode
        (state_by Y.told Y.faults yard.old) (state_by Y.told Y.faults yard.new)) }
    ensures kept { IfErr result (HasKept script.now part.now.missing (state_by Y.told Y.faults yard.old)
        (state_by Y.told Y.faults yard.new)) }
    ensures tried { IfErr result (λ stop. AllTell script.now.members (state_by Y.told Y.faults yard.old)
        → stop ≢ stops.OutOfMemory → AreTried script.now part.now.missing
        (state_by Y.told Y.faults yard.old) (state_by Y.told Y.faults yard.new)) }
    ensures names { IfErr result (λ stop. NamesFaults stop (state_by Y.told Y.faults yard.old)
        (state_by Y.told Y.faults yard.new)) }
    ensures watched { IfOk result (λ age. HasSeen W.opens W.sees W.closes mode script.now
        (start_of script.now part.now age) nth watcher.old watcher.new age) }
    ensures untold { OnErr result (watcher.new ≡ watcher.old) }
{
    let Ok(mut logs) = Vec::with_capacity(alloc, usize::from(script.members)) else {
        return Err(Stop::OutOfMemory);
    };
    let (ended, logs) = match mount_all(alloc, folder, yard, part, script.members, &mut logs) {
        Ok(()) => run_over(rt, alloc, script, part, mode, nth, logs, pace, watcher),
        Err(stop) => (Err(stop), logs),
    };
    give_all_back(yard, logs);
    ended
}

/// Opens an age over these logs, where there is none for a missing member, and runs it. The logs come back.
fn run_over<R: Threads + Sync, D: Disk, P: Pace + Sync, W: Watcher>(
    rt: &R,
    alloc: Global,
    script: &Script,
    part: &Part,
    mode: Mode,
    nth: u8,
    mut logs: Vec<Option<Log<D>>>,
    pace: &P,
    watcher: &mut W,
) -> (Result<AgeEnd, Stop>, Vec<Option<Log<D>>>)
    requires ranges { HasRanges script.now }
    requires all { length logs.items ≡ script.now.members }
    requires places { AreAllBut part.now.missing logs.items }
    requires some { HaveSomebodyPrompt script.now part.now }
    requires whole { (m : ℕ) (log : LogState D) → log_of logs.items m ≡ Some log → log.failed ≡ false }
    // Over any yard from whose disks these logs were mounted.
    ensures age { IfOk result.0 (λ age. (before : YardState) → AreMounted D.told D.faults before logs.items
        → IsAgeOf script.now part.now mode nth before (with_logs D.told D.faults before result.1.items) age) }
    ensures stopped { IfErr result.0 (λ stop. (before : YardState) → AreMounted D.told D.faults before logs.items
        → HasStopped script.now part.now before (with_logs D.told D.faults before result.1.items) stop) }
    ensures lacked { IfErr result.0 (λ stop. (before : YardState)
        → AreMounted D.told D.faults before logs.items → stop ≡ stops.OutOfMemory
        → LackedMemory script.now part.now mode before (with_logs D.told D.faults before result.1.items)) }
    ensures tried { IfErr result.0 (λ stop. (before : YardState) → AreMounted D.told D.faults before logs.items
        → AllTell script.now.members before → stop ≢ stops.OutOfMemory
        → AreTried script.now part.now.missing before (with_logs D.told D.faults before result.1.items)) }
    ensures names { IfErr result.0 (λ stop. (before : YardState)
        → AreMounted D.told D.faults before logs.items
        → NamesFaults stop before (with_logs D.told D.faults before result.1.items)) }
    ensures behind { IfErr result.0 IsBehindMounts }
    ensures later { HaveGoneOn D.told D.faults script.now (contents_of logs.items) logs.items
        result.1.items }
    ensures places { HaveSamePlaces logs.items result.1.items }
    ensures watched { IfOk result.0 (λ age. HasSeen W.opens W.sees W.closes mode script.now
        (start_of script.now part.now age) nth watcher.old watcher.new age) }
    ensures untold { OnErr result.0 (watcher.new ≡ watcher.old) }
{
    let start = match open_age(alloc, script, part.late, logs.as_mut_slice()) {
        Ok(start) => start,
        Err(why) => return (Err(Stop::of_unopened(why)), logs),
    };
    let (ended, logs) = play_age(rt, alloc, script, mode, &start, nth, logs, pace, watcher);
    match ended {
        Ok(age) => (Ok(age), logs),
        Err(_) => (Err(Stop::OutOfMemory), logs),
    }
}

/// Runs one age from its start, as the mode says. The logs come back.
fn play_age<R: Threads + Sync, D: Disk, P: Pace + Sync, W: Watcher>(
    rt: &R,
    alloc: Global,
    script: &Script,
    mode: Mode,
    start: &Start,
    nth: u8,
    mut logs: Vec<Option<Log<D>>>,
    pace: &P,
    watcher: &mut W,
) -> (Result<AgeEnd, AllocError>, Vec<Option<Log<D>>>)
    requires ranges { HasRanges script.now }
    requires group { IsGroup (group_of script.now start.now) }
    requires logs { AreOpened (group_of script.now start.now) logs.items }
    ensures age { IfOk result.0 (IsAgeOn (IsPlayed mode) D.told D.faults script.now start.now nth
        logs.items result.1.items) }
    ensures later { AreLater D.told D.faults [] logs.items result.1.items }
    ensures still { OnErr result.0 (mode ≡ Sim → AreAsBefore logs.items result.1.items
        × AreCalm D.told D.faults logs.items result.1.items) }
    ensures places { HaveSamePlaces logs.items result.1.items }
    ensures watched { IfOk result.0 (HasSeen W.opens W.sees W.closes mode script.now start.now nth
        watcher.old watcher.new) }
    ensures untold { OnErr result.0 (watcher.new ≡ watcher.old) }
{
    match mode {
        Mode::Sim => (
            watch_age(alloc, script, start, nth, logs.as_mut_slice(), watcher),
            logs,
        ),
        Mode::Run => match run_script_age(rt, alloc, script, start, nth, logs, pace) {
            Ok((age, logs)) => (Ok(age), logs),
            Err((logs, error)) => (Err(error), logs),
        },
    }
}
