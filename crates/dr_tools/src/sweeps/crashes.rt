//! The crashes of a member at all points of a run at which it may crash.
ghost use Rattle.std.specs.List.{range_with_len};
ghost use Rattle.std.specs.Prelude.{◌≡◌, ◌*◌, ◌+◌, ◌<◌, ◌≤◌, ◌++◌, All, IfOk, OnOk, length, map};
ghost use Rattle.dr_ages.specs.Ages.{HaveSomebodyPrompt, all_with};
ghost use Rattle.dr_script.specs.Ranges.{HasFaultRanges, HasRanges};
ghost use Rattle.dr_progress.specs.Progress.{Waits};
ghost use Rattle.dr_tools.specs.Crashes.{AreCrashes, IsCounted, crash_at, crashes_by};

use crate::sweeps::counting::Counter;
use dr_ages::Part;
use dr_io::Sink;
use dr_progress::{Progress, Timer, watch_next_with_progress};
use dr_script::{Fault, Script, What};
use dr_words::Mask;
use std::alloc::{AllocError, Global};
use std::thread::Threads;

/// The crashes of this member at all points at which it may crash, by ages, turns and pushes, in the run of a script
/// in which these members are late.
pub(crate) fn crashes_of<R: Threads + Sync, T: Timer, E: Sink>(
    rt: &R,
    alloc: Global,
    script: &Script,
    late: Mask,
    member: u8,
    progress: &mut Progress<T, E>,
) -> Result<Vec<Fault>, AllocError>
    requires ranges { HasRanges script.now }
    requires some { HaveSomebodyPrompt script.now (all_with late) }
    requires member { member < script.now.members }
    ensures crashes { IfOk result (λ v. AreCrashes script.now late member v.items) }
    ensures ranges { IfOk result (λ v. All (HasFaultRanges script.now) v.items) }
    ensures waits { Waits progress.old progress.new }
{
    let counter = counted(rt, alloc, script, late, member, progress)?;
    crashes_by(alloc, script, member, counter.points())
}

/// What is counted in the run of a script.
#[tactic(auto, using(dr_progress::proofs::Besides::waits_at_rest))]
fn counted<R: Threads + Sync, T: Timer, E: Sink>(
    rt: &R,
    alloc: Global,
    script: &Script,
    late: Mask,
    member: u8,
    progress: &mut Progress<T, E>,
) -> Result<Counter, AllocError>
    requires ranges { HasRanges script.now }
    requires some { HaveSomebodyPrompt script.now (all_with late) }
    ensures counted { IfOk result (λ c. IsCounted script.now late member c.points) }
    ensures turns { IfOk result (λ c. length c.points ≡ script.now.ages * script.now.turns) }
    ensures waits { Waits progress.old progress.new }
{
    let mut counter = Counter::new(alloc, script, member)?;
    let part = Part::with_late(late);
    let outcome = watch_next_with_progress(rt, alloc, script, &part, &mut counter, progress);
    match outcome.last {
        Some(_) => Ok(counter),
        None => Err(AllocError),
    }
}

/// The crashes of a member in turns of which each has so many points.
fn crashes_by(
    alloc: Global,
    script: &Script,
    member: u8,
    points: &[u16],
) -> Result<Vec<Fault>, AllocError>
    requires ranges { HasRanges script.now }
    requires member { member < script.now.members }
    requires turns { length points.now ≡ script.now.ages * script.now.turns }
    ensures crashes { IfOk result (λ v. v.items ≡ crashes_by member script.now.turns points.now) }
    ensures ranges { IfOk result (λ v. All (HasFaultRanges script.now) v.items) }
{
    let mut crashes = Vec::new(alloc);
    for (behind, count) in points.iter().enumerate() {
        push_crashes(&mut crashes, script, member, behind, *count)?;
    }
    Ok(crashes)
}

/// Appends the crashes of a member at so many points of a turn, which is behind so many others.
fn push_crashes(
    crashes: &mut Vec<Fault>,
    script: &Script,
    member: u8,
    behind: usize,
    count: u16,
) -> Result<(), AllocError>
    requires ranges { HasRanges script.now }
    requires member { member < script.now.members }
    requires turn { behind < script.now.ages * script.now.turns }
    requires before { All (HasFaultRanges script.now) crashes.old.items }
    ensures crashes { OnOk result (crashes.new.items
        ≡ crashes.old.items ++ map (crash_at member script.now.turns behind) (range_with_len 0 count)) }
    ensures ranges { OnOk result (All (HasFaultRanges script.now) crashes.new.items) }
{
    for push in 0..count {
        crashes.push(crash_at(script, member, behind, push))?;
    }
    Ok(())
}

/// The crash of a member before this push of the turn that is behind so many others of all ages.
fn crash_at(script: &Script, member: u8, behind: usize, push: u16) -> Fault
    requires ranges { HasRanges script.now }
    requires member { member < script.now.members }
    requires turn { behind < script.now.ages * script.now.turns }
    ensures crash { result ≡ crash_at member script.now.turns behind push }
    ensures ranges { HasFaultRanges script.now result }
{
    let turns = script.turns as usize;
    Fault {
        age: (behind / turns) as u8,
        member,
        what: What::Crash {
            turn: (behind % turns) as u32 + 1,
            push: u32::from(push),
        },
    }
}
