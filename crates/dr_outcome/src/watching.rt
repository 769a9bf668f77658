ghost use Rattle.std.specs.Prelude.{◌≡◌, ◌<◌, ◌⊎◌, ℕ, None, [], false};
ghost use Rattle.dr_entry.specs.declared.limits.TheConstants.{MAX_MEMBERS};
ghost use Rattle.dr_script.specs.Ranges.{HasRanges};
ghost use Rattle.dr_yard.specs.Yards.{state_by};
ghost use Rattle.dr_ages.specs.{Ages.HaveSomebodyPrompt, Runs.IsRunOf, Watched.AreWatched};
ghost use Rattle.dr_ages.specs.declared.mode.Mode.TheVariants.{Sim};
ghost use Rattle.dr_outcome.specs.{Last.last_of, Outcome.IsMemoryRun};

use crate::last::last_of;
use crate::outcome::{Body, Outcome, without_ages};
use dr_ages::{AgesEnd, Mode, Part, watch_ages};
use dr_pace::SnoozePace;
use dr_script::Script;
use dr_sim::Watcher;
use dr_yard::{CalmYard, Yard};
use std::alloc::Global;
use std::thread::Threads;

/// Simulates a script over empty logs in memory, which are gone with the run, before a watcher.
pub fn watch_in_memory<R: Threads + Sync, W: Watcher>(
    rt: &R,
    alloc: Global,
    script: &Script,
    part: &Part,
    watcher: &mut W,
) -> Outcome
    requires ranges { HasRanges script.now }
    requires some { HaveSomebodyPrompt script.now part.now }
    ensures ran { ((result.ages ≡ []) × (result.stop ≡ None) × (result.last ≡ None))
        ⊎ (IsMemoryRun script.now part.now Sim result.ages result.stop
        × (result.last ≡ last_of result.ages result.stop)) }
    ensures watched { AreWatched W.opens W.sees W.closes Sim script.now part.now 0 result.ages
        watcher.old watcher.new }
{
    match CalmYard::new(alloc) {
        Ok(mut yard) => watch_over(rt, alloc, script, part, &mut yard, watcher),
        Err(_) => without_ages(alloc, None),
    }
}

/// Simulates a script over the logs of a yard before a watcher.
fn watch_over<R: Threads + Sync, Y: Yard, W: Watcher>(
    rt: &R,
    alloc: Global,
    script: &Script,
    part: &Part,
    yard: &mut Y,
    watcher: &mut W,
) -> Outcome
    requires ranges { HasRanges script.now }
    requires some { HaveSomebodyPrompt script.now part.now }
    requires here { (m : ℕ) → m < MAX_MEMBERS → Y.is_lent yard.old m ≡ false }
    ensures here { (m : ℕ) → m < MAX_MEMBERS → Y.is_lent yard.new m ≡ false }
    ensures run { IsRunOf script.now part.now Sim (state_by Y.told Y.faults yard.old)
        (state_by Y.told Y.faults yard.new) result.ages result.stop }
    ensures last { result.last ≡ last_of result.ages result.stop }
    ensures watched { AreWatched W.opens W.sees W.closes Sim script.now part.now 0 result.ages
        watcher.old watcher.new }
{
    // A simulation never calls its pace.
    let pace = &SnoozePace;
    let AgesEnd { ages, stop } = watch_ages(
        rt,
        alloc,
        script,
        part,
        Mode::Sim,
        "",
        yard,
        pace,
        watcher,
    );
    let last = last_of(ages.as_slice(), stop);
    Outcome {
        ages,
        stop,
        body: Body::Report,
        last,
    }
}
