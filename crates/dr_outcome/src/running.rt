ghost use Rattle.std.specs.Prelude.{◌≡◌, ◌<◌, ◌⊎◌, ℕ, None, [], false};
ghost use Rattle.dr_entry.specs.declared.limits.TheConstants.{MAX_MEMBERS};
ghost use Rattle.dr_script.specs.Ranges.{HasRanges};
ghost use Rattle.dr_yard.specs.Yards.{state_by};
ghost use Rattle.dr_ages.specs.{Ages.HaveSomebodyPrompt, Runs.IsRunOf};
ghost use Rattle.dr_outcome.specs.{Last.last_of, Outcome.IsMemoryRun, declared.outcome.Body.TheVariants.Report};

use crate::last::last_of;
use crate::outcome::{Body, Outcome, without_ages};
use dr_ages::{AgesEnd, Mode, Part, run_ages};
use dr_pace::Pace;
use dr_script::Script;
use dr_yard::{CalmYard, Yard};
use std::alloc::Global;
use std::thread::Threads;

/// Runs a script over empty logs in memory, which are gone with the run.
pub fn run_in_memory<R: Threads + Sync, P: Pace + Sync>(
    rt: &R,
    alloc: Global,
    script: &Script,
    mode: Mode,
    part: &Part,
    pace: &P,
) -> Outcome
    requires ranges { HasRanges script.now }
    requires some { HaveSomebodyPrompt script.now part.now }
    ensures ran { ((result.ages ≡ []) × (result.stop ≡ None) × (result.last ≡ None))
        ⊎ (IsMemoryRun script.now part.now mode result.ages result.stop
        × (result.last ≡ last_of result.ages result.stop)) }
    ensures body { result.body ≡ Report }
{
    match CalmYard::new(alloc) {
        Ok(mut yard) => run_over(rt, alloc, script, mode, part, "", &mut yard, pace),
        Err(_) => without_ages(alloc, None),
    }
}

/// Runs a script over the logs in a folder of a yard.
pub(crate) fn run_over<R: Threads + Sync, Y: Yard, P: Pace + Sync>(
    rt: &R,
    alloc: Global,
    script: &Script,
    mode: Mode,
    part: &Part,
    folder: &str,
    yard: &mut Y,
    pace: &P,
) -> Outcome
    requires ranges { HasRanges script.now }
    requires some { HaveSomebodyPrompt script.now part.now }
    requires here { (m : ℕ) → m < MAX_MEMBERS → Y.is_lent yard.old m ≡ false }
    ensures here { (m : ℕ) → m < MAX_MEMBERS → Y.is_lent yard.new m ≡ false }
    ensures run { IsRunOf script.now part.now mode (state_by Y.told Y.faults yard.old)
        (state_by Y.told Y.faults yard.new) result.ages result.stop }
    ensures last { result.last ≡ last_of result.ages result.stop }
    ensures body { result.body ≡ Report }
{
    let AgesEnd { ages, stop } = run_ages(rt, alloc, script, part, mode, folder, yard, pace);
    let last = last_of(ages.as_slice(), stop);
    Outcome {
        ages,
        stop,
        body: Body::Report,
        last,
    }
}
