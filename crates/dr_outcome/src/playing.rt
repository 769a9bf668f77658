ghost use Rattle.std.specs.Prelude.{◌≡◌, ◌<◌, ◌⊎◌, ◌&&◌, ℕ, MatchBool, None, false, is_none, is_some};
ghost use Rattle.dr_entry.specs.declared.limits.TheConstants.{MAX_MEMBERS};
ghost use Rattle.dr_script.specs.Ranges.{HasRanges};
ghost use Rattle.dr_yard.specs.Yards.{YardState, state_by};
ghost use Rattle.dr_ages.specs.Ages.{HaveSomebodyPrompt};
ghost use Rattle.dr_outcome.specs.Outcome.{AreAllLate, HasDone, HasPlayed, Plays, SaysOnly, WasPlayedOrNot};
ghost use Rattle.dr_outcome.specs.{Playing.{play_ends, simulated}, declared.outcome.Body.TheVariants.Report};

use crate::outcome::{Outcome, Play, without_ages};
use crate::running::{run_in_memory, run_over};
use dr_ages::{Mode, Part};
use dr_intake::script_or_refusal;
use dr_pace::{Pace, SnoozePace};
use dr_script::Script;
use dr_text::Last;
use dr_words::Mask;
use dr_yard::Yard;
use std::alloc::Global;
use std::thread::Threads;

/// Plays the script that these bytes are, where they are one.
pub fn play_text<R: Threads + Sync, Y: Yard, P: Pace + Sync>(
    rt: &R,
    alloc: Global,
    bytes: &[u8],
    play: &Play<'_>,
    yard: &mut Y,
    pace: &P,
) -> Outcome
    requires here { (m : ℕ) → m < MAX_MEMBERS → Y.is_lent yard.old m ≡ false }
    ensures here { (m : ℕ) → m < MAX_MEMBERS → Y.is_lent yard.new m ≡ false }
    ensures done { SaysOnly None (state_by Y.told Y.faults yard.old)
        (state_by Y.told Y.faults yard.new) result
        ⊎ HasDone (Plays play.now bytes.now) (play_ends play.now) (state_by Y.told Y.faults yard.old)
        (state_by Y.told Y.faults yard.new) result }
{
    match script_or_refusal(alloc, bytes) {
        Ok(script) => play_script(rt, alloc, &script, play, yard, pace),
        Err(line) => without_ages(alloc, line),
    }
}

/// Plays a script, unless all who take part are late: then nothing is run, and the last line is the usage.
pub fn play_script<R: Threads + Sync, Y: Yard, P: Pace + Sync>(
    rt: &R,
    alloc: Global,
    script: &Script,
    play: &Play<'_>,
    yard: &mut Y,
    pace: &P,
) -> Outcome
    requires ranges { HasRanges script.now }
    requires here { (m : ℕ) → m < MAX_MEMBERS → Y.is_lent yard.old m ≡ false }
    ensures here { (m : ℕ) → m < MAX_MEMBERS → Y.is_lent yard.new m ≡ false }
    ensures played { SaysOnly None (state_by Y.told Y.faults yard.old)
        (state_by Y.told Y.faults yard.new) result
        ⊎ WasPlayedOrNot play.now script.now (state_by Y.told Y.faults yard.old)
        (state_by Y.told Y.faults yard.new) result }
    ensures body { result.body ≡ Report }
{
    let part = play.part();
    if are_all_late(script, &part) {
        return without_ages(alloc, Some(Last::Usage));
    }
    match &play.folder {
        Some(folder) => run_over(rt, alloc, script, play.mode, &part, folder.name, yard, pace),
        None => run_in_memory(rt, alloc, script, play.mode, &part, pace),
    }
}

/// Whether somebody takes part, and all who do are late.
pub fn are_all_late(script: &Script, part: &Part) -> bool
    requires { HasRanges script.now }
    ensures { MatchBool result (AreAllLate script.now part.now) (HaveSomebodyPrompt script.now part.now) }
{
    let there = Mask::all(script.members).without(part.missing);
    let prompt = there.without(part.late);
    let some = there.least();
    let first = prompt.least();
    is_first_alone(some, first)
}

/// Whether there is one, and not the other.
fn is_first_alone(one: Option<u8>, other: Option<u8>) -> bool
    ensures { result ≡ (is_some one && is_none other) }
{
    one.is_some() && other.is_none()
}

/// Simulates the script that these bytes are, where they are one, over logs in memory, with nobody late.
pub fn simulate_text<R: Threads + Sync>(rt: &R, alloc: Global, bytes: &[u8]) -> Outcome
    ensures { (yard : YardState) → SaysOnly None yard yard result
        ⊎ HasDone (Plays simulated bytes.now) (play_ends simulated) yard yard result }
{
    match script_or_refusal(alloc, bytes) {
        Ok(script) => simulate(rt, alloc, &script),
        Err(line) => without_ages(alloc, line),
    }
}

/// Simulates a script over logs in memory, with nobody late.
pub fn simulate<R: Threads + Sync>(rt: &R, alloc: Global, script: &Script) -> Outcome
    requires { HasRanges script.now }
    ensures played { (yard : YardState) → SaysOnly None yard yard result
        ⊎ HasPlayed simulated script.now yard yard result }
    ensures body { result.body ≡ Report }
{
    run_in_memory(
        rt,
        alloc,
        script,
        Mode::Sim,
        &Part::everybody(),
        &SnoozePace,
    )
}
