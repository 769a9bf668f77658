ghost use Rattle.std.specs.Prelude.{◌≡◌, ◌⊎◌, None, []};
ghost use Rattle.dr_script.specs.Ranges.{HasRanges};
ghost use Rattle.dr_ages.specs.{Ages.HaveSomebodyPrompt, Watched.AreWatched, declared.mode.Mode.TheVariants.Sim};
ghost use Rattle.dr_outcome.specs.{Last.last_of, Outcome.IsMemoryRun};
ghost use Rattle.dr_progress.specs.Progress.{IsQuiet, Waits};

use crate::beside::Beside;
use crate::progress::Progress;
use crate::timer::Timer;
use dr_ages::Part;
use dr_io::Sink;
use dr_outcome::{Outcome, watch_in_memory};
use dr_script::Script;
use dr_sim::Watcher;
use std::alloc::Global;
use std::thread::Threads;

/// Simulates a script over empty logs in memory, which are gone with the run, before a watcher, and says how
/// far it is.
pub fn watch_with_progress<R: Threads + Sync, W: Watcher, T: Timer, K: Sink>(
    rt: &R,
    alloc: Global,
    script: &Script,
    part: &Part,
    watcher: &mut W,
    progress: &mut Progress<T, K>,
) -> Outcome
    requires ranges { HasRanges script.now }
    requires some { HaveSomebodyPrompt script.now part.now }
    ensures ran { ((result.ages ≡ []) × (result.stop ≡ None) × (result.last ≡ None))
        ⊎ (IsMemoryRun script.now part.now Sim result.ages result.stop
        × (result.last ≡ last_of result.ages result.stop)) }
    ensures watched { AreWatched W.opens W.sees W.closes Sim script.now part.now 0 result.ages
        watcher.old watcher.new }
    // Nothing is said but to a terminal, and not before two seconds have passed.
    ensures quiet { IsQuiet progress.old progress.new }
{
    progress.begin();
    let outcome = watch_beside(rt, alloc, script, part, watcher, progress);
    progress.end();
    outcome
}

/// The same of the next one of several runs, between whose begin and end no line is blanked.
pub fn watch_next_with_progress<R: Threads + Sync, W: Watcher, T: Timer, K: Sink>(
    rt: &R,
    alloc: Global,
    script: &Script,
    part: &Part,
    watcher: &mut W,
    progress: &mut Progress<T, K>,
) -> Outcome
    requires ranges { HasRanges script.now }
    requires some { HaveSomebodyPrompt script.now part.now }
    ensures ran { ((result.ages ≡ []) × (result.stop ≡ None) × (result.last ≡ None))
        ⊎ (IsMemoryRun script.now part.now Sim result.ages result.stop
        × (result.last ≡ last_of result.ages result.stop)) }
    ensures watched { AreWatched W.opens W.sees W.closes Sim script.now part.now 0 result.ages
        watcher.old watcher.new }
    // Nothing is said before a line is due.
    ensures waits { Waits progress.old progress.new }
{
    progress.go_on();
    watch_beside(rt, alloc, script, part, watcher, progress)
}

/// Simulates a script before a watcher, with this progress beside it.
fn watch_beside<R: Threads + Sync, W: Watcher, T: Timer, K: Sink>(
    rt: &R,
    alloc: Global,
    script: &Script,
    part: &Part,
    watcher: &mut W,
    progress: &mut Progress<T, K>,
) -> Outcome
    requires ranges { HasRanges script.now }
    requires some { HaveSomebodyPrompt script.now part.now }
    ensures ran { ((result.ages ≡ []) × (result.stop ≡ None) × (result.last ≡ None))
        ⊎ (IsMemoryRun script.now part.now Sim result.ages result.stop
        × (result.last ≡ last_of result.ages result.stop)) }
    ensures watched { AreWatched W.opens W.sees W.closes Sim script.now part.now 0 result.ages
        watcher.old watcher.new }
    ensures waits { Waits progress.old progress.new }
{
    progress.bound(script.turns);
    let mut beside = Beside {
        watcher: &mut *watcher,
        progress: &mut *progress,
        turns: 0,
    };
    watch_in_memory(rt, alloc, script, part, &mut beside)
}
