ghost use Rattle.std.specs.Prelude.{◌≡◌, ◌⊎◌, ◌∷◌, [], IfOk, Contains, Some, string_bytes};
ghost use Rattle.dr_ages.specs.Ages.{HaveSomebodyPrompt, all_with};
ghost use Rattle.dr_progress.specs.Progress.{IsQuiet, Waits};
ghost use Rattle.dr_script.specs.{Ranges.HasRanges, Reading.reading_of};
ghost use Rattle.dr_tools.specs.SweepAnswer.{IsDone, IsSaidFor, IsSaidOfCrashes, IsSaidOfOutcome, IsSaidOfRuns, IsSaidOfVariants, IsShrinking, IsSweepAnswer, SaysFull, SweepTold, none_text};
ghost use Rattle.dr_tools.specs.{SweepWords.AreFit, Variants.AreSound};

use crate::sweeps::crashes::crashes_of;
use crate::sweeps::forms::is_outcome;
use crate::sweeps::shrinking::shrunk;
use crate::sweeps::sweeping::sweep_of;
use crate::sweeps::variants::Variants;
use crate::sweeps::words::{Runs, Task, task_in};
use dr_ages::Part;
use dr_entry::{Seq, Text};
use dr_intake::{Answer, DONE, USAGE, read_for, script_or_refusal, tell};
use dr_io::{Sink, Source};
use dr_outcome::are_all_late;
use dr_progress::{Progress, Timer};
use dr_script::Script;
use dr_text::Last;
use dr_words::Mask;
use std::alloc::{AllocError, Global};
use std::thread::Threads;

/// How it is called.
pub const SWEEP_USAGE: &str =
    "usage: derecho_tools sweep (FROM COUNT|--crashes M) [(--shrink|--shrink-all) OUTCOME] [--late L] < SCRIPT\n";

/// What is said where the outcome that is wanted is none of the script.
const OUTCOMES_TEXT: &str =
    "refused: no outcome of the script: one is ok, unfinished or no majority; or \
how each member ends (done, crashed, spent T, suspected J, excluded V, nomajority M,M), with commas between, \
bars between ages, and behind a colon one of those three\n";

/// The most faults of a script.
const MAX_FAULTS: usize = 256;

/// The status where no run ends as wanted.
const NONE_ENDS_SO: u8 = 14;

/// Reads a script from the source, simulates it by `COUNT` seeds from `FROM` on, in place of its own schedule,
/// writes to the sink how many runs have which outcome and by which seed first, and answers the status. With
/// `--crashes M` it simulates it by its schedule once for each point at which member `M` may crash in the run of the
/// script, with this crash too.
///
/// With `--shrink` it writes a smaller script that has this outcome, of the first of these runs whose whole script
/// has it; with `--shrink-all` one of which nothing can be one step less; an outcome that no script of so many members and ages has is refused. Behind that `--late` names the members
/// that are late. A text that is no script is refused as `derecho` refuses it, and so is one that has as many faults
/// as it may, where a crash more is wanted. While they run, the progress says how far they are.
pub fn sweep<R: Threads + Sync, S: Source, K: Sink, T: Timer, E: Sink>(
    rt: &R,
    alloc: Global,
    words: &[String],
    source: &mut S,
    sink: &mut K,
    progress: &mut Progress<T, E>,
) -> u8
    // What was read, what was run, and what was written: the table of just these runs, or a smaller script.
    ensures told { SweepTold words.now (S.left source.old) (S.left source.new)
        (S.faults source.old) (S.faults source.new) (K.held sink.old) (K.held sink.new)
        (K.faults sink.old) (K.faults sink.new) result }
    // No fault is hidden.
    ensures read_fault_told { (S.faults source.new ≡ S.faults source.old)
        ⊎ Contains (4 ∷ 10 ∷ 5 ∷ []) result }
    ensures write_fault_told { (K.faults sink.new ≡ K.faults sink.old) ⊎ (result ≡ 5) }
    // How far the runs are is said to a terminal alone, and no sooner than after two seconds.
    ensures quiet { IsQuiet progress.old progress.new }
{
    progress.begin();
    let answer = answer_to(rt, alloc, words, source, progress);
    progress.end();
    tell(answer, sink)
}

/// What is to be said of what the source has.
#[tactic(auto, using(dr_progress::proofs::Besides::waits_at_rest))]
fn answer_to<R: Threads + Sync, S: Source, T: Timer, E: Sink>(
    rt: &R,
    alloc: Global,
    words: &[String],
    source: &mut S,
    progress: &mut Progress<T, E>,
) -> Result<Answer, AllocError>
    ensures answer { IfOk result (λ a. IsSweepAnswer words.now (S.left source.old) (S.left source.new)
        (S.faults source.old) (S.faults source.new) (string_bytes a.text, a.status)) }
    ensures told { IfOk result
        (λ a. (S.faults source.new ≡ S.faults source.old) ⊎ (a.status ≡ 4)) }
    ensures waits { Waits progress.old progress.new }
{
    let task = task_in(alloc, words)?;
    match read_for(alloc, task, source) {
        Ok((task, bytes)) => answer_for(rt, alloc, &task, &bytes, progress),
        Err(why) => Answer::of_unread(alloc, SWEEP_USAGE, why),
    }
}

/// What is to be said of these bytes.
#[tactic(auto, using(dr_progress::proofs::Besides::waits_at_rest))]
fn answer_for<R: Threads + Sync, T: Timer, E: Sink>(
    rt: &R,
    alloc: Global,
    task: &Task,
    bytes: &[u8],
    progress: &mut Progress<T, E>,
) -> Result<Answer, AllocError>
    requires fit { AreFit task.now.runs }
    ensures answer { IfOk result
        (λ a. IsSaidFor task.now (reading_of bytes.now) (string_bytes a.text, a.status)) }
    ensures waits { Waits progress.old progress.new }
{
    match script_or_refusal(alloc, bytes) {
        Ok(script) => answer_to_script(rt, alloc, task, &script, progress),
        Err(line) => Answer::of_refusal(alloc, line),
    }
}

/// What is to be said of a script: where all its members are late, how the program is called.
#[tactic(auto, using(dr_progress::proofs::Besides::waits_at_rest))]
fn answer_to_script<R: Threads + Sync, T: Timer, E: Sink>(
    rt: &R,
    alloc: Global,
    task: &Task,
    script: &Script,
    progress: &mut Progress<T, E>,
) -> Result<Answer, AllocError>
    requires ranges { HasRanges script.now }
    requires fit { AreFit task.now.runs }
    ensures answer { IfOk result (λ a. IsDone task.now script.now (string_bytes a.text, a.status)) }
    ensures waits { Waits progress.old progress.new }
{
    if are_all_late(script, &Part::with_late(task.late)) {
        return Answer::of_usage(alloc, SWEEP_USAGE);
    }
    answer_to_outcome(rt, alloc, task, script, progress)
}

/// What is to be said of the runs of a script: where the outcome that is wanted is none of it, which there are.
fn answer_to_outcome<R: Threads + Sync, T: Timer, E: Sink>(
    rt: &R,
    alloc: Global,
    task: &Task,
    script: &Script,
    progress: &mut Progress<T, E>,
) -> Result<Answer, AllocError>
    requires ranges { HasRanges script.now }
    requires some { HaveSomebodyPrompt script.now (all_with task.now.late) }
    requires fit { AreFit task.now.runs }
    ensures answer { IfOk result
        (λ a. IsSaidOfOutcome task.now.wanted task.now script.now (string_bytes a.text, a.status)) }
    ensures waits { Waits progress.old progress.new }
{
    match &task.wanted {
        Some(line) => answer_to_wanted(rt, alloc, task, script, line.as_str(), progress),
        None => answer_to_runs(rt, alloc, task, script, progress),
    }
}

/// The same where this outcome is wanted.
#[tactic(auto, using(dr_progress::proofs::Besides::waits_at_rest))]
fn answer_to_wanted<R: Threads + Sync, T: Timer, E: Sink>(
    rt: &R,
    alloc: Global,
    task: &Task,
    script: &Script,
    line: &str,
    progress: &mut Progress<T, E>,
) -> Result<Answer, AllocError>
    requires ranges { HasRanges script.now }
    requires some { HaveSomebodyPrompt script.now (all_with task.now.late) }
    requires fit { AreFit task.now.runs }
    ensures answer { IfOk result
        (λ a. IsSaidOfOutcome (Some line.now) task.now script.now (string_bytes a.text, a.status)) }
    ensures waits { Waits progress.old progress.new }
{
    if is_outcome(script.members, script.ages, line) {
        answer_to_runs(rt, alloc, task, script, progress)
    } else {
        Ok(Answer {
            text: String::from_str(alloc, OUTCOMES_TEXT)?,
            status: USAGE,
        })
    }
}

/// What is to be said of the runs that are asked for.
fn answer_to_runs<R: Threads + Sync, T: Timer, E: Sink>(
    rt: &R,
    alloc: Global,
    task: &Task,
    script: &Script,
    progress: &mut Progress<T, E>,
) -> Result<Answer, AllocError>
    requires ranges { HasRanges script.now }
    requires some { HaveSomebodyPrompt script.now (all_with task.now.late) }
    requires fit { AreFit task.now.runs }
    ensures answer { IfOk result
        (λ a. IsSaidOfRuns task.now.runs task.now script.now (string_bytes a.text, a.status)) }
    ensures waits { Waits progress.old progress.new }
{
    match task.runs {
        Runs::BySeeds(seeds) => answer_to_variants(
            rt,
            alloc,
            task,
            script,
            &Variants::Seeded(seeds),
            progress,
        ),
        Runs::ByCrashes(member) => answer_to_crashes(rt, alloc, task, script, member, progress),
    }
}

/// What is to be said of the runs with a crash more of this member. Nothing is run where it is none of the script, or
/// where that may have no fault more.
#[tactic(auto, using(dr_progress::proofs::Besides::waits_at_rest))]
fn answer_to_crashes<R: Threads + Sync, T: Timer, E: Sink>(
    rt: &R,
    alloc: Global,
    task: &Task,
    script: &Script,
    member: u8,
    progress: &mut Progress<T, E>,
) -> Result<Answer, AllocError>
    requires ranges { HasRanges script.now }
    requires some { HaveSomebodyPrompt script.now (all_with task.now.late) }
    ensures answer { IfOk result
        (λ a. IsSaidOfCrashes member task.now script.now (string_bytes a.text, a.status)) }
    ensures waits { Waits progress.old progress.new }
{
    if member >= script.members {
        return Answer::of_usage(alloc, SWEEP_USAGE);
    }
    if script.faults.as_slice().len() >= MAX_FAULTS {
        return of_many_faults(alloc);
    }
    let crashes = crashes_of(rt, alloc, script, task.late, member, progress)?;
    answer_to_variants(
        rt,
        alloc,
        task,
        script,
        &Variants::Crashes(Seq::of(crashes)),
        progress,
    )
}

/// The line by which a script with more faults than one may have is refused.
fn of_many_faults(alloc: Global) -> Result<Answer, AllocError>
    ensures { IfOk result (λ a. SaysFull (string_bytes a.text, a.status)) }
{
    let path = Text::of(String::from_str(alloc, "/faults")?);
    Answer::of_line(alloc, &Last::Rule { rule: 11, path })
}

/// What is to be said of the runs of these variants of a script.
fn answer_to_variants<R: Threads + Sync, T: Timer, E: Sink>(
    rt: &R,
    alloc: Global,
    task: &Task,
    script: &Script,
    variants: &Variants,
    progress: &mut Progress<T, E>,
) -> Result<Answer, AllocError>
    requires ranges { HasRanges script.now }
    requires some { HaveSomebodyPrompt script.now (all_with task.now.late) }
    requires sound { AreSound script.now variants.now }
    ensures answer { IfOk result
        (λ a. IsSaidOfVariants variants.now task.now script.now (string_bytes a.text, a.status)) }
    ensures waits { Waits progress.old progress.new }
{
    match &task.wanted {
        None => Ok(Answer {
            text: sweep_of(rt, alloc, script, variants, task.late, progress)?,
            status: DONE,
        }),
        Some(line) => shrink(
            rt,
            alloc,
            script,
            variants,
            task.late,
            line.as_str(),
            task.least,
            progress,
        ),
    }
}

/// A smaller script that ends as wanted, or that there is none.
fn shrink<R: Threads + Sync, T: Timer, E: Sink>(
    rt: &R,
    alloc: Global,
    script: &Script,
    variants: &Variants,
    late: Mask,
    line: &str,
    least: bool,
    progress: &mut Progress<T, E>,
) -> Result<Answer, AllocError>
    requires ranges { HasRanges script.now }
    requires sound { AreSound script.now variants.now }
    ensures answer { IfOk result
        (λ a. IsShrinking least variants.now late script.now line.now (string_bytes a.text, a.status)) }
    ensures waits { Waits progress.old progress.new }
{
    match shrunk(rt, alloc, script, variants, late, line, least, progress)? {
        Some(text) => Ok(Answer { text, status: DONE }),
        None => Ok(Answer {
            text: String::from_str(alloc, none_text(variants))?,
            status: NONE_ENDS_SO,
        }),
    }
}

/// What is said where none of these runs ends as wanted.
fn none_text(variants: &Variants) -> &'static str
    ensures { result.now ≡ none_text variants.now }
{
    match variants {
        Variants::Seeded(_) => "by none of these seeds\n",
        Variants::Crashes(_) => "by none of these crashes\n",
    }
}
