ghost use Rattle.std.specs.Prelude.{◌≡◌, ◌⊎◌, ◌∷◌, [], IfOk, Contains, string_bytes};
ghost use Rattle.dr_progress.specs.Progress.{IsQuiet};
ghost use Rattle.dr_ages.specs.Ages.{HaveSomebodyPrompt, all_with};
ghost use Rattle.dr_script.specs.{Ranges.HasRanges, Reading.reading_of};
ghost use Rattle.dr_tools.specs.SummaryAnswer.{IsAnswerFor, IsRunAnswer, IsScriptAnswer, IsSummaryAnswer, SummaryTold};

use crate::summary::text::summary_by;
use crate::summary::words::{Asked, asked_of};
use dr_ages::Part;
use dr_intake::{Answer, read_for, script_or_refusal, status_of, tell};
use dr_io::{Sink, Source};
use dr_outcome::{Outcome, are_all_late};
use dr_progress::{Progress, Timer, watch_with_progress};
use dr_script::Script;
use dr_sim::Unwatched;
use dr_text::Last;
use std::alloc::{AllocError, Global};
use std::thread::Threads;

/// How it is called.
pub const SUMMARY_USAGE: &str = "usage: derecho_tools summary [json] [--late L] < SCRIPT\n";

/// Reads a script from the source, runs it as `derecho sim` does, writes the summary of its ages to the sink,
/// and answers the status of `derecho`.
///
/// Without words it is told in tables, and with the word `json` as a JSON object. Behind these `--late` names the
/// members that are late. With any other words it writes how it is called. A text that is no script is refused as
/// `derecho` refuses it, by the last line alone. While the run goes on, the progress says how far it is.
pub fn summarize<R: Threads + Sync, S: Source, K: Sink, T: Timer, E: Sink>(
    rt: &R,
    alloc: Global,
    words: &[String],
    source: &mut S,
    sink: &mut K,
    progress: &mut Progress<T, E>,
) -> u8
    // What was read, what was run, and what was written: the summary of just these ages, with the last line.
    ensures told { SummaryTold words.now (S.left source.old) (S.left source.new)
        (S.faults source.old) (S.faults source.new) (K.held sink.old) (K.held sink.new)
        (K.faults sink.old) (K.faults sink.new) result }
    // 2 for words, and where all members of the script that was read are late, 3 for a text that is no script, 4 for
    // a read, 5 for a write, 8 for turns that were spent, 9 for a member without a majority of its view, 10 for
    // memory, and else 0.
    ensures statuses { Contains (0 ∷ 2 ∷ 3 ∷ 4 ∷ 5 ∷ 8 ∷ 9 ∷ 10 ∷ []) result }
    // No fault is hidden.
    ensures read_fault_told { (S.faults source.new ≡ S.faults source.old)
        ⊎ Contains (4 ∷ 10 ∷ 5 ∷ []) result }
    ensures write_fault_told { (K.faults sink.new ≡ K.faults sink.old) ⊎ (result ≡ 5) }
    // How far it is is said to a terminal alone, and no sooner than after two seconds.
    ensures quiet { IsQuiet progress.old progress.new }
{
    tell(answer_to(rt, alloc, words, source, progress), sink)
}

/// What is to be said of what the source has.
fn answer_to<R: Threads + Sync, S: Source, T: Timer, E: Sink>(
    rt: &R,
    alloc: Global,
    words: &[String],
    source: &mut S,
    progress: &mut Progress<T, E>,
) -> Result<Answer, AllocError>
    ensures answer { IfOk result (λ a. IsSummaryAnswer words.now (S.left source.old) (S.left source.new)
        (S.faults source.old) (S.faults source.new) (string_bytes a.text, a.status)) }
    ensures told { IfOk result
        (λ a. (S.faults source.new ≡ S.faults source.old) ⊎ (a.status ≡ 4)) }
    ensures quiet { IsQuiet progress.old progress.new }
{
    match read_for(alloc, asked_of(words), source) {
        Ok((asked, bytes)) => answer_for(rt, alloc, asked, &bytes, progress),
        Err(why) => Answer::of_unread(alloc, SUMMARY_USAGE, why),
    }
}

/// What is to be said of these bytes.
fn answer_for<R: Threads + Sync, T: Timer, E: Sink>(
    rt: &R,
    alloc: Global,
    asked: Asked,
    bytes: &[u8],
    progress: &mut Progress<T, E>,
) -> Result<Answer, AllocError>
    ensures answer { IfOk result
        (λ a. IsAnswerFor asked (reading_of bytes.now) (string_bytes a.text, a.status)) }
    ensures quiet { IsQuiet progress.old progress.new }
{
    match script_or_refusal(alloc, bytes) {
        Ok(script) => answer_to_script(rt, alloc, asked, &script, progress),
        Err(line) => Answer::of_refusal(alloc, line),
    }
}

/// The summary of a run of the script, unless all its members are late: then nothing is run, and it is said how the
/// program is called.
fn answer_to_script<R: Threads + Sync, T: Timer, E: Sink>(
    rt: &R,
    alloc: Global,
    asked: Asked,
    script: &Script,
    progress: &mut Progress<T, E>,
) -> Result<Answer, AllocError>
    requires { HasRanges script.now }
    ensures answer { IfOk result
        (λ a. IsScriptAnswer asked script.now (string_bytes a.text, a.status)) }
    ensures quiet { IsQuiet progress.old progress.new }
{
    let part = Part::with_late(asked.late);
    if are_all_late(script, &part) {
        return Answer::of_usage(alloc, SUMMARY_USAGE);
    }
    answer_to_run(rt, alloc, asked, script, progress)
}

/// The summary of a run of the script.
fn answer_to_run<R: Threads + Sync, T: Timer, E: Sink>(
    rt: &R,
    alloc: Global,
    asked: Asked,
    script: &Script,
    progress: &mut Progress<T, E>,
) -> Result<Answer, AllocError>
    requires ranges { HasRanges script.now }
    requires some { HaveSomebodyPrompt script.now (all_with asked.late) }
    ensures answer { IfOk result (λ a. IsRunAnswer asked script.now (string_bytes a.text, a.status)) }
    ensures quiet { IsQuiet progress.old progress.new }
{
    let part = Part::with_late(asked.late);
    let Outcome { ages, last, .. } = watch_with_progress(
        rt,
        alloc,
        script,
        &part,
        &mut Unwatched,
        progress,
    );
    let Some(last) = last else {
        return Err(AllocError);
    };
    Ok(Answer {
        text: summary_by(
            alloc,
            asked.wording,
            script,
            asked.late,
            ages.as_slice(),
            &last,
        )?,
        status: status_of(&last),
    })
}
