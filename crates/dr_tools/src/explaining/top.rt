ghost use Rattle.std.specs.Prelude.{◌≡◌, ◌⊎◌, ◌∷◌, [], IfOk, Contains, string_bytes};
ghost use Rattle.dr_intake.specs.Status.{status_of};
ghost use Rattle.dr_script.specs.{Ranges.HasRanges, Reading.reading_of};
ghost use Rattle.dr_text.specs.Report.{last_text};
ghost use Rattle.dr_tools.specs.Explained.{BeginsWith, ExplainTold, IsAnswerFor, IsExplainAnswer, TellsTurns};

use crate::explaining::never::Plan;
use crate::explaining::reasons::{reasons_for, words_for};
use crate::explaining::turns::{push_taken, push_turns, turns_taken};
use dr_complete::most_messages;
use dr_intake::{Answer, DONE, read_for, script_or_refusal, status_of, tell, wordless};
use dr_io::{Sink, Source};
use dr_script::Script;
use dr_text::{Last, push_last};
use std::alloc::{AllocError, Global};

/// How it is called.
pub const EXPLAIN_USAGE: &str = "usage: derecho_tools explain < SCRIPT\n";

/// Reads a text from the source, writes to the sink what is to be said of it, and answers the status.
///
/// Of a text that is no script the first line is the last one that `derecho` writes, and the status that of
/// `derecho`; the lines behind it give the reason. Of a script the first line tells how many turns are enough
/// for its group in lockstep, the second how many it takes so, and the others which faults never come. It takes
/// no words: with any it writes how it is called.
pub fn explain<S: Source, K: Sink>(
    alloc: Global,
    words: &[String],
    source: &mut S,
    sink: &mut K,
) -> u8
    ensures told { ExplainTold words.now (S.left source.old) (S.left source.new)
        (S.faults source.old) (S.faults source.new) (K.held sink.old) (K.held sink.new)
        (K.faults sink.old) (K.faults sink.new) result }
    // No fault is hidden.
    ensures read_fault_told { (S.faults source.new ≡ S.faults source.old)
        ⊎ Contains (4 ∷ 10 ∷ 5 ∷ []) result }
    ensures write_fault_told { (K.faults sink.new ≡ K.faults sink.old) ⊎ (result ≡ 5) }
{
    tell(answer_to(alloc, words, source), sink)
}

/// What is to be said of what the source has.
fn answer_to<S: Source>(
    alloc: Global,
    words: &[String],
    source: &mut S,
) -> Result<Answer, AllocError>
    ensures answer { IfOk result (λ a. IsExplainAnswer words.now (S.left source.old) (S.left source.new)
        (S.faults source.old) (S.faults source.new) (string_bytes a.text, a.status)) }
    ensures told { IfOk result
        (λ a. (S.faults source.new ≡ S.faults source.old) ⊎ (a.status ≡ 4)) }
{
    match read_for(alloc, wordless(words), source) {
        Ok((_, bytes)) => answer_for(alloc, &bytes),
        Err(why) => Answer::of_unread(alloc, EXPLAIN_USAGE, why),
    }
}

/// What is to be said of these bytes.
fn answer_for(alloc: Global, bytes: &[u8]) -> Result<Answer, AllocError>
    ensures { IfOk result (λ a. IsAnswerFor (reading_of bytes.now) (string_bytes a.text) a.status) }
{
    match script_or_refusal(alloc, bytes) {
        Ok(script) => answer_to_script(alloc, bytes, script),
        Err(Some(line)) => answer_to_refusal(alloc, bytes, &line),
        Err(None) => Err(AllocError),
    }
}

/// How many turns are enough for a script, how many it takes, and what more is to be said of it.
fn answer_to_script(alloc: Global, bytes: &[u8], script: Script) -> Result<Answer, AllocError>
    requires { HasRanges script }
    ensures turns { IfOk result (λ a. TellsTurns script (string_bytes a.text)) }
    ensures due { IfOk result (λ a. a.status ≡ 0) }
{
    let mut text = String::new(alloc);
    push_turns(&mut text, &script)?;
    let most = most_messages(&script);
    let plan = Plan::of(alloc, &script)?;
    let taken = turns_taken(alloc, script)?;
    push_taken(&mut text, most, taken)?;
    let more = words_for(alloc, bytes, &plan, taken)?;
    text.push_str(more.as_str())?;
    Ok(Answer { text, status: DONE })
}

/// The last line by which a text is refused, and the reasons.
fn answer_to_refusal(alloc: Global, bytes: &[u8], line: &Last) -> Result<Answer, AllocError>
    ensures begins { IfOk result (λ a. BeginsWith (last_text line.now) (string_bytes a.text)) }
    ensures due { IfOk result (λ a. a.status ≡ status_of line.now) }
{
    let mut text = String::new(alloc);
    push_last(&mut text, line)?;
    let reasons = reasons_for(alloc, bytes, line)?;
    text.push_str(reasons.as_str())?;
    Ok(Answer {
        text,
        status: status_of(line),
    })
}
