//! What runs of scripts come to.
ghost use Rattle.std.specs.Prelude.{◌≡◌, IfOk, string_bytes};
ghost use Rattle.dr_ages.specs.Ages.{HaveSomebodyPrompt, all_with};
ghost use Rattle.dr_script.specs.Ranges.{HasRanges};
ghost use Rattle.dr_json.specs.Json.{script_json};
ghost use Rattle.dr_progress.specs.Progress.{Waits};
ghost use Rattle.dr_tools.specs.Outcomes.{ComesTo, EndsSo, MayEndSo, TextEndsSo, is_wanted, outcome_line};

use crate::sweeps::forms::without_blanks;
use crate::sweeps::outcomes::push_outcome;
use dr_ages::Part;
use dr_entry::{AgeEnd, Text};
use dr_intake::script_or_refusal;
use dr_io::Sink;
use dr_json::push_script;
use dr_outcome::are_all_late;
use dr_progress::{Progress, Timer, watch_next_with_progress};
use dr_script::Script;
use dr_sim::Unwatched;
use dr_text::{Last, push_last};
use dr_words::Mask;
use std::alloc::{AllocError, Global};
use std::thread::Threads;

/// The outcome of a run of the script in which these members are late.
pub(crate) fn outcome_of<R: Threads + Sync, T: Timer, E: Sink>(
    rt: &R,
    alloc: Global,
    script: &Script,
    late: Mask,
    progress: &mut Progress<T, E>,
) -> Result<Text, AllocError>
    requires ranges { HasRanges script.now }
    requires some { HaveSomebodyPrompt script.now (all_with late) }
    ensures outcome { IfOk result (ComesTo script.now late) }
    ensures waits { Waits progress.old progress.new }
{
    let part = Part::with_late(late);
    let outcome = watch_next_with_progress(rt, alloc, script, &part, &mut Unwatched, progress);
    match &outcome.last {
        Some(last) => line_of(alloc, outcome.ages.as_slice(), last),
        None => Err(AllocError),
    }
}

fn line_of(alloc: Global, ages: &[AgeEnd], last: &Last) -> Result<Text, AllocError>
    ensures { IfOk result (λ line. line ≡ outcome_line ages.now last.now) }
{
    let mut line = String::new(alloc);
    push_outcome(&mut line, ages, last)?;
    Ok(Text::of(line))
}

/// Whether a script ends as wanted, as it is read from its text.
#[tactic(auto, using(dr_progress::proofs::Besides::waits_at_rest))]
pub(crate) fn whole_ends_so<R: Threads + Sync, T: Timer, E: Sink>(
    rt: &R,
    alloc: Global,
    script: &Script,
    late: Mask,
    wanted: &str,
    progress: &mut Progress<T, E>,
) -> Result<bool, AllocError>
    ensures ends { IfOk result (TextEndsSo (script_json script.now) late wanted.now) }
    ensures waits { Waits progress.old progress.new }
{
    let text = text_of(alloc, script)?;
    text_ends_so(rt, alloc, text.as_str(), late, wanted, progress)
}

pub(crate) fn text_of(alloc: Global, script: &Script) -> Result<String, AllocError>
    ensures { IfOk result (λ text. string_bytes text ≡ script_json script.now) }
{
    let mut text = String::new(alloc);
    push_script(alloc, &mut text, script)?;
    Ok(text)
}

/// Whether the script that a text is ends as wanted where these members are late.
#[tactic(auto, using(dr_progress::proofs::Besides::waits_at_rest))]
fn text_ends_so<R: Threads + Sync, T: Timer, E: Sink>(
    rt: &R,
    alloc: Global,
    text: &str,
    late: Mask,
    wanted: &str,
    progress: &mut Progress<T, E>,
) -> Result<bool, AllocError>
    ensures outcome { IfOk result (TextEndsSo text.now late wanted.now) }
    ensures waits { Waits progress.old progress.new }
{
    match script_or_refusal(alloc, text.as_bytes()) {
        Ok(script) => read_ends_so(rt, alloc, &script, late, wanted, progress),
        Err(Some(_)) => Ok(false),
        Err(None) => Err(AllocError),
    }
}

/// Whether a script ends as wanted, which it doesn't where all its members are late.
#[tactic(auto, using(dr_progress::proofs::Besides::waits_at_rest))]
fn read_ends_so<R: Threads + Sync, T: Timer, E: Sink>(
    rt: &R,
    alloc: Global,
    script: &Script,
    late: Mask,
    wanted: &str,
    progress: &mut Progress<T, E>,
) -> Result<bool, AllocError>
    requires { HasRanges script.now }
    ensures outcome { IfOk result (MayEndSo script.now late wanted.now) }
    ensures waits { Waits progress.old progress.new }
{
    if are_all_late(script, &Part::with_late(late)) {
        return Ok(false);
    }
    ends_so(rt, alloc, script, late, wanted, progress)
}

fn ends_so<R: Threads + Sync, T: Timer, E: Sink>(
    rt: &R,
    alloc: Global,
    script: &Script,
    late: Mask,
    wanted: &str,
    progress: &mut Progress<T, E>,
) -> Result<bool, AllocError>
    requires ranges { HasRanges script.now }
    requires some { HaveSomebodyPrompt script.now (all_with late) }
    ensures outcome { IfOk result (EndsSo script.now late wanted.now) }
    ensures waits { Waits progress.old progress.new }
{
    let part = Part::with_late(late);
    let outcome = watch_next_with_progress(rt, alloc, script, &part, &mut Unwatched, progress);
    match &outcome.last {
        Some(last) => is_wanted(alloc, outcome.ages.as_slice(), last, wanted),
        None => Err(AllocError),
    }
}

/// Whether a run with these ages and this last line is the one that is wanted, by its outcome or by its last line, both
/// without blanks.
fn is_wanted(alloc: Global, ages: &[AgeEnd], last: &Last, wanted: &str) -> Result<bool, AllocError>
    ensures { IfOk result (λ yes. yes ≡ is_wanted wanted.now ages.now last.now) }
{
    let outcome = line_of(alloc, ages, last)?;
    let mut line = String::new(alloc);
    push_last(&mut line, last)?;
    let outcome = without_blanks(alloc, outcome.as_str())?;
    let line = without_blanks(alloc, line.as_str())?;
    Ok(wanted == outcome.as_str() || wanted == line.as_str())
}
