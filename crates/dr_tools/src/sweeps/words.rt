ghost use Rattle.std.specs.Prelude.{◌≡◌, ◌+◌, ◌<◌, ◌^◌, IfOk, IfSome, map, option_map, string_bytes};
ghost use Rattle.dr_tools.specs.SweepWords.{AreFit, member_of, outcome_named, runs_at, seeds_at, seeds_by, task_in, wanted_line, wanted_named};

use crate::sweeps::forms::without_blanks;
use dr_entry::{MAX_MEMBERS, Text};
use dr_literals::{late_named, number_word, option_of};
use dr_words::Mask;
use std::alloc::{AllocError, Global};

/// So many seeds, from the first one on.
#[derive(Clone, Copy)]
pub(crate) struct Seeds {
    pub from: u64,
    pub count: u64,
}

/// Which runs of a script are asked for.
#[derive(Clone, Copy)]
pub(crate) enum Runs {
    /// Those by these seeds, in place of its schedule.
    BySeeds(Seeds),
    /// Those in which this member crashes at one of the points at which it may.
    ByCrashes(u8),
}

/// What a call asks for: how these runs end, in which these members are late; or a smaller script of one of these runs
/// that has the outcome that is wanted, as a line without blanks, or a least one.
#[derive(Drop)]
pub(crate) struct Task {
    pub runs: Runs,
    pub wanted: Option<Text>,
    pub least: bool,
    pub late: Mask,
}

/// What the words of a call ask for, where they are those of one.
pub(crate) fn task_in(alloc: Global, words: &[String]) -> Result<Option<Task>, AllocError>
    ensures task { IfOk result (λ t. t ≡ task_in (map string_bytes words.now)) }
    ensures fit { IfOk result (λ t. IfSome t (λ task. AreFit task.runs)) }
{
    let Some((runs, rest)) = runs_at(words) else {
        return Ok(None);
    };
    let Some(((outcome, least), late)) = outcome_named(rest) else {
        return Ok(None);
    };
    Ok(Some(Task {
        runs,
        wanted: wanted_of(alloc, outcome)?,
        least,
        late,
    }))
}

/// The outcome that is wanted by these words, if one is, whether of a least script, and who is late by the words behind
/// that.
fn outcome_named(words: &[String]) -> Option<((Option<&str>, bool), Mask)>
    ensures { option_map
        (λ found. ((option_map (λ outcome. outcome.now) found.0.0, found.0.1), found.1)) result
        ≡ outcome_named (map string_bytes words.now) }
{
    let (wanted, rest) = wanted_named(words)?;
    let late = late_named(rest)?;
    Some((wanted, late))
}

/// The outcome that is wanted by these words, if one is, whether of a least script, and the words behind it.
fn wanted_named(words: &[String]) -> Option<((Option<&str>, bool), &[String])>
    ensures { option_map
        (λ found. ((option_map (λ outcome. outcome.now) found.0.0, found.0.1), map string_bytes found.1.now)) result
        ≡ wanted_named (map string_bytes words.now) }
{
    let (outcome, rest) = option_of("--shrink", words)?;
    if outcome.is_some() {
        return Some(((outcome, false), rest));
    }
    let (outcome, rest) = option_of("--shrink-all", rest)?;
    Some(((outcome, true), rest))
}

/// The line of the outcome that is wanted, if one is.
fn wanted_of(alloc: Global, outcome: Option<&str>) -> Result<Option<Text>, AllocError>
    ensures { IfOk result
        (λ line. line ≡ option_map wanted_line (option_map (λ o. o.now) outcome.entry)) }
{
    match outcome {
        Some(outcome) => Ok(Some(line_of(alloc, outcome)?)),
        None => Ok(None),
    }
}

/// The runs that words begin with, and the words behind them.
fn runs_at(words: &[String]) -> Option<(Runs, &[String])>
    ensures runs { option_map (λ found. (found.0, map string_bytes found.1.now)) result
        ≡ runs_at (map string_bytes words.now) }
    ensures fit { IfSome result (λ found. AreFit found.0) }
{
    let (member, rest) = option_of("--crashes", words)?;
    match member {
        Some(member) => Some((Runs::ByCrashes(member_of(member)?), rest)),
        None => seeds_at(rest),
    }
}

/// The number of a member that a word writes.
fn member_of(word: &str) -> Option<u8>
    ensures number { result ≡ member_of word.now }
{
    let number = number_word(word)?;
    if number < MAX_MEMBERS as u64 {
        Some(number as u8)
    } else {
        None
    }
}

/// The runs by the seeds that words begin with, and the words behind them.
fn seeds_at(words: &[String]) -> Option<(Runs, &[String])>
    ensures seeds { option_map (λ found. (found.0, map string_bytes found.1.now)) result
        ≡ seeds_at (map string_bytes words.now) }
    ensures fit { IfSome result (λ found. AreFit found.0) }
{
    match words {
        [from, count, rest @ ..] => {
            let seeds = seeds_by(from.as_str(), count.as_str())?;
            Some((Runs::BySeeds(seeds), rest))
        }
        _ => None,
    }
}

/// The seeds that these words write, where all of them are of 64 bits.
fn seeds_by(from: &str, count: &str) -> Option<Seeds>
    ensures seeds { result ≡ seeds_by from.now count.now }
    ensures bound { IfSome result (λ s. s.from + s.count < 2 ^ 64) }
{
    let from = number_word(from)?;
    let count = number_word(count)?;
    from.checked_add(count)?;
    Some(Seeds { from, count })
}

/// An outcome that is wanted, as a line without blanks.
fn line_of(alloc: Global, outcome: &str) -> Result<Text, AllocError>
    ensures { IfOk result (λ line. line ≡ wanted_line outcome.now) }
{
    let mut line = without_blanks(alloc, outcome)?;
    line.push_str("\n")?;
    Ok(Text::of(line))
}
