//! The top call of `derecho`.
//!
//! The contract says in one clause what a call came to (`Course`): one outcome that goes with the bytes that
//! were read, the ages, what ended the run, what is said of them and the last line. As clauses of their own
//! each would have its own script over a source that doesn't tell; so what is said of turns that were too
//! few, or of a suspicion as a cause, is said of the script that was read (`HasPlayed`). What is certain of
//! the ages stands in `IsRunOf`, once.
//!
//! With the status 10 ages and stop are those of the run, if there was one; only nothing was written. Words
//! that are no text are handed in as an empty list, so the usage line is written; this tells of `sim` and
//! `run` alone, without `--missing` and `--late`, and `docs/USER.md` of all.
ghost use Rattle.std.specs.Prelude.{◌≡◌, ◌<◌, ◌⊎◌, ◌++◌, ℕ, [], ◌∷◌, Contains, IfOk, IsTrue, Some, false, is_some, string_bytes};
ghost use Rattle.dr_entry.specs.declared.limits.TheConstants.{MAX_MEMBERS};
ghost use Rattle.dr_intake.specs.Status.{WroteText, status_of};
ghost use Rattle.dr_io.specs.{Faults.Rose, Sink.Gains};
ghost use Rattle.dr_text.specs.Report.{last_text, report_text};
ghost use Rattle.dr_yard.specs.Yards.{state_by};
ghost use Rattle.dr_outcome.specs.{Last.{refusal_of, some_end, some_so}, Playing.Playing};
ghost use Rattle.dr_outcome.specs.declared.last.Kind.TheVariants.{DiskFault, LogFull, NoMajority, Spent};
ghost use Rattle.dr_outcome.specs.declared.outcome.Outcome.{Outcome as OutcomeOf};
ghost use Rattle.dr_commands.specs.Outcome.{AsksLate, Course, Exactly, IsWritten, WasJudgedRight, WroteOrNot};
ghost use Rattle.dr_commands.specs.Words.{IsCommand, asked_by, statuses_of};
ghost use Rattle.dr_commands.specs.declared.words.Command.TheVariants.{Play as PlayOf};

use crate::outcome::outcome_of;
use dr_ages::Stop;
use dr_entry::{AgeEnd, Seq};
use dr_intake::{Answer, OUT_OF_MEMORY, WRITE_FAULT, status_of};
use dr_io::{Sink, Source};
use dr_outcome::{Body, Outcome};
use dr_pace::Pace;
use dr_text::{Last, LongText, Report};
use dr_yard::Yard;
use std::alloc::Global;
use std::thread::Threads;

/// How a call ended: its status, the ages that ran to their end, and what ended the run in the age behind
/// these, if it has fewer than the script asks for.
#[derive(Debug, PartialEq, Eq, Drop)]
pub struct Ended {
    pub status: u8,
    pub ages: Seq<AgeEnd>,
    pub stop: Option<Stop>,
}

/// Does what the words ask for, and answers how it ended.
///
/// A script is read from the source, the ages of its group run, and the report of the run is written to the
/// sink. With the command `sim` members take their deeds one after the other, by the schedule of the script;
/// with `run` all at once, each in a thread of its own, which calls the pace after each of its turns. With
/// `--logs F` or `--logs=F` each member keeps its log on a disk of the yard, in the folder `F`, and the first
/// age begins with what is there. Behind it `--missing L` or `--missing=L` names the members whose logs are
/// missing: they take no part. Without a folder each keeps its log on a disk in memory, which is gone when the
/// run has ended. `--late L` or `--late=L` as the last option names the members that are in no first view: they
/// wait until others wish for them. What the other commands do is told of each at
/// [`Command`](crate::Command). The status says how that went: see the constants of `dr_intake`.
pub fn derecho<R: Threads + Sync, S: Source, K: Sink, Y: Yard, P: Pace + Sync>(
    rt: &R,
    alloc: Global,
    words: &[String],
    source: &mut S,
    sink: &mut K,
    yard: &mut Y,
    pace: &P,
) -> Ended
    requires here { (m : ℕ) → m < MAX_MEMBERS → Y.is_lent yard.old m ≡ false }
    ensures here { (m : ℕ) → m < MAX_MEMBERS → Y.is_lent yard.new m ≡ false }

    // What was read, what was run, and what was written: `Does` says it of each command. Where a script was
    // run, `IsRunOf` says of its ages that each is a run of the script's program, by its schedule or in
    // threads, that its members agree, when they are complete, and that it keeps all that was durable in the
    // ages before; and `HasPlayed` why the last line is what it is.
    ensures course { (o : OutcomeOf)
        × Course words.now (S.left source.old) (S.left source.new)
        (S.faults source.old) (S.faults source.new) (state_by Y.told Y.faults yard.old)
        (state_by Y.told Y.faults yard.new) o
        × WroteOrNot (K.held sink.old) (K.held sink.new)
        (K.faults sink.old) (K.faults sink.new) result.status o
        × (result.ages ≡ o.ages) × (result.stop ≡ o.stop) }
    // What `sim` and `run` print with status 0, 8 or 9 over disks that tell `check` finds right.
    ensures judged { (play : Playing) → asked_by words.now ≡ Some (PlayOf play)
        → Contains (0 ∷ 8 ∷ 9 ∷ []) result.status
        → WasJudgedRight play.folder (S.left source.old) (S.left source.new)
        (K.held sink.old) (K.held sink.new) (state_by Y.told Y.faults yard.old) }
    ensures given_up { result.status ≡ 10 → Gains (K.held sink.old) (K.held sink.new) [] }

    // Where each status comes: 2 for words, and where all are late who take part in the script that was read, 3
    // for what was read, 4 for a read, 5 for a write, 6 for a disk, 7 for logs, 8 for turns that were spent, 9 for a
    // member without a majority of its view, 10 for memory, 11 for a full log, 12 for a layout that is refused,
    // 13 for a report that is wrong, and else 0. Where several apply, the first of 10, 5, 2, 4, 3, 12, 13, 6, 7,
    // 11, 8, 9 is taken, but that 4 and 3 come before a 2 for a script.
    // The table `ends_of` says which of them a command may come to: over disks in memory 6, 7 and 11 don't
    // come.
    ensures statuses { Contains (statuses_of (asked_by words.now)) result.status }
    ensures usage { result.status ≡ 2
        → (¬ IsCommand words.now) ⊎ AsksLate words.now (S.left source.old) (S.left source.new) }
    ensures usage_told { ¬ IsCommand words.now
        → (result.status ≡ 2) ⊎ Contains (10 ∷ 5 ∷ []) result.status }
    // Of a source that tells what it has left.
    ensures late_told { IsTrue (is_some (S.left source.old))
        → AsksLate words.now (S.left source.old) (S.left source.new)
        → (result.status ≡ 2) ⊎ Contains (10 ∷ 5 ∷ 4 ∷ []) result.status }
    ensures read_fault { result.status ≡ 4 → Rose (S.faults source.old) (S.faults source.new) }
    ensures write_fault { result.status ≡ 5 → Rose (K.faults sink.old) (K.faults sink.new) }
    ensures read_fault_told { (S.faults source.new ≡ S.faults source.old)
        ⊎ Contains (4 ∷ 10 ∷ 5 ∷ []) result.status }
    ensures write_fault_told { (K.faults sink.new ≡ K.faults sink.old) ⊎ (result.status ≡ 5) }
    ensures disk_fault_told { ((m : ℕ) → Y.faults yard.new m ≡ Y.faults yard.old m)
        ⊎ Contains (6 ∷ 10 ∷ 5 ∷ []) result.status }
    ensures disk_fault { Exactly result.status 6 (10 ∷ 5 ∷ [])
        (IsTrue (some_so DiskFault result.ages result.stop)) }
    ensures logs_refused { Exactly result.status 7 (10 ∷ 5 ∷ 6 ∷ [])
        (IsTrue (is_some (refusal_of result.stop))) }
    ensures log_full { Exactly result.status 11 (10 ∷ 5 ∷ 6 ∷ 7 ∷ [])
        (IsTrue (some_so LogFull result.ages result.stop)) }
    ensures unfinished { Exactly result.status 8 (10 ∷ 5 ∷ 6 ∷ 7 ∷ 11 ∷ [])
        (IsTrue (some_end Spent result.ages)) }
    ensures no_majority { Exactly result.status 9 (10 ∷ 5 ∷ 6 ∷ 7 ∷ 11 ∷ 8 ∷ [])
        (IsTrue (some_end NoMajority result.ages)) }
{
    let outcome = outcome_of(rt, alloc, words, source, yard, pace);
    let status = tell(alloc, &outcome, sink);
    Ended {
        status,
        ages: outcome.ages,
        stop: outcome.stop,
    }
}

/// Writes the text of what a call has come to, and answers the status.
fn tell<K: Sink>(alloc: Global, outcome: &Outcome, sink: &mut K) -> u8
    ensures wrote { WroteOrNot (K.held sink.old) (K.held sink.new)
        (K.faults sink.old) (K.faults sink.new) result outcome.now }
    ensures told { (K.faults sink.new ≡ K.faults sink.old) ⊎ (result ≡ 5) }
{
    let Some(last) = &outcome.last else {
        return OUT_OF_MEMORY;
    };
    match &outcome.body {
        Body::Report => tell_report(alloc, outcome.ages.as_slice(), last, sink),
        Body::Text(text) => tell_text(alloc, text, last, sink),
    }
}

/// Writes the report of these ages.
fn tell_report<K: Sink>(alloc: Global, ages: &[AgeEnd], last: &Last, sink: &mut K) -> u8
    ensures wrote { IsWritten (K.held sink.old) (K.held sink.new) (K.faults sink.old) (K.faults sink.new)
        result (status_of last.now) (report_text ages.now last.now) }
    ensures told { (K.faults sink.new ≡ K.faults sink.old) ⊎ (result ≡ 5) }
{
    let Ok(text) = Report::of(alloc, ages, last) else {
        return OUT_OF_MEMORY;
    };
    match text.write_to(sink) {
        Ok(()) => status_of(last),
        Err(_) => WRITE_FAULT,
    }
}

/// Writes a text, with the last line behind it.
fn tell_text<K: Sink>(alloc: Global, text: &LongText, last: &Last, sink: &mut K) -> u8
    ensures wrote { IsWritten (K.held sink.old) (K.held sink.new) (K.faults sink.old) (K.faults sink.new)
        result (status_of last.now) (text.now ++ last_text last.now) }
    ensures told { (K.faults sink.new ≡ K.faults sink.old) ⊎ (result ≡ 5) }
{
    let Ok(line) = Answer::of_line(alloc, last) else {
        return OUT_OF_MEMORY;
    };
    write_both(text, &line, sink)
}

/// Writes a text, and an answer behind it.
fn write_both<K: Sink>(text: &LongText, answer: &Answer, sink: &mut K) -> u8
    ensures wrote { WroteText (K.held sink.old) (K.held sink.new) (K.faults sink.old) (K.faults sink.new)
        result answer.now.status (text.now ++ string_bytes answer.now.text) }
    ensures told { (K.faults sink.new ≡ K.faults sink.old) ⊎ (result ≡ 5) }
{
    match text.write_with(answer.text.as_str(), sink) {
        Ok(()) => answer.status,
        Err(_) => WRITE_FAULT,
    }
}
