ghost use Rattle.std.specs.Prelude.{◌≡◌, ◌<◌, ◌⊎◌, ℕ, IfOk, IsErrOf, IsTrue, None, Some, false};
ghost use Rattle.dr_entry.specs.declared.limits.TheConstants.{MAX_MEMBERS};
ghost use Rattle.dr_intake.specs.Answer.{WasReadFor};
ghost use Rattle.dr_io.specs.Faults.{Rose};
ghost use Rattle.dr_text.specs.declared.last.Last.TheVariants.{SourceFault};
ghost use Rattle.dr_yard.specs.Yards.{state_by};
ghost use Rattle.dr_outcome.specs.Outcome.{HasDone, SaysOnly};
ghost use Rattle.dr_commands.specs.{Outcome.{Course, Does}, Words.{ends_of, reads}};

use crate::check::check_report;
use crate::drill::run_drill;
use crate::live::run_lived;
use crate::shards::run_sharded;
use crate::store::ask_stores;
use crate::words::{Command, command_of};
use dr_intake::{READ_LIMIT, ReadFault, read_all};
use dr_io::Source;
use dr_outcome::{Outcome, play_text, without_ages};
use dr_pace::Pace;
use dr_text::Last;
use dr_yard::Yard;
use std::alloc::Global;
use std::thread::Threads;

/// Does all that the words ask for, but for the writing.
pub(crate) fn outcome_of<R: Threads + Sync, S: Source, Y: Yard, P: Pace + Sync>(
    rt: &R,
    alloc: Global,
    words: &[String],
    source: &mut S,
    yard: &mut Y,
    pace: &P,
) -> Outcome
    requires here { (m : ℕ) → m < MAX_MEMBERS → Y.is_lent yard.old m ≡ false }
    ensures here { (m : ℕ) → m < MAX_MEMBERS → Y.is_lent yard.new m ≡ false }
    ensures course { Course words.now (S.left source.old) (S.left source.new)
        (S.faults source.old) (S.faults source.new) (state_by Y.told Y.faults yard.old)
        (state_by Y.told Y.faults yard.new) result }
    ensures told { (S.faults source.new ≡ S.faults source.old) ⊎ (result.last ≡ Some SourceFault) }
{
    let Some(command) = command_of(words) else {
        return without_ages(alloc, Some(Last::Usage));
    };
    match read_for(alloc, &command, source) {
        Ok(bytes) => do_command(rt, alloc, &command, &bytes, yard, pace),
        Err(ReadFault::Failed) => without_ages(alloc, Some(Last::SourceFault)),
        Err(ReadFault::OutOfMemory) => without_ages(alloc, None),
    }
}

/// Reads what a command wants of the source.
fn read_for<S: Source>(
    alloc: Global,
    command: &Command<'_>,
    source: &mut S,
) -> Result<Vec<u8>, ReadFault>
    ensures bytes { IfOk result
        (λ v. WasReadFor (reads command.now) (S.left source.old) (S.left source.new) v.items) }
    ensures cause { IsErrOf result ReadFault.Failed
        → IsTrue (reads command.now) × Rose (S.faults source.old) (S.faults source.new) }
    ensures calm { IfOk result (λ _. S.faults source.new ≡ S.faults source.old) }
    ensures wanting { IsErrOf result ReadFault.OutOfMemory
        → S.faults source.new ≡ S.faults source.old }
{
    match command {
        Command::Play(_)
        | Command::Store { .. }
        | Command::Shards(_)
        | Command::Live(_)
        | Command::Check => { read_all(alloc, source, READ_LIMIT) }
        Command::Drill { .. } => Ok(Vec::new(alloc)),
    }
}

/// Does what a command does with what was read for it.
fn do_command<R: Threads + Sync, Y: Yard, P: Pace + Sync>(
    rt: &R,
    alloc: Global,
    command: &Command<'_>,
    bytes: &[u8],
    yard: &mut Y,
    pace: &P,
) -> Outcome
    requires here { (m : ℕ) → m < MAX_MEMBERS → Y.is_lent yard.old m ≡ false }
    ensures here { (m : ℕ) → m < MAX_MEMBERS → Y.is_lent yard.new m ≡ false }
    ensures done { SaysOnly None (state_by Y.told Y.faults yard.old)
        (state_by Y.told Y.faults yard.new) result
        ⊎ HasDone (Does command.now bytes.now) (ends_of command.now) (state_by Y.told Y.faults yard.old)
        (state_by Y.told Y.faults yard.new) result }
{
    match command {
        Command::Play(play) => play_text(rt, alloc, bytes, play, yard, pace),
        Command::Store { key, version } => ask_stores(rt, alloc, bytes, key.bytes(), *version),
        Command::Drill { number } => run_drill(rt, alloc, *number),
        Command::Shards(sharding) => run_sharded(rt, alloc, bytes, sharding, pace),
        Command::Live(rounds) => run_lived(rt, alloc, bytes, rounds, pace),
        Command::Check => check_report(alloc, bytes),
    }
}
