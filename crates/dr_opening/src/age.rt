//! Chooses what an age starts with, and opens it.
ghost use Rattle.std.specs.Prelude.{◌≡◌, ◌<◌, ℕ, IfErr, IfOk, Some, false, length};
ghost use Rattle.dr_log.specs.State.{LogState};
ghost use Rattle.dr_machine.specs.Group.{IsGroup};
ghost use Rattle.dr_restart.specs.Groups.{first_group_of, group_of};
ghost use Rattle.dr_script.specs.Ranges.{HasGroupRanges};
ghost use Rattle.dr_words.specs.Masks.{without};
ghost use Rattle.dr_opening.specs.{Lists.{SomebodyPrompt, contents_of, log_of}, Logs.WereOpened, Tries.IsChosenOf};
ghost use Rattle.dr_opening.specs.Unopened.{IsUnchosen, IsWhyUnopened};

use crate::listing::lists_of;
use crate::opening::{OpenFault, open_logs};
use dr_disk::Disk;
use dr_log::Log;
use dr_quorum::{ChooseFault, choose, chosen_entries_are_valid};
use dr_restart::Start;
use dr_script::Script;
use dr_words::Mask;
use std::alloc::Global;

/// Why an age was not opened.
#[derive(Clone, Copy, Debug, PartialEq, Eq)]
pub enum NotOpened {
    /// Of the logs no start was chosen, and all are as they were.
    Unchosen(ChooseFault),
    /// A log was refused what it lacked.
    Unfinished(OpenFault),
}

/// Chooses the start of an age of what is on the logs that are there, in a place for each member, and opens it on
/// them. The members of its first view are those whose logs are there and who aren't late.
///
/// # Errors
///
/// Why no start was chosen, or which log was refused what it lacked.
pub fn open_age<D: Disk>(
    alloc: Global,
    script: &Script,
    late: Mask,
    logs: &mut [Option<Log<D>>],
) -> Result<Start, NotOpened>
    requires ranges { HasGroupRanges script.now }
    requires all { length logs.old ≡ script.now.members }
    requires whole { (m : ℕ) (log : LogState D) → log_of logs.old m ≡ Some log → log.failed ≡ false }
    // Where a log is there, one is there of somebody who isn't late.
    requires prompt { (m : ℕ) (log : LogState D) → log_of logs.old m ≡ Some log
        → SomebodyPrompt late logs.old }
    ensures chosen { IfOk result (IsChosenOf (first_group_of script.now).opening (contents_of logs.old)) }
    ensures members { IfOk result (λ start. start.members ≡ without start.present late) }
    ensures group { IfOk result (λ start. IsGroup (group_of script.now start)) }
    ensures opened { IfOk result (λ start. WereOpened D.told D.faults start logs.old logs.new) }
    ensures why { IfErr result (IsWhyUnopened D.told D.faults script.now late logs.old logs.new) }
{
    let start = match choose_of(alloc, script, late, logs) {
        Ok(start) => start,
        Err(fault) => return Err(NotOpened::Unchosen(fault)),
    };
    chosen_entries_are_valid();
    match open_logs(&start, logs) {
        Ok(()) => Ok(start),
        Err(fault) => Err(NotOpened::Unfinished(fault)),
    }
}

/// The start that is chosen of what is on the logs that are there, without the late ones in its first view.
///
/// # Errors
///
/// Want of memory, or why none is.
fn choose_of<D: Disk>(
    alloc: Global,
    script: &Script,
    late: Mask,
    logs: &[Option<Log<D>>],
) -> Result<Start, ChooseFault>
    requires ranges { HasGroupRanges script.now }
    requires all { length logs.now ≡ script.now.members }
    requires prompt { (m : ℕ) (log : LogState D) → log_of logs.now m ≡ Some log
        → SomebodyPrompt late logs.now }
    ensures chosen { IfOk result (IsChosenOf (first_group_of script.now).opening (contents_of logs.now)) }
    ensures members { IfOk result (λ start. start.members ≡ without start.present late) }
    ensures refused { IfErr result (IsUnchosen script.now (contents_of logs.now)) }
{
    let lists = lists_of(alloc, logs)?;
    let mut start = choose(alloc, script, lists.as_slice())?;
    start.members = Mask::of(start.members).without(late).bits();
    Ok(start)
}
