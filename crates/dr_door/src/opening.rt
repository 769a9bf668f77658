//! The opening of a door.
ghost use Rattle.std.specs.Prelude.{◌≤◌, IfErr, IfOk};
ghost use Rattle.dr_door.specs.Begun.{HasBegun, HasOpened, IsOpenFault};
ghost use Rattle.dr_machine.specs.Group.{IsGroup, IsPresent};
ghost use Rattle.dr_restart.specs.Groups.{group_of};
ghost use Rattle.dr_script.specs.Ranges.{HasGroupRanges};

use crate::door::Door;
use dr_member::Member;
use dr_restart::{Start, first_start, setup_of};
use dr_script::{Script, ScriptFault, read_script};
use std::alloc::{AllocError, Global};
use thiserror::Error;

/// Why a door wasn't opened.
#[derive(Debug, Drop, Error)]
pub enum OpenFault {
    /// The bytes are no script, or memory was wanting as they were read.
    #[error("{0}")]
    Script(ScriptFault),
    /// The group has so many members, and none of this number.
    #[error("the group has {members} members")]
    NoMember { members: u8 },
    /// Memory was wanting, for a member that the group has.
    #[error("out of memory")]
    OutOfMemory,
}

impl From<AllocError> for OpenFault {
    ghost use Rattle.std.specs.Prelude.{◌≡◌};
    ghost use Rattle.dr_door.specs.declared.opening.OpenFault.TheVariants.{OutOfMemory};

    ghost from_gives = { λ _ fault. fault ≡ OutOfMemory };

    fn from(_: AllocError) -> OpenFault {
        OpenFault::OutOfMemory
    }
}

/// The door of the member `me` of the new group of a script, which these bytes are, as its first age opens.
///
/// The door counts View 0 as logged and durable from the first on, and never has it to append: write it to the logs
/// of all members first.
///
/// # Errors
///
/// `Script` where the bytes are no script, with their fault, or memory was wanting as they were read. Else `NoMember`
/// exactly where the group has no such member. Else want of memory alone.
pub fn open_door(alloc: Global, bytes: &[u8], me: u8) -> Result<Door, OpenFault>
    ensures opened { IfOk result (HasOpened bytes.now me) }
    ensures fault { IfErr result (IsOpenFault bytes.now me) }
{
    let script = match read_script(alloc, bytes) {
        Ok(script) => script,
        Err(fault) => return Err(OpenFault::Script(fault)),
    };
    if script.members <= me {
        return Err(OpenFault::NoMember {
            members: script.members,
        });
    }
    let start = first_start(alloc, &script);
    Ok(begun_door(alloc, &script, &start, 0, me)?)
}

/// The door of the member `me`, which is there, in an age of a script, before its first deed, over words that are all
/// 0. `nth` is the number of the age in the run, from 0.
///
/// The start is a sound one of this script's group: that of a new group, or one that was chosen from logs that the
/// script has brought about. It tells all of that, and no test of the start by itself could: it says what the logs of
/// earlier ages hold. The door counts its entries, and View 0 behind them, as logged and durable from the first on, and
/// never has them to append: write them to the logs of all members that are there first.
///
/// # Errors
///
/// Want of memory alone.
pub fn begun_door(
    alloc: Global,
    script: &Script,
    start: &Start,
    nth: u8,
    me: u8,
) -> Result<Door, AllocError>
    requires ranges { HasGroupRanges script.now }
    requires turns { 1 ≤ script.now.turns }
    requires group { IsGroup (group_of script.now start.now) }
    requires present { IsPresent (group_of script.now start.now) me }
    ensures { IfOk result (HasBegun script.now start.now nth me) }
{
    let setup = setup_of(alloc, script, start, nth, me)?;
    let words = vec![in alloc; 0; setup.shape.words()]?;
    Ok(Door::over(Member::begin(alloc, setup)?, words))
}
