//! The members that an age opens with.
ghost use Rattle.std.specs.Prelude.{◌<◌, IfOk};
ghost use Rattle.dr_machine.specs.Group.{IsGroup};
ghost use Rattle.dr_restart.specs.Groups.{group_of};
ghost use Rattle.dr_script.specs.Ranges.{HasRanges};
ghost use Rattle.dr_play.specs.Begun.{HasBegunAt, HaveBegun};

use dr_member::Member;
use dr_restart::{Start, setup_of};
use dr_script::Script;
use dr_words::Mask;
use std::alloc::{AllocError, Global};

/// The members of the script's group, by number, before their first deeds; there is none at the place of a
/// member that is absent. `nth` is the number of the age in the run, from 0.
///
/// # Errors
///
/// Want of memory alone.
pub fn begun_members(
    alloc: Global,
    script: &Script,
    start: &Start,
    nth: u8,
) -> Result<Vec<Option<Member>>, AllocError>
    requires ranges { HasRanges script.now }
    requires group { IsGroup (group_of script.now start.now) }
    ensures { IfOk result (λ members. HaveBegun script.now start.now nth script.now.members members.items) }
{
    let mut members = Vec::with_capacity(alloc, usize::from(script.members))?;
    for me in 0..script.members {
        members.push(begun_member(alloc, script, start, nth, me)?)?;
    }
    Ok(members)
}

/// The member `me` before its first deed; `None` exactly where it is absent.
fn begun_member(
    alloc: Global,
    script: &Script,
    start: &Start,
    nth: u8,
    me: u8,
) -> Result<Option<Member>, AllocError>
    requires ranges { HasRanges script.now }
    requires group { IsGroup (group_of script.now start.now) }
    requires me { me < script.now.members }
    ensures { IfOk result (HasBegunAt script.now start.now nth me) }
{
    if !Mask::of(start.present).has(me) {
        return Ok(None);
    }
    let setup = setup_of(alloc, script, start, nth, me)?;
    Ok(Some(Member::begin(alloc, setup)?))
}
