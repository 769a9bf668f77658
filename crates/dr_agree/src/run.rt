//! Runs of the executable world, and what is certain of them.
ghost use Rattle.std.specs.Prelude.{◌≡◌, ◌↔◌, ◌<◌, ◌⊎◌, IfOk, IsTrue};
ghost use Rattle.dr_history.specs.History.{IsPrefixOf};
ghost use Rattle.dr_machine.specs.{Group.{IsGroup, IsPresent, roster}, Run.{NoLaterItem, Run, WorldAgreed}};
ghost use Rattle.dr_machine.specs.World.{opening_world};
ghost use Rattle.dr_script.specs.Ranges.{HasGroupRanges};
ghost use Rattle.dr_restart.specs.Groups.{group_of};
ghost use Rattle.dr_world.specs.Held.{its_group, its_world};
ghost use Rattle.dr_agree.specs.Certain.{DoneHoldAll, ViewsAgreed, WholeAreOne};

use dr_entry::Entry;
use dr_oracle::is_prefix;
use dr_restart::Start;
use dr_script::Script;
use dr_world::{Event, World};
use std::alloc::{AllocError, Global};

/// Runs the group of a script from a start through these events, whatever they are: those that may
/// not come change nothing. In the world after them the members agree on their histories and on their
/// views, members that have ended as done have everything, and no slot holds a later item than the one
/// that a member waits for there.
///
/// # Errors
///
/// Want of memory alone, before the first event.
pub fn agreed_run(
    alloc: Global,
    script: &Script,
    start: &Start,
    events: &[Event],
) -> Result<World, AllocError>
    requires ranges { HasGroupRanges script.now }
    requires group { IsGroup (group_of script.now start.now) }
    ensures run { IfOk result (λ w. Run (group_of script.now start.now)
        (opening_world (group_of script.now start.now)) events.now (its_world w)) }
    ensures agreed { IfOk result (λ w. WorldAgreed (group_of script.now start.now) (its_world w)) }
    ensures views { IfOk result (λ w. ViewsAgreed (group_of script.now start.now) (its_world w)) }
    ensures done { IfOk result (λ w. DoneHoldAll (group_of script.now start.now) (its_world w)) }
    ensures whole { IfOk result (λ w. WholeAreOne (group_of script.now start.now) (its_world w)) }
    ensures no_later_item { IfOk result (λ w. NoLaterItem (group_of script.now start.now) (its_world w)) }
    ensures script { IfOk result (λ w. w.script ≡ script.now) }
    ensures start { IfOk result (λ w. w.start ≡ start.now) }
{
    let mut world = World::opening(alloc, script, start)?;
    world.run(events);
    Ok(world)
}

/// Whether the members of a world agree. It compares each two histories of members that are there, whether one
/// is a prefix of the other; the rest needs no test, since a [`World`] is always one that events lead to. It
/// takes no memory.
pub fn agree(world: &World) -> bool
    ensures { IsTrue result ↔ WorldAgreed (its_group world.now) (its_world world.now) }
{
    let members = world.members();
    for i in 0..members {
        for j in 0..members {
            if !agree_on(world, i, j) {
                return false;
            }
        }
    }
    true
}

/// Whether one of the histories of two members is a prefix of the other, where both are there.
fn agree_on(world: &World, i: u8, j: u8) -> bool
    requires one { i < roster (its_group world.now) }
    requires other { j < roster (its_group world.now) }
    ensures { IsTrue result ↔ (IsPresent (its_group world.now) i → IsPresent (its_group world.now) j
        → IsPrefixOf ((its_world world.now).past.history i) ((its_world world.now).past.history j)
        ⊎ IsPrefixOf ((its_world world.now).past.history j) ((its_world world.now).past.history i)) }
{
    let both = world.is_present(i) && world.is_present(j);
    !both || is_either_prefix(world.history(i), world.history(j))
}

/// Whether one of two histories is a prefix of the other.
fn is_either_prefix(one: &[Entry], other: &[Entry]) -> bool
    ensures { IsTrue result ↔ (IsPrefixOf one.now other.now ⊎ IsPrefixOf other.now one.now) }
{
    is_prefix(one, other) || is_prefix(other, one)
}
