//! What a world opens with.
ghost use Rattle.std.specs.Prelude.{◌≡◌, ℕ, ◌<◌, ◌≤◌, IfOk, None, Some, length, replicate};
ghost use Rattle.dr_history.specs.{Members.members_of, Order.first_entries};
ghost use Rattle.dr_machine.specs.Group.{IsGroup, late_members};
ghost use Rattle.dr_program.specs.{Presence.present_at, Replica.Replica as ReplicaOf};
ghost use Rattle.dr_script.specs.Ranges.{HasGroupRanges};
ghost use Rattle.dr_restart.specs.Groups.{group_of};
ghost use Rattle.dr_world.specs.Begun.{HasReplica, HaveBegun};

use crate::posts::Posts;
use dr_entry::{Entry, Seq};
use dr_replica::Replica;
use dr_restart::{Start, copy_entries, copy_messages, late_of, setup_of};
use dr_script::Script;
use dr_words::Mask;
use std::alloc::{AllocError, Global};

/// The replicas of the members, by number, as the age opens; there is none at the place of a member that is
/// absent.
pub(crate) fn replicas_of(
    alloc: Global,
    script: &Script,
    start: &Start,
) -> Result<Vec<Option<Replica>>, AllocError>
    requires ranges { HasGroupRanges script.now }
    requires group { IsGroup (group_of script.now start.now) }
    ensures { IfOk result (λ rs. HaveBegun script.now start.now script.now.members rs.items) }
{
    let mut replicas = Vec::with_capacity(alloc, usize::from(script.members))?;
    for me in 0..script.members {
        replicas.push(replica_of(alloc, script, start, me)?)?;
    }
    Ok(replicas)
}

/// The replica of the member `me` as the age opens; `None` exactly where it is absent.
fn replica_of(
    alloc: Global,
    script: &Script,
    start: &Start,
    me: u8,
) -> Result<Option<Replica>, AllocError>
    requires ranges { HasGroupRanges script.now }
    requires group { IsGroup (group_of script.now start.now) }
    requires me { me < script.now.members }
    ensures { IfOk result (HasReplica script.now start.now me) }
{
    if !Mask::of(start.present).has(me) {
        return Ok(None);
    }
    let setup = setup_of(alloc, script, start, 0, me)?;
    Ok(Some(Replica::begin(alloc, setup)?))
}

/// No letters, and the memory for one of each late member, with room for the history of any of these replicas.
pub(crate) fn no_posts(
    alloc: Global,
    script: &Script,
    start: &Start,
    replicas: &[Option<Replica>],
) -> Result<Posts, AllocError>
    ensures letters { IfOk result (λ posts. posts.letters ≡ replicate script.now.members None) }
    ensures left { IfOk result (λ posts.
        posts.left ≡ length (members_of (late_members (group_of script.now start.now)))) }
    ensures room { IfOk result (λ posts.
        (m : ℕ) (r : ReplicaOf) → present_at replicas.now m ≡ Some r → r.room ≤ posts.room) }
{
    let late = late_of(start).count();
    Posts::none(alloc, script.members, late, most_room(replicas))
}

/// The room of the replica that has the most for its history.
fn most_room(replicas: &[Option<Replica>]) -> usize
    ensures { (m : ℕ) (r : ReplicaOf) → present_at replicas.now m ≡ Some r → r.room ≤ result }
{
    let mut most = 0;
    for place in replicas {
        if let Some(replica) = place {
            most = most.max(replica.room());
        }
    }
    most
}

/// The entries that every history of the age begins with.
pub(crate) fn first_entries(
    alloc: Global,
    script: &Script,
    start: &Start,
) -> Result<Vec<Entry>, AllocError>
    ensures { IfOk result (λ entries. entries.items
        ≡ first_entries (group_of script.now start.now).opening) }
{
    let mut entries = copy_entries(alloc, &start.entries)?.into_vec();
    entries.push(Entry::View {
        age: start.age,
        number: 0,
        members: start.members,
    })?;
    Ok(entries)
}

/// An equal script.
pub(crate) fn copy_script(alloc: Global, script: &Script) -> Result<Script, AllocError>
    ensures { IfOk result (λ copy. copy ≡ script.now) }
{
    let lists = script.messages.as_slice();
    let mut messages = Vec::with_capacity(alloc, lists.len())?;
    for list in lists {
        messages.push(copy_messages(alloc, list)?)?;
    }
    let mut faults = Vec::new(alloc);
    faults.extend_from_slice(script.faults.as_slice())?;
    Ok(Script {
        members: script.members,
        window: script.window,
        turns: script.turns,
        patience: script.patience,
        ages: script.ages,
        messages: Seq::of(messages),
        faults: Seq::of(faults),
        schedule: script.schedule,
    })
}
