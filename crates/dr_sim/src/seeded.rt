//! Members take single deeds, as a generator chooses.
//!
//! A deed answers whether its member has ended, so looks and pushes, which are most and end nobody, ask
//! nothing. What is due to a member that goes on is a call of its own (`due_deed`). How many go on is asked
//! once until one ends, and the generator's constants are its fields, so that a compiler holds them. Members
//! and words are slices, so where they begin is read once; a log is handed on as its place, where an append
//! alone looks whether there is one; a number is struck off the list in a function of its own. So a deed
//! keeps neither the number nor its place in the list at hand. Together these are a fifth of a seeded run.
ghost use Rattle.std.specs.{List.remove, Prelude.{◌≡◌, ◌+◌, ◌<◌, ◌≤◌, ℕ, List, false, length, Option}};
ghost use Rattle.dr_machine.specs.Group.{Group};
ghost use Rattle.dr_program.specs.{Presence.present_at, Program.has_ended, Schedule.{choice_of, going}};
ghost use Rattle.dr_script.specs.declared.script.Schedule.TheVariants.{Seed};
ghost use Rattle.dr_log.specs.State.{LogState};
ghost use Rattle.dr_served.specs.Served.{AreReady, AtMember, HaveServed, HaveSamePlaces};
ghost use Rattle.dr_entry.specs.declared.entry.Entry.{Entry};
ghost use Rattle.dr_sim.specs.{Lists.HaveSpares, Simulated.HasRun, Sound.{TookDeed, program_over}, Watched.WasTold};
ghost use Rattle.dr_play.specs.Sound.{IsSound};

use crate::deed::{has_ended, take};
use crate::lcg::{Lcg, choice};
use crate::watcher::Watcher;
use arrayvec::ArrayVec;
use dr_disk::Disk;
use dr_entry::MAX_MEMBERS;
use dr_log::Log;
use dr_member::Member;
use dr_world::Posts;

/// Runs these members over these words and letters to their ends, one deed at a time: each is of the member that the
/// generator of this seed chooses among those that have not ended. The watcher is told of it first. It has
/// members and words as slices, so that where they stand is read once for all deeds.
#[inline(never)]
pub fn run_by_seed<D: Disk, W: Watcher>(
    members: &mut [Option<Member>],
    table: &mut [u64],
    posts: &mut Posts,
    seed: u64,
    logs: &mut [Option<Log<D>>],
    watcher: &mut W,
)
    ghost group: { Group }
    requires sound { IsSound group (program_over members.old table.old posts.old.letters) }
    requires ready { AreReady logs.old members.old }
    requires lists { HaveSpares posts.old members.old }
    ensures run { (run : HasRun (Seed seed) (program_over members.old table.old posts.old.letters)
        (program_over members.new table.new posts.new.letters))
        × WasTold W.sees (program_over members.old table.old posts.old.letters) run.moves watcher.old watcher.new }
    ensures sound { IsSound group (program_over members.new table.new posts.new.letters) }
    ensures ready { AreReady logs.new members.new }
    ensures lists { HaveSpares posts.new members.new }
    ensures places { HaveSamePlaces logs.old logs.new }
    ensures served { (bases : List (Option (LogState D)))
        → HaveServed D.told D.faults bases logs.old members.old
        → HaveServed D.told D.faults bases logs.new members.new }
{
    let mut lcg = Lcg::new(seed);
    let mut going = going(members);
    'members: while !going.is_empty() {
        // How many they are changes only as one ends, so it is asked once for all deeds until then.
        let few = going.len() as u32;
        'deeds: loop {
            let at = lcg.choose_few(few) as usize;
            let m = going[at];
            if take_deed(members, table, posts, m, logs, watcher) {
                strike(&mut going, lcg.state());
                break;
            }
        }
    }
}

/// Member `m`, which has not ended, takes its next deed, with the log at its place. Answers whether it has
/// ended.
#[inline(always)]
fn take_deed<D: Disk, W: Watcher>(
    members: &mut [Option<Member>],
    table: &mut [u64],
    posts: &mut Posts,
    m: usize,
    logs: &mut [Option<Log<D>>],
    watcher: &mut W,
) -> bool
    ghost group: { Group }
    requires sound { IsSound group (program_over members.old table.old posts.old.letters) }
    requires going { has_ended (present_at members.old m) ≡ false }
    requires within { m < length members.old }
    requires ready { AreReady logs.old members.old }
    requires lists { HaveSpares posts.old members.old }
    ensures took { TookDeed group (program_over members.old table.old posts.old.letters) m
        (program_over members.new table.new posts.new.letters) }
    ensures ended { result ≡ has_ended (present_at members.new m) }
    ensures ready { AreReady logs.new members.new }
    ensures lists { HaveSpares posts.new members.new }
    ensures places { HaveSamePlaces logs.old logs.new }
    ensures served { (bases : List (Option (LogState D)))
        → HaveServed D.told D.faults bases logs.old members.old
        → HaveServed D.told D.faults bases logs.new members.new }
    ensures told { AtMember (program_over members.old table.old posts.old.letters) m
        (λ r. W.sees watcher.old r table.old watcher.new) }
{
    let Some(member) = &mut members[m] else {
        unreachable!()
    };
    // It knows its number, so that a deed need not keep it for the append that may come.
    let me = usize::from(member.me());
    take(member, table, posts, &mut logs[me], watcher)
}

/// The numbers of the members that have not ended, ascending.
fn going(members: &[Option<Member>]) -> ArrayVec<usize, MAX_MEMBERS>
    requires { length members.now ≤ MAX_MEMBERS }
    ensures { (words : List ℕ) (letters : List (Option (List Entry)))
        → result.items ≡ going (program_over members.now words letters) }
{
    let mut going = ArrayVec::new();
    for m in 0..members.len() {
        if !has_ended(&members[m]) {
            going.push(m);
        }
    }
    going
}

/// Strikes the number that this state of the generator chose off the list. Out of line, and by the state, so
/// that a deed need not keep the place.
#[inline(never)]
fn strike(going: &mut ArrayVec<usize, MAX_MEMBERS>, state: u64)
    requires { 0 < length going.old.items }
    ensures items { going.new.items ≡ remove going.old.items (choice_of state (length going.old.items)) }
    ensures len { length going.new.items + 1 ≡ length going.old.items }
{
    let at = choice(state, going.len() as u32);
    going.remove(at as usize);
}
