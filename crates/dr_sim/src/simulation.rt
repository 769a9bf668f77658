ghost use Rattle.std.specs.Prelude.{◌≡◌, ℕ, ◌<◌, ◌≤◌, ◌↔◌, IfOk, OnOk, IsTrue, List, None, Option, Some, false, is_some, length, replicate};
ghost use Rattle.dr_history.specs.Members.{members_of};
ghost use Rattle.dr_machine.specs.Group.{Group, IsGroup, late_members};
ghost use Rattle.dr_program.specs.{Form.IsRunningMember, Presence.present_at, Program.{AllEnded, Program, has_ended}};
ghost use Rattle.dr_program.specs.Running.{Running};
ghost use Rattle.dr_restart.specs.{Groups.group_of, Setups.IsBegun};
ghost use Rattle.dr_script.specs.{Ranges.HasRanges, declared.script.Schedule.TheVariants.Seed};
ghost use Rattle.dr_log.specs.State.{LogState};
ghost use Rattle.dr_play.specs.{Logged.{AreAsBefore, AreCalm}, Sound.IsSound};
ghost use Rattle.dr_served.specs.Served.{AreReady, AreRoomy, AtMember, HaveSamePlaces, HaveServed};
ghost use Rattle.dr_sim.specs.{Places.{HasServedAt, IsReadyAt}, Rooms.{GotRoomAt, StaysAt}, Simulated.HasRun};
ghost use Rattle.dr_sim.specs.{Sound.{AreOthers, TookTurn}, Watched.WasTold};

use crate::deed::{all_ended, has_ended, take_turn};
use crate::seeded::run_by_seed;
use crate::watcher::Watcher;
use dr_disk::Disk;
use dr_log::Log;
use dr_member::Member;
use dr_play::begun_members;
use dr_restart::{Start, late_of, shape_of};
use dr_script::Script;
use dr_world::Posts;
use std::alloc::{AllocError, Global};
use std::marker::Model;

/// The running members of a group, over the words of one table and the letters for late members. Contracts see it
/// as the machine's program.
#[derive(Drop)]
pub struct Simulation {
    members: Vec<Option<Member>>,
    table: Vec<u64>,
    posts: Posts,
}

impl Model for Simulation {
    ghost use Rattle.dr_program.specs.Program.{Program};

    ghost Value = { Program };

    ghost use Rattle.dr_sim.specs.Inside.{AreListsLeft, program_of};

    ghost view = { program_of };

    ghost invariant = { AreListsLeft };
}

impl Simulation {
    /// The members of a script's group as an age opens, and the empty table. `nth` is the number of the
    /// age in the run, from 0. No later call takes memory.
    ///
    /// # Errors
    ///
    /// Want of memory alone.
    pub fn begin(
        alloc: Global,
        script: &Script,
        start: &Start,
        nth: u8,
    ) -> Result<Simulation, AllocError>
        requires ranges { HasRanges script.now }
        requires group { IsGroup (group_of script.now start.now) }
        ensures begun { IfOk result (λ s. IsBegun script.now start.now nth s) }
        ensures sound { IfOk result (λ s. IsSound (group_of script.now start.now) s) }
    {
        let members = begun_members(alloc, script, start, nth)?;
        let posts = no_posts(alloc, script, start, members.as_slice())?;
        Ok(Simulation {
            members,
            table: vec![in alloc; 0; shape_of(script, start).words()]?,
            posts,
        })
    }

    /// Makes room on the logs for all that the members may append.
    ///
    /// # Errors
    ///
    /// Want of memory alone.
    pub fn make_room<D: Disk>(&self, logs: &mut [Option<Log<D>>]) -> Result<(), AllocError>
        requires all { length logs.old ≡ length self.now.members }
        ensures room { OnOk result (AreRoomy D.told D.faults self.now.members logs.old logs.new) }
        ensures kept { AreAsBefore logs.old logs.new }
        ensures calm { AreCalm D.told D.faults logs.old logs.new }
        ensures places { HaveSamePlaces logs.old logs.new }
    {
        for m in 0..logs.len() {
            make_room_at(&self.members[m], &mut logs[m])?;
        }
        Ok(())
    }

    /// Tells a watcher how the members and the table stand.
    pub fn tell_end<W: Watcher>(&self, watcher: &mut W)
        ghost group: { Group }
        requires sound { IsSound group self.now }
        ensures { W.closes watcher.old self.now.members self.now.table watcher.new }
    {
        watcher.close(&self.members, &self.table);
    }

    /// The members, by number; there is none at the place of one that is absent.
    pub fn into_members(self) -> Vec<Option<Member>>
        ensures { result.items ≡ self.members }
    {
        self.members
    }

    /// The number of members of the roster.
    pub fn len(&self) -> usize
        ensures { result ≡ length self.now.members }
    {
        self.members.len()
    }

    /// Whether member `m` has ended, or is absent.
    pub fn has_ended(&self, m: usize) -> bool
        requires { m < length self.now.members }
        ensures { result ≡ has_ended (present_at self.now.members m) }
    {
        has_ended(&self.members[m])
    }

    /// Whether all members have ended.
    pub fn all_ended(&self) -> bool
        ensures { IsTrue result ↔ AllEnded self.now }
    {
        all_ended(&self.members)
    }

    /// Runs the members to their ends, one deed at a time: each is of the member that the generator of
    /// this seed chooses among those that have not ended. The watcher is told of it first.
    pub fn run_seeded<D: Disk, W: Watcher>(
        &mut self,
        seed: u64,
        logs: &mut [Option<Log<D>>],
        watcher: &mut W,
    )
        ghost group: { Group }
        requires sound { IsSound group self.old }
        requires ready { AreReady logs.old self.old.members }
        ensures run { (run : HasRun (Seed seed) self.old self.new)
            × WasTold W.sees self.old run.moves watcher.old watcher.new }
        ensures sound { IsSound group self.new }
        ensures ready { AreReady logs.new self.new.members }
        ensures places { HaveSamePlaces logs.old logs.new }
        ensures served { (bases : List (Option (LogState D)))
            → HaveServed D.told D.faults bases logs.old self.old.members
            → HaveServed D.told D.faults bases logs.new self.new.members }
    {
        run_by_seed(
            self.members.as_mut_slice(),
            self.table.as_mut_slice(),
            &mut self.posts,
            seed,
            logs,
            watcher,
        );
    }

    /// Member `m`, which has not ended, takes a whole turn, with the log at its place: its deeds up to the first after
    /// which it has ended or stands before a turn. A watcher that takes note of deeds is told of each first.
    pub fn take_turn<D: Disk, W: Watcher>(
        &mut self,
        m: usize,
        place: &mut Option<Log<D>>,
        watcher: &mut W,
    )
        ghost group: { Group }
        requires sound { IsSound group self.old }
        requires going { has_ended (present_at self.old.members m) ≡ false }
        requires ready { AtMember self.old m (IsReadyAt place.old) }
        ensures took { (took : TookTurn group self.old m self.new)
            × WasTold W.sees self.old took.moves watcher.old watcher.new }
        ensures others { AreOthers self.old m self.new }
        ensures ready { AtMember self.new m (IsReadyAt place.new) }
        ensures stays { is_some place.new ≡ is_some place.old }
        ensures served { (base : LogState D) → AtMember self.old m (HasServedAt D.told D.faults base place.old)
            → AtMember self.new m (HasServedAt D.told D.faults base place.new) }
    {
        let Some(member) = &mut self.members[m] else {
            unreachable!()
        };
        take_turn(member, &mut self.table, &mut self.posts, place, watcher);
    }
}

/// Makes room on a log for all that the member of its number may append, where both are there.
fn make_room_at<D: Disk>(
    member: &Option<Member>,
    place: &mut Option<Log<D>>,
) -> Result<(), AllocError>
    ensures room { OnOk result (GotRoomAt D.told D.faults member.now place.old place.new) }
    ensures stays { StaysAt D.told D.faults place.old place.new }
{
    let Some(member) = member else {
        return Ok(());
    };
    let Some(log) = place else {
        return Ok(());
    };
    log.reserve(member.appends_left(), member.votes_left())
}

/// No letters, and the memory for one of each late member, with room for the history of any of these members.
fn no_posts(
    alloc: Global,
    script: &Script,
    start: &Start,
    members: &[Option<Member>],
) -> Result<Posts, AllocError>
    requires { (m : ℕ) (r : Running) → present_at members.now m ≡ Some r → IsRunningMember r }
    ensures letters { IfOk result (λ posts. posts.letters ≡ replicate script.now.members None) }
    ensures left { IfOk result (λ posts.
        posts.left ≡ length (members_of (late_members (group_of script.now start.now)))) }
    ensures room { IfOk result (λ posts.
        (m : ℕ) (r : Running) → present_at members.now m ≡ Some r → r.replica.room ≤ posts.room) }
{
    let late = late_of(start).count();
    Posts::none(alloc, script.members, late, most_room(members))
}

/// The room of the member that has the most for its history.
fn most_room(members: &[Option<Member>]) -> usize
    requires { (m : ℕ) (r : Running) → present_at members.now m ≡ Some r → IsRunningMember r }
    ensures { (m : ℕ) (r : Running) → present_at members.now m ≡ Some r → r.replica.room ≤ result }
{
    let mut most = 0;
    for place in members {
        if let Some(member) = place {
            most = most.max(room_of(member));
        }
    }
    most
}

/// How many entries the history of a member has room for.
fn room_of(member: &Member) -> usize
    requires { IsRunningMember member.now }
    ensures { result ≡ member.now.replica.room }
{
    member.appends_left() + member.logged() as usize
}
