//! What counts the points of a run at which a member may crash.
ghost use Rattle.std.specs.Prelude.{◌≡◌, IfOk};
ghost use Rattle.dr_tools.specs.Crashes.{is_push, push_done, turn_at, turn_begun, uncounted, with_points};

use dr_member::Member;
use dr_program::Deed;
use dr_restart::Start;
use dr_script::Script;
use dr_sim::Watcher;
use std::alloc::{AllocError, Global};
use std::marker::Model;

/// Counts for each turn of a member at how many points it may crash: behind its last push, and before each.
#[derive(Drop)]
pub(crate) struct Counter {
    member: u8,
    /// How many turns a member takes at most in an age.
    turns: u32,
    age: u16,
    /// For each turn of each age, one age behind the other.
    points: Vec<u16>,
}

impl Model for Counter {
    ghost use Rattle.dr_tools.specs.Crashes.{Counted};

    ghost Value = { Counted };

    ghost view = { λ c. record {
      member = c.member;
      turns = c.turns;
      age = c.age;
      points = c.points.items;
    } };
}

impl Counter {
    /// One that has counted nothing of the run of a script.
    pub(crate) fn new(alloc: Global, script: &Script, member: u8) -> Result<Counter, AllocError>
        ensures { IfOk result (λ c. c ≡ uncounted script.now member) }
    {
        let turns = usize::from(script.ages) * script.turns as usize;
        Ok(Counter {
            member,
            turns: script.turns,
            age: 0,
            points: vec![in alloc; 0u16; turns]?,
        })
    }

    /// For each turn of each age, one age behind the other, at how many points the member may crash.
    pub(crate) fn points(&self) -> &[u16]
        ensures { result.now ≡ self.now.points }
    {
        self.points.as_slice()
    }

    /// The place of the turn of this age that is behind so many others.
    fn turn_at(&self, turn: u32) -> usize
        ensures { result ≡ turn_at self.now turn }
    {
        usize::from(self.age) * self.turns as usize + turn as usize
    }

    /// The member begins a turn behind so many others.
    fn begin_turn(&mut self, turns: u32)
        ensures { self.new ≡ turn_begun self.old turns }
    {
        let at = self.turn_at(turns);
        self.set_points(at, 1);
    }

    /// The member pushes a word in the last of so many turns.
    fn push(&mut self, turns: u32)
        ensures { self.new ≡ push_done self.old turns }
    {
        let at = self.turn_at(turns.saturating_sub(1));
        let points = match self.points.get(at) {
            Some(points) => *points,
            None => 0,
        };
        self.set_points(at, points.saturating_add(1));
    }

    fn set_points(&mut self, at: usize, points: u16)
        ensures { self.new ≡ with_points at points self.old }
    {
        if at < self.points.len() {
            self.points[at] = points;
        }
    }
}

impl Watcher for Counter {
    ghost use Rattle.std.specs.Prelude.{◌≡◌};
    ghost use Rattle.dr_tools.specs.Crashes.{counted};

    ghost opens = { λ old start new. new ≡ record old { age = start.age } };

    ghost sees = { λ old member table new. new ≡ counted old member };

    ghost closes = { λ old members table new. new ≡ old };

    fn open(&mut self, start: &Start) {
        self.age = start.age;
    }

    fn takes_note(&self) -> bool {
        true
    }

    fn see(&mut self, member: &Member, _table: &[u64]) {
        if member.me() != self.member {
            return;
        }
        if member.at_beat() {
            self.begin_turn(member.turns());
        } else if is_push(&member.next()) {
            self.push(member.turns());
        }
    }

    fn close(&mut self, _members: &[Option<Member>], _table: &[u64]) {}
}

fn is_push(deed: &Deed) -> bool
    ensures { result ≡ is_push deed.now }
{
    matches!(deed, Deed::Push(_, _))
}
