ghost use Rattle.std.specs.Prelude.{◌≡◌, ◌↔◌, ◌<◌, IfOk, IsTrue, false};
ghost use Rattle.dr_history.specs.Order.{first_entries};
ghost use Rattle.dr_machine.specs.{Acts.Guard, Group.{IsGroup, IsPresent, banks, columns, roster}};
ghost use Rattle.dr_machine.specs.Run.{ComesOfEvents, Happens, Run, WordsGrew};
ghost use Rattle.dr_machine.specs.World.{items_received, opening_world};
ghost use Rattle.dr_script.specs.Ranges.{HasGroupRanges};
ghost use Rattle.dr_program.specs.Presence.{present_at};
ghost use Rattle.dr_restart.specs.Groups.{group_of};
ghost use Rattle.dr_world.specs.Held.{AreMembers, its_group, its_world};

use crate::opening::{copy_script, first_entries, no_posts, replicas_of};
use crate::posts::Posts;
use crate::steps::{carry_out, may_come};
use dr_entry::{Entry, SentItem};
use dr_machine::Event;
use dr_replica::Replica;
use dr_restart::{Start, late_of, shape_of};
use dr_script::Script;
use dr_words::{Mask, Shape};
use std::alloc::{AllocError, Global};
use std::marker::Model;

/// The world of a group in one age: what each member has and has seen, the words of the
/// table, and the letters.
#[derive(Drop)]
pub struct World {
    script: Script,
    start: Start,
    // The entries that every history begins with.
    first: Vec<Entry>,
    // A place for each member of the roster, which is empty where the member is absent.
    replicas: Vec<Option<Replica>>,
    table: Vec<u64>,
    posts: Posts,
}

impl Model for World {
    ghost use Rattle.dr_world.specs.Held.{Held};

    ghost Value = { Held };

    ghost use Rattle.dr_world.specs.Inside.{IsInsideWorld, held_of};

    ghost view = { held_of };

    ghost invariant = { IsInsideWorld };
}

impl World {
    /// The world of the script's group as the age of this start opens. It keeps copies of both. All
    /// memory of the age is taken here.
    ///
    /// # Errors
    ///
    /// Want of memory alone.
    pub fn opening(alloc: Global, script: &Script, start: &Start) -> Result<World, AllocError>
        requires ranges { HasGroupRanges script.now }
        requires group { IsGroup (group_of script.now start.now) }
        ensures opening { IfOk result (λ w. its_world w ≡ opening_world (group_of script.now start.now)) }
        ensures script { IfOk result (λ w. w.script ≡ script.now) }
        ensures start { IfOk result (λ w. w.start ≡ start.now) }
    {
        let replicas = replicas_of(alloc, script, start)?;
        let posts = no_posts(alloc, script, start, replicas.as_slice())?;
        Ok(World {
            script: copy_script(alloc, script)?,
            start: start.copy(alloc)?,
            first: first_entries(alloc, script, start)?,
            replicas,
            table: vec![in alloc; 0; shape_of(script, start).words()]?,
            posts,
        })
    }

    /// Takes one event: whether it may come, and then it does what it does. An event that may not come
    /// changes nothing.
    pub fn step(&mut self, event: &Event) -> bool
        ensures event { Happens (its_group self.old) (its_world self.old) event.now (its_world self.new) }
        ensures done { IsTrue result ↔ Guard (its_group self.old) (its_world self.old) event.now }
        ensures same { result ≡ false → self.new ≡ self.old }
        ensures script { self.new.script ≡ self.old.script }
        ensures start { self.new.start ≡ self.old.start }
        ensures grown { WordsGrew (its_group self.old) (its_world self.old) (its_world self.new) }
    {
        let number = event.member();
        let m = usize::from(number);
        let letter = self.posts.letter(number);
        if m >= self.replicas.len() || !may_come(&self.replicas[m], letter, event) {
            return false;
        }
        let Some(replica) = &mut self.replicas[m] else {
            unreachable!()
        };
        carry_out(replica, self.table.as_mut_slice(), &mut self.posts, event);
        true
    }

    /// Takes these events, one after the other. Those that may not come change nothing.
    pub fn run(&mut self, events: &[Event])
        ensures run { Run (its_group self.old) (its_world self.old) events.now (its_world self.new) }
        ensures script { self.new.script ≡ self.old.script }
        ensures start { self.new.start ≡ self.old.start }
    {
        for event in events {
            self.step(event);
        }
    }

    /// The script of the group.
    pub fn script(&self) -> &Script
        ensures { result.now ≡ self.now.script }
    {
        &self.script
    }

    /// The start of the age.
    pub fn start(&self) -> &Start
        ensures { result.now ≡ self.now.start }
    {
        &self.start
    }

    /// The number of members of the roster.
    pub fn members(&self) -> u8
        ensures members { result ≡ roster (its_group self.now) }
        ensures group { IsGroup (its_group self.now) }
        ensures events { ComesOfEvents (its_group self.now) (its_world self.now) }
    {
        self.replicas.len() as u8
    }

    /// Whether a member is there in this age. One that is absent stays as the age opens.
    pub fn is_present(&self, m: u8) -> bool
        requires { m < roster (its_group self.now) }
        ensures { IsTrue result ↔ IsPresent (its_group self.now) m }
    {
        Mask::of(self.start.present).has(m)
    }

    /// What a member has delivered, with what every history begins with.
    pub fn history(&self, m: u8) -> &[Entry]
        requires { m < roster (its_group self.now) }
        ensures { result.now ≡ (its_world self.now).past.history m }
    {
        match self.replica(m) {
            Some(replica) => replica.history(),
            None => self.first(),
        }
    }

    /// What a member has put in its view.
    pub fn sent(&self, m: u8) -> &[SentItem]
        requires { m < roster (its_group self.now) }
        ensures { result.now ≡ (its_world self.now).past.sent m ((its_world self.now).past.view m) }
    {
        match self.replica(m) {
            Some(replica) => replica.sent(),
            None => &[],
        }
    }

    /// The entries on a member's log: the first ones of its history.
    pub fn log(&self, m: u8) -> &[Entry]
        requires { m < roster (its_group self.now) }
        ensures { result.now ≡ (its_world self.now).past.log m }
    {
        match self.replica(m) {
            Some(replica) => &replica.history()[..replica.logged() as usize],
            None => self.first(),
        }
    }

    /// How many entries a member knows to be durable.
    pub fn durable(&self, m: u8) -> u64
        requires { m < roster (its_group self.now) }
        ensures { result ≡ (its_world self.now).past.durable m }
    {
        match self.replica(m) {
            Some(replica) => replica.durable(),
            None => self.first().len() as u64,
        }
    }

    /// How many items of the sender `s` a member has in its view: received ones, or, of itself, those
    /// that it has put.
    pub fn received(&self, m: u8, s: u8) -> u32
        requires member { m < roster (its_group self.now) }
        requires sender { s < roster (its_group self.now) }
        ensures { result ≡ items_received (its_world self.now) m s }
    {
        match self.replica(m) {
            Some(replica) => replica.count(s),
            None => 0,
        }
    }

    /// The word of a column in a row of a member's copy of the table, in the bank of its view.
    pub fn word(&self, m: u8, row: u8, column: usize) -> u64
        requires member { m < roster (its_group self.now) }
        requires row { row < roster (its_group self.now) }
        requires column { column < columns (its_group self.now) }
        ensures { result ≡ (its_world self.now).table ((its_world self.now).past.view m) m row column }
    {
        let index = self.shape().word_index(self.view(m), m, row, column);
        self.table[index]
    }

    /// The shape of the table.
    fn shape(&self) -> Shape
        ensures members { result.members ≡ roster (its_group self.now) }
        ensures window { result.window ≡ (its_group self.now).window }
        ensures banks { result.banks ≡ banks (its_group self.now) }
    {
        let members = self.members();
        Shape {
            members,
            window: self.script.window,
            banks: members + late_of(&self.start).count(),
        }
    }

    /// The number of the view that a member is in.
    fn view(&self, m: u8) -> u8
        requires { m < roster (its_group self.now) }
        ensures view { result ≡ (its_world self.now).past.view m }
        ensures bank { result < banks (its_group self.now) }
    {
        match self.replica(m) {
            Some(replica) => replica.view(),
            None => 0,
        }
    }

    /// The entries that every history begins with.
    fn first(&self) -> &[Entry]
        ensures { result.now ≡ first_entries (its_group self.now).opening }
    {
        self.first.as_slice()
    }

    /// What stands at the place of a member: its replica, or nothing where it is absent.
    fn replica(&self, m: u8) -> &Option<Replica>
        requires { m < roster (its_group self.now) }
        ensures replica { present_at self.now.replicas m ≡ result.now }
        ensures members { AreMembers (its_group self.now) self.now.replicas }
    {
        &self.replicas[usize::from(m)]
    }
}
