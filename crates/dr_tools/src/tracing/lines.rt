//! The watcher that tells the line of each event.
ghost use Rattle.std.specs.List.{enumerate_from, flat_map};
ghost use Rattle.std.specs.Prelude.{◌≡◌, ◌+◌, ◌^◌, ◌<◌, ◌++◌, None, OnOk, length, slice_index_or, string_bytes};
ghost use Rattle.dr_program.specs.{Form.IsRunningMember, Replica.me};
ghost use Rattle.dr_seeing.specs.Output.{Tells};
ghost use Rattle.dr_tools.specs.Following.{came_line, came_text, told_past_deed};

use dr_entry::{Entry, MAX_MEMBERS};
use dr_io::Sink;
use dr_machine::{Act, Step};
use dr_member::Member;
use dr_restart::Start;
use dr_seeing::Output;
use dr_sim::Watcher;
use dr_text::push_entry;
use std::alloc::{AllocError, Global};
use std::fmt::Write;
use std::marker::Model;

/// Tells a line for each age that opens, for each deed, and for each entry that comes to a history otherwise than by a
/// delivery.
#[derive(Drop)]
pub(crate) struct Lines<K: Sink> {
    pub output: Output<K>,
    alloc: Global,
    /// How many entries of the history of each member are told.
    told: [usize; MAX_MEMBERS],
}

impl<K: Sink> Model for Lines<K> {
    ghost use Rattle.dr_tools.specs.Following.{Followed};

    ghost Value = { Followed };

    ghost view = { λ l. record { output = l.output; told = l.told } };
}

impl<K: Sink> Lines<K> {
    /// Nothing is told yet.
    pub(crate) fn new(alloc: Global, output: Output<K>) -> Lines<K>
        ensures { result.output ≡ output }
    {
        Lines {
            output,
            alloc,
            told: [0; MAX_MEMBERS],
        }
    }

    /// Tells the entries of a member's history that aren't told yet.
    #[tactic(auto, using(crate::proofs::Followings::none_told, dr_program::proofs::Received::running_number))]
    fn tell_came(&mut self, member: &Member)
        requires { IsRunningMember member.now }
        ensures tells { Tells (came_text (me member.now.replica)
            (slice_index_or self.old.told (me member.now.replica) 0) member.now.replica.history)
            self.old.output self.new.output }
        ensures same { self.new.told ≡ self.old.told }
    {
        let told = self.told[usize::from(member.me())];
        let history = member.history();
        if told >= history.len() {
            return;
        }
        let mut text = String::new(self.alloc);
        match push_came_lines(&mut text, member.me(), told, &history[told..]) {
            Ok(()) => self.output.tell(text.as_str()),
            Err(_) => self.output.give_up(),
        }
    }
}

/// Appends a line for each of these entries of a member's history, the first of which has this number.
fn push_came_lines(
    out: &mut String,
    me: u8,
    first: usize,
    entries: &[Entry],
) -> Result<(), AllocError>
    requires { first + length entries.now < 2 ^ 64 }
    ensures { OnOk result (string_bytes out.new ≡ string_bytes out.old
        ++ flat_map (λ t. came_line me (first + t.0) t.1) (enumerate_from 0 entries.now)) }
{
    for (index, entry) in entries.iter().enumerate() {
        push_came_line(out, me, first + index, entry)?;
    }
    Ok(())
}

fn push_came_line(out: &mut String, me: u8, number: usize, entry: &Entry) -> Result<(), AllocError>
    ensures { OnOk result
        (string_bytes out.new ≡ string_bytes out.old ++ came_line me number entry.now) }
{
    write!(out, "{me} entry {number}")?;
    push_entry(out, entry)
}

/// How many entries of its history are told once the line of a member's next deed is: a delivery tells its own.
fn told_past_deed(member: &Member) -> usize
    requires going { member.now.replica.end ≡ None }
    requires form { IsRunningMember member.now }
    ensures { result ≡ told_past_deed member.now }
{
    let delivers = matches!(member.step(), Step::Do(Act::Deliver));
    member.history().len() + usize::from(delivers)
}

impl<K: Sink> Watcher for Lines<K> {
    ghost use Rattle.std.specs.Prelude.{◌≡◌, ◌++◌, [], length};
    ghost use Rattle.dr_seeing.specs.Lines.{age_line};
    ghost use Rattle.dr_seeing.specs.Output.{Tells};
    ghost use Rattle.dr_tools.specs.Following.{deed_text, told_after, told_at_opening};

    ghost opens = { λ old start new. (new.told ≡ told_at_opening (length start.entries))
        × Tells (age_line start.age (length start.entries)) old.output new.output };

    ghost sees = { λ old member table new. (new.told ≡ told_after old.told member)
        × Tells (deed_text old.told table member) old.output new.output };

    ghost closes = { λ old members table new. new ≡ old };

    fn open(&mut self, start: &Start) {
        let entries = start.entries.as_slice().len();
        self.told = [entries; MAX_MEMBERS];
        self.output.tell_age(start.age, entries);
    }

    fn takes_note(&self) -> bool {
        true
    }

    #[tactic(auto, using(dr_seeing::proofs::Outputs::tells_both, dr_program::proofs::Received::running_number))]
    fn see(&mut self, member: &Member, table: &[u64]) {
        self.tell_came(member);
        self.told[usize::from(member.me())] = told_past_deed(member);
        self.output.tell_line(member, table);
    }

    fn close(&mut self, _members: &[Option<Member>], _table: &[u64]) {}
}
