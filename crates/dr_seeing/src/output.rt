//! A text that is written piece by piece, as a run goes on.
ghost use Rattle.std.specs.Prelude.{◌≡◌, ◌≤◌, ◌++◌, ℕ, List, [], Option, None, OnOk, length, string_bytes};
ghost use Rattle.dr_member.specs.Deeds.{table_size};
ghost use Rattle.dr_program.specs.Form.{IsRunningMember};
ghost use Rattle.dr_text.specs.Report.{last_text};
ghost use Rattle.dr_seeing.specs.{Lines.{age_line, line_of}, Output.{HasTold, IsFinished, Tells, Written}};

use crate::deeds::push_line;
use crate::lines::push_age;
use dr_io::Sink;
use dr_member::Member;
use dr_text::{Last, push_last, write_all};
use std::alloc::{AllocError, Global};
use std::marker::Model;

/// So many bytes wait at most before they are written, but for those of one piece.
const ENOUGH: usize = 16384;

/// What is in the way of writing.
#[derive(Clone, Copy, Debug, PartialEq, Eq)]
pub enum Trouble {
    /// A call of the sink failed.
    Sink,
    /// Memory was wanting.
    Memory,
}

/// A text that is told piece by piece, and written to a sink as soon as enough of it waits. Once a call of
/// the sink has failed, or memory was wanting, nothing more is written.
#[derive(Drop)]
pub struct Output<K: Sink> {
    sink: K,
    waiting: String,
    trouble: Option<Trouble>,
}

impl<K: Sink> Model for Output<K> {
    ghost use Rattle.std.specs.Prelude.{string_bytes};
    ghost use Rattle.dr_seeing.specs.Output.{Written};

    ghost Value = { Written };

    ghost view = { λ o. record {
      held = K.held o.sink;
      faults = K.faults o.sink;
      waiting = string_bytes o.waiting;
      trouble = o.trouble;
    } };
}

impl<K: Sink> Output<K> {
    /// An output to this sink, of which nothing is told yet.
    pub fn new(alloc: Global, sink: K) -> Output<K>
        ensures { HasTold (K.held sink) (K.faults sink) [] result }
    {
        Output {
            sink,
            waiting: String::new(alloc),
            trouble: None,
        }
    }

    /// What is in the way of writing.
    pub fn trouble(&self) -> Option<Trouble>
        ensures { result ≡ self.now.trouble }
    {
        self.trouble
    }

    /// Tells the line of the deed that is due to a member, which has not ended, over these words of the
    /// table.
    pub fn tell_line(&mut self, member: &Member, table: &[u64])
        requires going { member.now.replica.end ≡ None }
        requires form { IsRunningMember member.now }
        requires size { table_size member.now ≤ length table.now }
        ensures { Tells (line_of member.now table.now) self.old self.new }
    {
        if self.trouble.is_none() {
            let pushed = push_line(&mut self.waiting, member, table);
            self.settle(pushed);
        }
    }

    /// Tells that an age opens, with its number and its number of entries.
    pub fn tell_age(&mut self, age: u16, entries: usize)
        ensures { Tells (age_line age entries) self.old self.new }
    {
        if self.trouble.is_none() {
            let pushed = push_age(&mut self.waiting, age, entries);
            self.settle(pushed);
        }
    }

    /// Tells the last line of a run.
    pub fn tell_last(&mut self, last: &Last)
        ensures { Tells (last_text last.now) self.old self.new }
    {
        if self.trouble.is_none() {
            let pushed = push_last(&mut self.waiting, last);
            self.settle(pushed);
        }
    }

    /// Tells a text.
    pub fn tell(&mut self, text: &str)
        ensures { Tells text.now self.old self.new }
    {
        if self.trouble.is_none() {
            let pushed = push_text(&mut self.waiting, text);
            self.settle(pushed);
        }
    }

    /// Takes note that memory was wanting for what was to be told.
    pub fn give_up(&mut self)
        ensures { (text : List ℕ) → Tells text self.old self.new }
    {
        if self.trouble.is_none() {
            self.settle(Err(AllocError));
        }
    }

    /// Writes what waits, and gives the sink back, with what was in the way.
    pub fn finish(mut self) -> (K, Option<Trouble>)
        ensures { (held : Option (List ℕ)) (fell : ℕ) (text : List ℕ) → HasTold held fell text self
            → IsFinished result.1 held fell text (K.held result.0) (K.faults result.0) }
    {
        if self.trouble.is_none() {
            self.flush();
        }
        (self.sink, self.trouble)
    }

    /// Writes what waits, where that is enough; where it could not be put there, memory was wanting.
    fn settle(&mut self, pushed: Result<(), AllocError>)
        requires { self.old.trouble ≡ None }
        ensures { (text : List ℕ) (before : Written) → before.trouble ≡ None → before.held ≡ self.old.held
            → before.faults ≡ self.old.faults → OnOk pushed (self.old.waiting ≡ before.waiting ++ text)
            → Tells text before self.new }
    {
        match pushed {
            Ok(()) if self.waiting.len() < ENOUGH => {}
            Ok(()) => self.flush(),
            Err(_) => self.trouble = Some(Trouble::Memory),
        }
    }

    /// Writes what waits.
    fn flush(&mut self)
        requires { self.old.trouble ≡ None }
        ensures tells { Tells [] self.old self.new }
        ensures empty { self.new.waiting ≡ [] }
    {
        match write_all(&mut self.sink, self.waiting.as_str().as_bytes()) {
            Ok(()) => self.waiting.clear(),
            Err(_) => {
                self.waiting.clear();
                self.trouble = Some(Trouble::Sink);
            }
        }
    }
}

/// Appends a text.
fn push_text(out: &mut String, text: &str) -> Result<(), AllocError>
    ensures { OnOk result (string_bytes out.new ≡ string_bytes out.old ++ text.now) }
{
    out.push_str(text)
}
