//! The watcher that draws a chart.
ghost use Rattle.dr_seeing.specs.Output.{TellsSome};

use dr_io::Sink;
use dr_member::Member;
use dr_restart::Start;
use dr_seeing::{Chart, Output};
use dr_sim::Watcher;
use std::alloc::AllocError;
use std::marker::Model;

/// Draws a chart, and tells each row as soon as it is drawn.
#[derive(Drop)]
pub(crate) struct Drawing<K: Sink> {
    pub output: Output<K>,
    pub chart: Chart,
}

impl<K: Sink> Model for Drawing<K> {
    ghost use Rattle.dr_seeing.specs.Output.{Written};

    ghost Value = { Written };

    ghost view = { λ d. d.output };
}

impl<K: Sink> Drawing<K> {
    /// Tells what was drawn, if it could be.
    fn tell(&mut self, drawn: Result<(), AllocError>)
        ensures { TellsSome self.old self.new }
    {
        match drawn {
            Ok(()) => self.tell_drawn(),
            Err(_) => self.give_up(),
        }
    }

    /// Tells what was drawn.
    fn tell_drawn(&mut self)
        ensures { TellsSome self.old self.new }
    {
        self.output.tell(self.chart.text());
        self.chart.clear();
    }

    /// Takes note that memory was wanting for what was to be drawn.
    fn give_up(&mut self)
        ensures { TellsSome self.old self.new }
    {
        self.output.give_up();
    }
}

impl<K: Sink> Watcher for Drawing<K> {
    ghost use Rattle.dr_seeing.specs.Output.{TellsSome};

    ghost opens = { λ old start new. TellsSome old new };

    ghost sees = { λ old member table new. TellsSome old new };

    ghost closes = { λ old members table new. TellsSome old new };

    fn open(&mut self, start: &Start) {
        let drawn = self.chart.open(start.age, start.entries.as_slice().len());
        self.tell(drawn);
    }

    fn takes_note(&self) -> bool {
        true
    }

    fn see(&mut self, member: &Member, _table: &[u64]) {
        let drawn = self.chart.see(member);
        self.tell(drawn);
    }

    fn close(&mut self, members: &[Option<Member>], _table: &[u64]) {
        let drawn = self.chart.close(members);
        self.tell(drawn);
    }
}
