//! What says how far a run is.
ghost use Rattle.std.specs.Prelude.{◌≡◌, ◌+◌, IfOk, IfSome, string_bytes};
ghost use Rattle.dr_io.specs.Sink.{Gains};
ghost use Rattle.dr_text.specs.Writing.{WroteFront};
ghost use Rattle.dr_progress.specs.Progress.{Begins, Ends, MaySay, next_run, said_text, unbegun};

use crate::line::{BLANK, line_of, run_line_of};
use crate::timer::Timer;
use dr_io::Sink;
use dr_text::write_all;
use std::alloc::{AllocError, Global};
use std::marker::Model;

/// After so many milliseconds of a run, or of several, the first line is due.
const PATIENCE: u64 = 2000;

/// So many milliseconds behind each line the next one is due.
const PAUSE: u64 = 1000;

/// Says in which turn of which age a run is, if it says so to a terminal: first once the run has taken two
/// seconds, and then at most once a second, each time in place of the line before. Of several runs, one behind the
/// other, it says which of them it is, and the two seconds are those of all. From the first fault of its timer or of
/// its sink on it says nothing more.
#[derive(Drop)]
pub struct Progress<T: Timer, K: Sink> {
    alloc: Global,
    timer: T,
    sink: K,
    is_terminal: bool,
    run: u64,
    runs: u64,
    age: u16,
    turns: u32,
    due: Option<u64>,
    stands: bool,
}

impl<T: Timer, K: Sink> Model for Progress<T, K> {
    ghost use Rattle.dr_progress.specs.Progress.{Standing};

    ghost Value = { Standing };

    ghost view = { λ p. record {
      held = K.held p.sink;
      is_terminal = p.is_terminal;
      now = T.told p.timer;
      due = p.due;
      stands = p.stands;
      run = p.run;
      runs = p.runs;
      age = p.age;
      turns = p.turns;
    } };
}

impl<T: Timer, K: Sink> Progress<T, K> {
    /// One that says nothing before a run begins, and nothing at all where the sink is no terminal.
    pub fn new(alloc: Global, timer: T, sink: K, is_terminal: bool) -> Progress<T, K>
        ensures { result ≡ unbegun (K.held sink) (T.told timer) is_terminal }
    {
        Progress {
            alloc,
            timer,
            sink,
            is_terminal,
            run: 0,
            runs: 0,
            age: 0,
            turns: 0,
            due: None,
            stands: false,
        }
    }

    /// The sink, with all that was said.
    pub fn into_sink(self) -> K
    where
        T: Drop,
        ensures { K.held result ≡ self.held }
    {
        self.sink
    }

    /// A run begins, or several do, one behind the other, of which it is told before each.
    pub fn begin(&mut self)
        ensures { Begins self.old self.new }
    {
        self.run = 0;
        self.runs = 0;
        self.stands = false;
        self.due = None;
        if self.is_terminal {
            if let Some(now) = self.timer.read() {
                self.due = now.checked_add(PATIENCE);
            }
        }
    }

    /// So many runs come, or it isn't known how many, where that is 0.
    pub fn count(&mut self, runs: u64)
        ensures { self.new ≡ record self.old { run = 0; runs = runs } }
    {
        self.run = 0;
        self.runs = runs;
    }

    /// The next run comes.
    pub(crate) fn go_on(&mut self)
        ensures { self.new ≡ next_run self.old }
    {
        self.run = self.run.saturating_add(1);
    }

    /// In the ages of the run each member takes at most so many turns.
    pub(crate) fn bound(&mut self, turns: u32)
        ensures { self.new ≡ record self.old { turns = turns } }
    {
        self.turns = turns;
    }

    /// The run is over, or all of them are: the line that stands there is blanked.
    pub fn end(&mut self)
        ensures { Ends self.old self.new }
    {
        if self.stands {
            self.stands = false;
            let _ = write_all(&mut self.sink, BLANK.as_bytes());
        }
    }

    /// An age of this number opens.
    pub(crate) fn open(&mut self, age: u16)
        ensures { self.new ≡ record self.old { age = age } }
    {
        self.age = age;
    }

    /// A member is in this turn: this is said, if it is time to.
    pub(crate) fn look(&mut self, turn: u32)
        ensures { MaySay turn self.old self.new }
    {
        let Some(due) = self.due else {
            return;
        };
        match self.timer.read() {
            None => self.due = None,
            Some(now) if now < due => {}
            Some(now) => self.say(turn, now),
        }
    }

    /// Says that a member is in this turn: the timer has just told the time.
    fn say(&mut self, turn: u32, now: u64)
        requires { now ≡ self.old.now }
        ensures wrote { WroteFront self.old.held self.new.held (said_text self.old turn) }
        ensures next { IfSome self.new.due (λ due. (due ≡ self.new.now + 1000)
            × Gains self.old.held self.new.held (said_text self.old turn)) }
        ensures now { self.new.now ≡ self.old.now }
        ensures run { self.new.run ≡ self.old.run }
        ensures runs { self.new.runs ≡ self.old.runs }
        ensures age { self.new.age ≡ self.old.age }
        ensures turns { self.new.turns ≡ self.old.turns }
    {
        self.stands = true;
        self.due = None;
        if let Ok(line) = self.line(turn) {
            match write_all(&mut self.sink, line.as_str().as_bytes()) {
                Ok(()) => self.due = now.checked_add(PAUSE),
                Err(_) => {}
            }
        }
    }

    /// The line by which a member is in this turn.
    fn line(&self, turn: u32) -> Result<String, AllocError>
        ensures { IfOk result (λ line. string_bytes line ≡ said_text self.now turn) }
    {
        if self.run == 0 {
            line_of(self.alloc, self.age, turn, self.turns)
        } else {
            run_line_of(self.alloc, self.run, self.runs, self.age, turn)
        }
    }
}
