//! A try to open an age, as one of its members takes part in it.
ghost use Rattle.std.specs.Prelude.{◌≡◌, ◌<◌};

use dr_packet::{Call, Far};
use dr_restart::Start;
use dr_words::Mask;

/// How far it is.
#[derive(Clone, Copy, Debug, PartialEq, Eq)]
pub(crate) enum Step {
    /// The vote goes to the log.
    Votes,
    /// The log has the vote, and goes no further than the start from what it had.
    Voted,
    /// A cut goes to the log.
    Cuts,
    /// The start goes to the log, and View 0.
    Rises,
    /// The log has them.
    Up,
}

/// A try to open an age: of which logs, and with which start.
#[derive(Debug, Drop)]
pub(crate) struct Trial {
    pub(crate) call: Call,
    pub(crate) start: Start,
}

impl Trial {
    /// The members whose logs were handed in.
    pub(crate) fn set(&self) -> Mask
        ensures { result ≡ self.now.call.set }
    {
        Mask::of(self.call.set)
    }

    /// Whether a member that hands in so many bytes has left it.
    pub(crate) fn is_left_by(&self, member: u8, size: u64) -> bool
        requires { member < 16 }
    {
        self.set().has(member) && self.call.lengths[usize::from(member)] < size
    }
}

/// How far the members of a try are, as one of them knows.
#[derive(Clone, Copy, Debug, PartialEq, Eq)]
pub(crate) struct Progress {
    /// How far its own is.
    step: Step,
    /// Those whose logs have the vote, and those whose logs have the start.
    voted: Mask,
    up: Mask,
}

/// What a member of a try does, where it waits for nobody.
#[derive(Clone, Copy, Debug, PartialEq, Eq)]
pub(crate) enum Next {
    /// All have voted: its log is brought up.
    Rises,
    /// All are up: it begins.
    Begins,
    /// It waits.
    Nothing,
}

impl Progress {
    /// Its vote goes to its log, and nobody has voted yet.
    pub(crate) fn none() -> Progress {
        Progress {
            step: Step::Votes,
            voted: Mask::empty(),
            up: Mask::empty(),
        }
    }

    /// What the member does in a try of this set.
    pub(crate) fn next(&self, set: Mask) -> Next {
        match self.step {
            Step::Voted if self.voted == set => Next::Rises,
            Step::Up if self.up == set => Next::Begins,
            _ => Next::Nothing,
        }
    }

    /// This goes to its log.
    pub(crate) fn writes(&mut self, step: Step) {
        self.step = step;
    }

    /// Takes note that its log has what went to it.
    pub(crate) fn settle(&mut self, me: u8)
        requires { me < 16 }
    {
        match self.step {
            Step::Votes => {
                self.step = Step::Voted;
                self.voted = self.voted.with(me);
            }
            Step::Cuts => self.step = Step::Voted,
            Step::Rises => {
                self.step = Step::Up;
                self.voted = self.voted.with(me);
                self.up = self.up.with(me);
            }
            Step::Voted | Step::Up => {}
        }
    }

    /// Takes note of how far another member of the set is. Answers whether it is news.
    pub(crate) fn count(&mut self, member: u8, far: Far) -> bool
        requires { member < 16 }
    {
        let (voted, up) = (self.voted, self.up);
        if far != Far::Chosen {
            self.voted = voted.with(member);
        }
        if far == Far::Up {
            self.up = up.with(member);
        }
        self.voted != voted || self.up != up
    }

    /// How far its member is.
    pub(crate) fn far(&self) -> Far {
        match self.step {
            Step::Votes => Far::Chosen,
            Step::Voted | Step::Cuts | Step::Rises => Far::Voted,
            Step::Up => Far::Up,
        }
    }
}
