ghost use Rattle.std.specs.Prelude.{◌≡◌};
ghost use Rattle.dr_machine.specs.Events.{member_of, step_of};

use crate::step::Step;
use dr_entry::{End, Value};

/// What a member does by itself, of its own choice or as its end: each counts as one more act.
#[derive(Clone, Copy, Debug, PartialEq, Eq)]
pub enum Act {
    /// It begins a turn.
    Beat,
    /// It takes the next item of a sender.
    Receive { sender: u8 },
    /// It puts its next message.
    Send,
    /// It fills its next place with a null.
    Null,
    /// It delivers its next place.
    Deliver,
    /// Its logged word follows its log.
    Publish,
    /// What every member of its view has logged is durable.
    Report,
    /// Its done word says that it holds everything, durably.
    Mark,
    /// It suspects another member of its view, or wishes for a late one, and is wedged from then on.
    Suspect { other: u8 },
    /// It proposes the value of the vote that it has logged, of its own ballot.
    Propose,
    /// It accepts the value of the vote that it has logged, of another member's ballot.
    Accept,
    /// The value that it has accepted is committed.
    Commit,
    /// It delivers the rest of what its view's end leaves, and goes on in the next view.
    Finish,
    /// It ends as it should.
    Halt { end: End },
    /// It ends by a fault, or with its turns spent.
    Crash { end: End },
}

/// One atomic step of one member `m`: an act of its own, a look at a word, a push of one, an
/// append to its log, of an entry or of a vote, or a letter that it gives or takes.
#[derive(Clone, Copy, Debug, PartialEq, Eq)]
pub enum Event {
    /// It begins a turn.
    Beat { m: u8 },
    /// It looks at the word of column `c` in the row of member `i`, in its own copy.
    Look { m: u8, i: u8, c: usize },
    /// It pushes its own word of column `c` to the copy of member `j`.
    Push { m: u8, j: u8, c: usize },
    /// It puts its next message.
    Send { m: u8 },
    /// It fills its next place with a null.
    Null { m: u8 },
    /// It takes the next item of member `s`.
    Receive { m: u8, s: u8 },
    /// It delivers its next place.
    Deliver { m: u8 },
    /// The next entry of its history goes on its log.
    Append { m: u8 },
    /// Its logged word follows its log.
    Publish { m: u8 },
    /// What every member of its view has logged is durable.
    Report { m: u8 },
    /// Its done word says that it holds everything, durably.
    Mark { m: u8 },
    /// It suspects member `j` of its view, or wishes for it where it is late, and is wedged from then on.
    Suspect { m: u8, j: u8 },
    /// Its vote for this value goes on its log.
    LogVote { m: u8, value: Value },
    /// It proposes the value of the vote that it has logged, of its own ballot.
    Propose { m: u8 },
    /// It accepts the value of the vote that it has logged, of another member's ballot.
    Accept { m: u8 },
    /// The value that it has accepted is committed.
    Commit { m: u8 },
    /// It delivers the rest of what its view's end leaves, and goes on in the next view.
    Finish { m: u8 },
    /// It ends as it should.
    Halt { m: u8, end: End },
    /// It ends by a fault, or with its turns spent.
    Crash { m: u8, end: End },
    /// It gives member `j`, which is late, the letter with which `j` comes into the view.
    Welcome { m: u8, j: u8 },
    /// It comes into the view of its letter.
    Join { m: u8 },
}

impl Event {
    /// The member that it is of.
    pub fn member(&self) -> u8
        ensures { result ≡ member_of self.now }
    {
        match *self {
            Event::Beat { m }
            | Event::Look { m, .. }
            | Event::Push { m, .. }
            | Event::Send { m }
            | Event::Null { m }
            | Event::Receive { m, .. }
            | Event::Deliver { m }
            | Event::Append { m }
            | Event::Publish { m }
            | Event::Report { m }
            | Event::Mark { m }
            | Event::Suspect { m, .. }
            | Event::LogVote { m, .. }
            | Event::Propose { m }
            | Event::Accept { m }
            | Event::Commit { m }
            | Event::Finish { m }
            | Event::Halt { m, .. }
            | Event::Crash { m, .. }
            | Event::Welcome { m, .. }
            | Event::Join { m } => m,
        }
    }

    /// What it is of that member.
    pub fn step(&self) -> Step
        ensures { result ≡ step_of self.now }
    {
        match *self {
            Event::Beat { .. } => Step::Do(Act::Beat),
            Event::Look { i, c, .. } => Step::Look { row: i, column: c },
            Event::Push { j, c, .. } => Step::Push { to: j, column: c },
            Event::Send { .. } => Step::Do(Act::Send),
            Event::Null { .. } => Step::Do(Act::Null),
            Event::Receive { s, .. } => Step::Do(Act::Receive { sender: s }),
            Event::Deliver { .. } => Step::Do(Act::Deliver),
            Event::Append { .. } => Step::Append,
            Event::Publish { .. } => Step::Do(Act::Publish),
            Event::Report { .. } => Step::Do(Act::Report),
            Event::Mark { .. } => Step::Do(Act::Mark),
            Event::Suspect { j, .. } => Step::Do(Act::Suspect { other: j }),
            Event::LogVote { value, .. } => Step::LogVote { value },
            Event::Propose { .. } => Step::Do(Act::Propose),
            Event::Accept { .. } => Step::Do(Act::Accept),
            Event::Commit { .. } => Step::Do(Act::Commit),
            Event::Finish { .. } => Step::Do(Act::Finish),
            Event::Halt { end, .. } => Step::Do(Act::Halt { end }),
            Event::Crash { end, .. } => Step::Do(Act::Crash { end }),
            Event::Welcome { j, .. } => Step::Welcome { late: j },
            Event::Join { .. } => Step::Join,
        }
    }
}
