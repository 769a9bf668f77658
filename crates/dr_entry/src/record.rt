ghost use Rattle.std.specs.Prelude.{◌≡◌};

use crate::{Entry, MAX_MEMBERS};

/// The kinds of records, by which their spellings begin.
pub(crate) const VIEW: u8 = 1;

pub(crate) const MESSAGE: u8 = 2;

pub(crate) const VOTE: u8 = 3;

pub(crate) const AGE_VOTE: u8 = 4;

pub(crate) const CUT: u8 = 5;

pub(crate) const UPGRADE: u8 = 6;

/// The value of a proposal: who leaves the view and who comes in, and how many items of each sender are
/// delivered before that.
#[derive(Clone, Copy, Debug, PartialEq, Eq)]
pub struct Value {
    /// Bit `i` is set exactly where member `i` leaves, or comes in where the view lacks it.
    pub leavers: u16,
    /// `trim[s]` is the number of items of member `s`; 0 for whoever is no sender of the view.
    pub trim: [u32; MAX_MEMBERS],
}

/// A vote: its member accepted this value in the view numbered `view` of the age `age`.
#[derive(Clone, Copy, Debug, PartialEq, Eq)]
pub struct Vote {
    pub age: u16,
    pub view: u8,
    /// The number of the member that proposed the value.
    pub ballot: u8,
    /// The number of members of the roster.
    pub members: u8,
    pub value: Value,
}

/// That an age was about to open: its number, and the members of its first view, as a mask. It stands on the
/// log of each member that takes part before the age begins.
#[derive(Clone, Copy, Debug, PartialEq, Eq)]
pub struct AgeVote {
    pub age: u16,
    pub members: u16,
}

/// What a member writes on its log.
#[derive(Debug, PartialEq, Eq, Drop)]
pub enum Record {
    /// The next entry of its history.
    Entry(Entry),
    /// A vote of its own.
    Vote(Vote),
    /// That an age was about to open.
    AgeVote(AgeVote),
    /// Of the entries before, the first `keep` stay, and no other.
    Cut { keep: u32 },
    /// From here on the log, which began in the older format, may hold age votes and cuts.
    Upgrade,
}

impl Value {
    /// An equal value.
    pub fn copy(&self) -> Value
        ensures { result ≡ self.now }
    {
        *self
    }
}

impl Vote {
    /// An equal vote.
    pub fn copy(&self) -> Vote
        ensures { result ≡ self.now }
    {
        *self
    }
}

impl AgeVote {
    /// An equal age vote.
    pub fn copy(&self) -> AgeVote
        ensures { result ≡ self.now }
    {
        *self
    }
}

impl Record {
    /// An equal record.
    pub fn copy(&self) -> Record
        ensures { result ≡ self.now }
    {
        match self {
            Record::Entry(entry) => Record::Entry(entry.copy()),
            Record::Vote(vote) => Record::Vote(vote.copy()),
            Record::AgeVote(vote) => Record::AgeVote(vote.copy()),
            Record::Cut { keep } => Record::Cut { keep: *keep },
            Record::Upgrade => Record::Upgrade,
        }
    }
}
