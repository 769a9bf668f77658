ghost use Rattle.std.specs.Prelude.{◌≡◌};

use crate::{Entry, Seq};

/// How a member ended its age.
#[derive(Clone, Copy, Debug, PartialEq, Eq)]
pub enum End {
    /// Every member of its view had delivered and logged everything.
    Done,
    /// The script let it crash.
    Crashed,
    /// The member `by` suspected it.
    Suspected { by: u8 },
    /// The next view, numbered `view`, goes on without it.
    Excluded { view: u8 },
    /// The members that it did not suspect, as the mask `mask`, were no majority of its view.
    NoMajority { mask: u16 },
    /// Its disk failed.
    DiskFault,
    /// Its log, `len` bytes long, had no room for the next record.
    LogFull { len: u64 },
    /// It had taken `turns` turns, as many as the script allows.
    Spent { turns: u32 },
    /// Its log was missing: it took no part.
    Absent,
}

/// What a member put into one of its places: a null, or its message with this index.
#[derive(Clone, Copy, Debug, PartialEq, Eq)]
pub enum SentItem {
    Null,
    Index(u32),
}

/// The items that a member put in the view numbered `number` of the age, in order.
#[derive(Debug, PartialEq, Eq, Drop)]
pub struct ViewSent {
    pub number: u8,
    pub items: Seq<SentItem>,
}

/// A member as it ended its age: its end, the turns that it took, what it sent in each view of
/// the age, its whole history, the number of entries on its log, and the number of entries that
/// it reported durable.
#[derive(Debug, PartialEq, Eq, Drop)]
pub struct MemberEnd {
    pub end: End,
    pub turns: u32,
    pub sent: Seq<ViewSent>,
    pub history: Seq<Entry>,
    pub logged: u64,
    pub durable: u64,
}

/// An age that ran to its end: its number, the entries that it started with, and its members,
/// ascending.
#[derive(Debug, PartialEq, Eq, Drop)]
pub struct AgeEnd {
    pub age: u16,
    pub start: Seq<Entry>,
    pub members: Seq<MemberEnd>,
}

impl End {
    /// An equal end.
    pub fn copy(&self) -> End
        ensures { result ≡ self.now }
    {
        *self
    }
}
