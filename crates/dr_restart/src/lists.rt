use crate::start::Start;
use dr_entry::{AgeVote, Entry, Seq, Vote};

/// What stands on the log of a member: its entries, its votes and its age votes, each kind in order.
#[derive(Debug, PartialEq, Eq, Drop)]
pub struct LogLists {
    pub entries: Seq<Entry>,
    pub votes: Seq<Vote>,
    pub age_votes: Seq<AgeVote>,
}

/// A try to open an age.
#[derive(Debug, PartialEq, Eq, Drop)]
pub struct Attempt {
    /// The members whose logs were handed in, as a mask.
    pub set: u16,
    /// The start that was chosen from these logs.
    pub start: Start,
    /// Whether each of these logs got its age vote.
    pub opened: bool,
}
