use crate::event::Act;
use dr_entry::Value;

/// What an event is, but for its member.
#[derive(Clone, Copy, Debug, PartialEq, Eq)]
pub enum Step {
    /// An act.
    Do(Act),
    /// A look at the word of a column in the row of a member.
    Look { row: u8, column: usize },
    /// A push of the own word of a column to a member.
    Push { to: u8, column: usize },
    /// The next entry of the history goes on the log.
    Append,
    /// A vote for this value goes on the log.
    LogVote { value: Value },
    /// The letter for a late member, with which it comes into the view.
    Welcome { late: u8 },
    /// It comes into the view of its letter.
    Join,
}
