//! The turn of a member: its parts, in their order.
//!
//! A turn is data: what comes after what, the number of places and the bound on deeds left follow from the
//! list, so a further part is a line of it. The list is code and definition in one; a law (`turn_law`) has
//! its parts by name, in their order, so a change of the code alone is refused. It is a static, since a
//! constant table would be built anew on the stack at each use. `PartName` has the names alone, since only a
//! name without fields gives a constant its number; so no number of a part is written by hand.
use dr_machine::Act;

/// A part of a turn: one deed, or one for each member, or one for each member and column.
#[derive(Clone, Copy, Debug, PartialEq, Eq)]
pub enum Part {
    /// The looks at the words of the other members.
    Look,
    /// What the looks have shown is judged: whom the member suspects or wishes for, and
    /// whether it ends by suspicions.
    Judge,
    /// The next items of the senders are taken.
    Receive,
    /// An act of the member's own.
    Do(Act),
    /// The next entry goes on the log.
    Append,
    /// A vote goes on the log.
    Vote,
    /// The end of a member that the next view goes on without.
    Excluded,
    /// The pushes of the own words to the other members.
    Push,
    /// The end of a member that was to crash in this turn, behind its last push.
    Crash,
    /// The end of a member that is done.
    Done,
    /// The letters for the newcomers of the view to which a member has gone on.
    Give,
    /// The end of a member whose turns are spent.
    Spent,
    /// The take of a late member that hasn't joined: where it finds a letter it does, and else its turn ends.
    Take,
}

/// The parts of a turn by name, in their order: the number of a part in `TURN` is its number here.
pub enum PartName {
    Take,
    Look,
    Judge,
    Receive,
    Send,
    Null,
    Deliver,
    Append,
    Publish,
    Report,
    Mark,
    Vote,
    Propose,
    Accept,
    Commit,
    Excluded,
    Push,
    Crash,
    Done,
    Finish,
    Give,
    Spent,
    Beat,
}

/// The number of parts of a turn.
pub const PARTS: usize = PartName::Beat as usize + 1;

/// The number of the part with which the end of a turn begins.
pub const TURN_ENDS: u8 = PartName::Crash as u8;

/// The parts of a turn, in their order. With the last one the next turn begins.
pub static TURN: [Part; PARTS] = [
    Part::Take,
    Part::Look,
    Part::Judge,
    Part::Receive,
    Part::Do(Act::Send),
    Part::Do(Act::Null),
    Part::Do(Act::Deliver),
    Part::Append,
    Part::Do(Act::Publish),
    Part::Do(Act::Report),
    Part::Do(Act::Mark),
    Part::Vote,
    Part::Do(Act::Propose),
    Part::Do(Act::Accept),
    Part::Do(Act::Commit),
    Part::Excluded,
    Part::Push,
    Part::Crash,
    Part::Done,
    Part::Do(Act::Finish),
    Part::Give,
    Part::Spent,
    Part::Do(Act::Beat),
];

/// Where a member stands in its turn: the number of the part, and in it a row and a column.
#[derive(Clone, Copy, Debug, PartialEq, Eq)]
pub struct Place {
    /// The number of the part.
    pub part: u8,
    /// A member, where the part has a deed for each.
    pub row: u8,
    /// A column, where the part has a deed for each of them.
    pub column: usize,
}
