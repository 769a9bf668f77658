use dr_entry::{Entry, Message, Seq};
use dr_words::{Mask, Shape};

/// A point in a member's turns at which it crashes.
#[derive(Clone, Copy, Debug, PartialEq, Eq)]
pub struct CrashPoint {
    /// The turn, counted from 1.
    pub turn: u32,
    /// The push of that turn, counted from 0, just before which it crashes; where the turn has fewer
    /// pushes, it crashes after the last.
    pub push: u32,
}

/// A turn in which a member suspects another, or wishes for one that is late.
#[derive(Clone, Copy, Debug, PartialEq, Eq)]
pub struct Suspicion {
    /// The turn, counted from 1.
    pub turn: u32,
    /// The member that it suspects or wishes for.
    pub other: u8,
}

/// What a member of a group is told as its age opens.
#[derive(Debug, Drop)]
pub struct Setup {
    /// The shape of the group's table.
    pub shape: Shape,
    /// The member's own number.
    pub me: u8,
    /// The number of the age.
    pub age: u16,
    /// The members of View 0.
    pub members: Mask,
    /// The late members, which are there, and in no view yet.
    pub late: Mask,
    /// After how many turns a member ends, at least 1.
    pub turns: u32,
    /// After how many turns in which nothing new is seen of a member it is suspected; never, where
    /// this is 0.
    pub patience: u32,
    /// The entries that the age starts with, without View 0.
    pub start: Seq<Entry>,
    /// The script's messages of this member.
    pub messages: Seq<Message>,
    /// The number of the script's messages of each member, and 0 for whoever is none.
    pub totals: [u32; 16],
    /// The points at which the member is to crash: it does so at the first that it comes to.
    pub crashes: Seq<CrashPoint>,
    /// The suspicions that the member is to have, in the script's order.
    pub suspicions: Seq<Suspicion>,
}
