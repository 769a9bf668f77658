use dr_entry::{Entry, Message, Seq};

/// How an age opens: its number, the members of its first view and those that are there, as masks,
/// the entries that every history starts with, and the messages that the script gives each member of
/// the roster.
#[derive(Debug, PartialEq, Eq, Drop)]
pub struct Opening {
    pub age: u16,
    pub members: u16,
    pub present: u16,
    pub start: Seq<Entry>,
    pub messages: Seq<Seq<Message>>,
}
