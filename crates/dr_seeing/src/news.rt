//! What is new in a run.
use dr_entry::{End, MAX_MEMBERS, Message};

/// What is new as a member does a deed.
#[derive(Clone, Copy)]
pub enum News<'a> {
    /// The turn of this number begins.
    Turn(u32),
    /// An item of a sender is taken, behind so many of this view.
    Taking {
        sender: u8,
        count: u32,
    },
    /// A message is put.
    Put(&'a Message),
    /// A place is filled with a null.
    Filler,
    /// A message is delivered, behind so many of its sender.
    Delivery {
        sender: u8,
        index: u32,
        message: &'a Message,
    },
    /// The log has so many entries.
    Logged(u64),
    /// So many entries are durable.
    Durable(u64),
    /// This member is suspected.
    Suspicion(u8),
    /// This member, which is late, is wished for.
    Wish(u8),
    /// This member gets the letter with which it comes into the view.
    Letter(u8),
    /// It looks for its letter: if there is one, that is its history from then on.
    Letterbox,
    /// A vote goes on the log.
    Vote,
    /// A value is proposed.
    Proposal(Change),
    /// The value of another member is accepted.
    Acceptance,
    /// A value is committed.
    Commitment(Change),
    /// The view of this number begins, once so many places of the one before are delivered.
    NextView {
        number: u8,
        coming: u64,
    },
    /// The member ends.
    End(End),
}

/// What a value says of the view that it ends.
#[derive(Clone, Copy)]
pub struct Change {
    /// Who leaves: bit `i` is set exactly where member `i` does.
    pub leavers: u16,
    /// Who comes in, as such bits.
    pub newcomers: u16,
    /// How many items of each member are still delivered.
    pub trim: [u32; MAX_MEMBERS],
}
