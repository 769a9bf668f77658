//! Packets of the seats of a group: which bytes they are, and what these say.
//!
//! A packet begins with its head: by whom it is, for whom, of which group and which plan, and how many ages its
//! sender knows. Behind what it says stand eight bytes of a digest over all before, so one that was changed on its
//! way is refused. No call of this crate takes memory.
#![tactic(auto)]

mod reading;
mod writing;

pub use reading::{PacketFault, read};
pub use writing::{PACKET_ROOM, PART, WORD, WORDS_ROOM, write};

/// Whose packets they are: the name of a group, and the digest of its plan.
#[derive(Clone, Copy, Debug, PartialEq, Eq)]
pub struct Seal {
    pub group: [u8; 16],
    pub plan: [u8; 32],
}

/// By whom a packet is, for whom, and how many ages its sender knows: the greatest one and one, or 0.
#[derive(Clone, Copy, Debug, PartialEq, Eq)]
pub struct Way {
    pub from: u8,
    pub to: u8,
    pub ages: u32,
}

/// How far a member is with a try to open an age.
#[derive(Clone, Copy, Debug, PartialEq, Eq)]
pub enum Far {
    /// It has chosen the start.
    Chosen,
    /// Its log has the vote.
    Voted,
    /// Its log has the start, and View 0.
    Up,
}

/// A try to open an age: of which logs its start is chosen, and which age that is.
#[derive(Clone, Copy, Debug, PartialEq, Eq)]
pub struct Call {
    /// The members whose logs were handed in, as a mask.
    pub set: u16,
    /// How many bytes each of these logs had, with its closed gate; 0 for whoever is not in the set.
    pub lengths: [u64; 16],
    pub age: u16,
}

/// What a packet says.
#[derive(Clone, Copy, Debug, PartialEq, Eq)]
pub enum Says<'a> {
    /// The sender asks for the receiver's log from this place on. Its own one has so many bytes as it hands it in,
    /// or 0 where it hands in none.
    Ask {
        length: u64,
        at: u64,
    },
    /// The sender's log has so many bytes as it hands it in, and from this place on these.
    Hand {
        length: u64,
        at: u64,
        bytes: &'a [u8],
    },
    /// The sender is so far with a try.
    Try {
        call: Call,
        far: Far,
    },
    /// Words of the sender in an age: of each the place in the receiver's copy, and the word.
    Words {
        age: u16,
        words: &'a [u8],
    },
}
