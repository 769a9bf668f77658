//! The plain data of a group: messages and items, entries and histories, records and their bytes,
//! and how an age ended.
//!
//! Contracts see [`Seq`] as the list of its elements, [`Text`] as the list of its bytes and
//! [`Message`] as the list of its bytes. No call of this crate takes memory.
//!
//! A message is an array of 64 bytes and a length, and no vector: it is copied as it stands, nothing is
//! cleared first, and an entry takes 76 bytes.
#![tactic(auto)]

mod end;
mod entry;
mod laws;
mod limits;
mod message;
mod reading;
mod record;
mod seq;
mod text;
mod writing;

pub use end::{AgeEnd, End, MemberEnd, SentItem, ViewSent};
pub use entry::{Entry, Item};
pub use laws::{limits_law, one_spelling};
pub use limits::{MAX_MEMBERS, MAX_MESSAGE_LENGTH, MAX_MESSAGES};
pub use message::Message;
pub use reading::{DecodeFault, decode};
pub use record::{AgeVote, Record, Value, Vote};
pub use seq::Seq;
pub use text::Text;
pub use writing::{MAX_RECORD, RECORD_ROOM, encode, encode_entry};
