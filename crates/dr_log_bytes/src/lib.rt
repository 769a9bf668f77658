//! The bytes of a log, of the older and of the newer format: which records they are, and what these make.
//!
//! A log is eight bytes, then for each record a gate byte 1 and the record, then a closed gate. Its entries are
//! made by the records in order: an entry is appended, and a cut keeps the first ones. This crate knows no disk.
//!
//! `derecho_tools log` reads by it. What is on a log (`OnLog`) is its entries, votes and votes for ages, each
//! kind a list of its own, its format and its length; records make it one after the other, so the order
//! between kinds is on the disk alone. An entry that was cut is on the log no more, though its bytes are: so
//! the length is what the records make, and no less than that of what is there (`least_length`, also over a
//! disk that tells nothing).
//!
//! Which records bytes stand for, and where they are damaged, are relations over records and gates, and not
//! the reader's loop; that bytes stand for one list at most, are damaged at one place at most, and never
//! both, is a law. A record is misplaced by one rule (`MayFollow`), of the format and of the number of
//! entries; a log whose first bytes are of the newer format is of it, so it takes no upgrade.
#![tactic(auto)]

mod block;
mod content;
mod laws;
mod parsing;

pub use block::{Block, FIRST_GATE, MAGICS, OPEN, block_at, format_of};
pub use content::{Content, EMPTY, may_follow};
pub use laws::bytes_have_one_meaning;
pub use parsing::{ParseFault, parse};
