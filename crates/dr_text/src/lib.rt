//! The text that a run prints: its ages with their members' ends and histories, and one last line.
//!
//! The definitions in `specs/` give the text line by line. A [`Report`] holds it in pieces, as a
//! [`LongText`] and a last line, and writes it to a sink.
//!
//! Members of an age print nearly the same lines, so a report keeps them once, with what each member has of
//! its own, and is written piece by piece: all memory is taken before the first byte is written, about that
//! of one history's text. What a command says in place of a report is a [`LongText`] of the same pieces, with
//! the last line behind it by a call of its own, so no text is made whole. The last lines of all commands
//! stand here, before the commands that say them.
#![tactic(auto)]

mod age;
mod digits;
mod ends;
mod entries;
mod last;
mod long_text;
mod pieces;
mod printed;
mod report;
mod writing;

pub use age::push_member_line;
pub use digits::push_hex_bytes;
pub use ends::push_end;
pub use entries::{push_entry, push_mask, push_number};
pub use last::{Clause, Last, push_last};
pub use long_text::LongText;
pub use report::Report;
pub use writing::write_all;
