//! What the programs share that read a script: their words, how a script is read from a source or refused,
//! what they answer, and the statuses that they end with.
//!
//! All programs answer by one form (`IsAnswer`): the words ask for a command or none, the source was read or
//! failed, memory was wanting, or the command did what it does. A program gives its commands and what each
//! does.
#![tactic(auto)]

mod answer;
mod call;
mod reading;
mod script;
mod status;
mod words;

pub use answer::{Answer, tell};
pub use call::{Unread, read_for, wordless};
pub use reading::{ReadFault, read_all};
pub use script::{READ_LIMIT, script_or_refusal};
pub use status::{
    CHECK_FAILED, DISK_FAULT, DONE, LAYOUT_REFUSED, LOG_FULL, LOGS_REFUSED, NO_MAJORITY,
    OUT_OF_MEMORY, READ_FAULT, SCRIPT_REFUSED, UNFINISHED, USAGE, WRITE_FAULT, status_of,
};
pub use words::words_of;
