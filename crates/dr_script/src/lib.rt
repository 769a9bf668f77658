//! Scripts: how many members a group has, what each sends, which of them fail, and for how long
//! they run, as JSON text.
//!
//! [`read_script`] reads a script, and names the first rule that a text breaks, with its place.
//! Contracts see a [`Script`] as the record of its fields, and its messages as lists of lists of
//! bytes.
//!
//! The rules are a table of numbers and definitions over the parsed JSON value. Each gives the places at
//! which it is broken, where those before it are kept; so the answer is the first place of the first rule
//! that has one. The code stops there, and makes no such lists.
//!
//! Who takes a script asks for no more ranges than it needs: `read_script` promises all of them
//! (`HasRanges`), and a simulated age, which counts turns, asks for all; setups, starts, worlds and runs of
//! events ask for those of the group (`HasGroupRanges`).
#![tactic(auto)]

mod faults;
mod json;
mod messages;
mod passage;
mod reading;
mod refusal;
mod script;
mod sizes;

pub use reading::{MAX_SCRIPT, read_script};
pub use refusal::ScriptFault;
pub use script::{Fault, Schedule, Script, What};
