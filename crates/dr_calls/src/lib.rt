//! Openings of ages over a wire: members hand in their logs, call one another to tries, and vote.
//!
//! Who votes for a call has a log as it was handed in, and as long as the call says; a log only grows. So a vote is
//! cast on just what the start was chosen from, though nobody holds anything still, and calls overlap as they like.
#![tactic(auto)]

mod laws;

pub use laws::{calls_are_ordered, calls_keep_what_lasts};
