//! The law of seats: whatever becomes of the seats of a group, and of the packets between them, what lasted lasts.
//!
//! Each seat opens ages and runs in them by itself, may stop at any moment, and knows of the others what packets say.
//! These come late, more than once, in any order or never; one that no seat of the group has sent is taken for none,
//! as its checksum isn't right.
#![tactic(auto)]

mod laws;

pub use laws::{seats_keep_what_lasts, seats_may_run};
