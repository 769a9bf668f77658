//! Whom a member suspects or wishes for, and how long it waits for news of others.
//!
//! No call of this crate takes memory.
#![tactic(auto)]

mod others;
mod patience;
mod suspects;
mod wish;

pub use patience::Patience;
pub use suspects::Suspects;
pub use wish::may_wish;
