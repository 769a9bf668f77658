//! Watches over the rows that a member holds: what holds once goes on to hold, since rows only grow. And the
//! least word of a column, which some of them ask for.
//!
//! No call of this crate takes memory.
#![tactic(auto)]

mod column;
mod once;
mod watch;
mod watches;

pub use column::least_word;
pub use once::Once;
pub use watch::Watch;
pub use watches::{AllDone, AllFinal, LoggedFront, PromisedAt, ReceivedFront, SomeSuspect};
