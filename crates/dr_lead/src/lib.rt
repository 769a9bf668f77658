//! When a wedged member proposes, accepts and commits the value of a change of the view, and which value.
//!
//! No call of this crate takes memory.
//!
//! A member proposes where those that it doesn't suspect have promised exactly it, in all their accept words:
//! a row that has promised a later member may show words of two proposals side by side, since words are seen
//! one by one. Whether anything is committed is asked by the caller, and that the member is wedged is a
//! premise.
#![tactic(auto)]

mod accept;
mod accepts;
mod commit;
mod propose;
mod standing;

pub use accept::{promised_value, try_accept};
pub use commit::try_commit;
pub use propose::try_propose;
pub use standing::Standing;
