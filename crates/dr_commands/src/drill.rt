//! The command `drill`: a large group that a number makes, simulated and told in few lines.
//!
//! It tells of all ages that ran, of which there is one wherever anything is written; each member has the
//! line that a report has of it.

mod drilling;
mod lines;

pub use drilling::run_drill;
