//! Simulates a script by many seeds, or with each crash of a member, and tells how the runs end; or finds a smaller script that ends as wanted.

mod counting;
mod crashes;
mod forms;
mod lessening;
mod limits;
mod outcomes;
mod parts;
mod rows;
mod runs;
mod shrinking;
mod sweeping;
mod top;
mod variants;
mod words;

pub use top::{SWEEP_USAGE, sweep};
