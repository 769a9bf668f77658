//! Runs a script as `derecho sim` does, and prints for each age one history with the members as columns, and
//! what nobody delivered, which faults never came, how the members ended, and how many turns were enough; or
//! the same as a JSON object.

mod ages;
mod enough;
mod object;
mod text;
mod top;
mod turns;
mod words;

pub use top::{SUMMARY_USAGE, summarize};
