//! Says what happens in the simulated run of a script, in order.

mod chart;
mod lines;
mod picture;
mod top;
mod words;

pub use top::{TRACE_USAGE, Traced, trace};
