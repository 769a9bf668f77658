//! Says why `derecho` refuses a script, and of one that it runs how many turns are enough and which faults
//! never come.

mod faults;
mod found;
mod hints;
mod keys;
mod never;
mod reasons;
mod repeats;
mod shown;
mod syntax;
mod top;
mod turns;
mod values;

pub use top::{EXPLAIN_USAGE, explain};
