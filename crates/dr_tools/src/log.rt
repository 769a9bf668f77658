//! Prints logs: the records of each, by their places, and how it ends.

mod printing;
mod text;
mod votes;

pub use printing::print_log;
