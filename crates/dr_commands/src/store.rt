//! The command `store`: what the members of a simulated run store under a key, at a version.
//!
//! What is printed is told of each member's history in the last age that ran, by the map that its messages
//! make and not by the code's store; where no age ran there is no line.

mod asking;
mod values;

pub use asking::ask_stores;
