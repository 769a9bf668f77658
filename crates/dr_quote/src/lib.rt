//! How a message is told to people: in quotes where all of it can be seen, and else in hexadecimal.
//!
//! A message is quoted only where all of it can be seen, and else told in hexadecimal as a whole: a control
//! character, one without a width, one that turns the direction of others, or a blank that isn't ASCII's
//! would make a line look like another. To escape just these would be longer, and hexadecimal is what a
//! report has.
#![tactic(auto)]

mod quoting;

pub use quoting::push_message;
