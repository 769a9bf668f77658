//! One age, whoever takes the deeds of its members: the members and the logs that it opens with, what a deed
//! and an append come to, and what the ends of its members tell.
//!
//! Simulation and threads share it, so threads don't stand on the simulator. A group gives each late member
//! one letter at most, and which member gives it comes up only then; so lists for letters belong to whoever
//! runs the members, one for each late member, and a member writes its letter into a list that it is lent. So
//! no member takes memory for letters.
#![tactic(auto)]

mod appending;
mod ending;
mod laws;
mod opening;

pub use appending::{Together, append_due, append_together};
pub use ending::ends_of;
pub use laws::letters_are_for_late_members;
pub use opening::begun_members;
