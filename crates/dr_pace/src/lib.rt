//! What a run in threads calls after each turn of a member: how its threads leave each other time, or keep
//! step. Nothing else rests on it, since no call answers anything.
//!
//! It is called after each turn of a member, the last one too, and once it has ended. It is a crate since it
//! stands on one of the kit, and what is below all should stand on little. [`MeetPace`] and [`HoldPace`] are
//! for tests: each waits for a bounded number of looks and counts waits that ran out, so a test ends, and
//! fails, where members don't run at once.
#![tactic(auto)]

mod hold;
mod meet;
mod pace;

pub use hold::HoldPace;
pub use meet::MeetPace;
pub use pace::{Pace, SnoozePace};
