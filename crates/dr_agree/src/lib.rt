//! Runs of the executable world, through any list of events, and what is certain of them.
//!
//! That the histories of a group agree whatever its members do is a law of `dr_world_laws`. This crate
//! says it of the worlds of `dr_world`, which can be run and looked at. What such a world has delivered
//! durably is kept by the age that starts with the longest of the logs that stops leave of it.
//!
//! That a [`World`](dr_world::World)'s histories agree is a law, so `agree` is always true, and a test calls
//! it; `kept` can be false. `kept_after` and `kept_wherever_reached` have a law's premises as conditions, and
//! no body. What is left of a log is `LogLists`; here its entries count, those of the world or one more, and
//! any votes may stand beside them.
#![tactic(auto)]

mod keeping;
mod run;

pub use keeping::{kept, kept_after, kept_wherever_reached};
pub use run::{agree, agreed_run};
