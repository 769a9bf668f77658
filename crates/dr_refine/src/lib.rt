//! Programs read as the machine: the tests of a replica are the guards of events, its acts are their
//! effects, and each deed of a running member is an event.
//!
//! The machine reads members as functions, a replica is the same as lists, as code can hold it: one pair of
//! laws ties both, by steps. That a reached world has the room that a step asks for is `dr_program_laws`, which alone
//! needs the laws of worlds; so this crate stands on none of them.
#![tactic(auto)]

mod laws;

pub use laws::{deeds_are_steps, steps_are_effects, tests_are_guards};
