//! The simulator: it runs the members of a script's group by its schedule, over the words of one table,
//! in one thread.
//!
//! A schedule is a definition apart from the loops: in lockstep a relation over whole turns and rounds, with
//! a seed a list of members, each the one that the generator chooses there. All memory is taken before the
//! first deed, the room for the ends too, so a run that has begun comes to its ends; no contract says that
//! none is taken later, but that no deed fails for want of it.
//!
//! That two simulations come to equal ages is a law of its own (`simulations_repeat`), since a simulated
//! age's contract leaves open which appends fail; where none does each schedule leads to one list of moves.
#![tactic(auto)]

mod age;
mod deed;
mod laws;
mod lcg;
mod lockstep;
mod seeded;
mod simulation;
mod watcher;

pub use age::{sim_age, watch_age};
pub use laws::simulations_repeat;
pub use lcg::Lcg;
pub use simulation::Simulation;
pub use watcher::{Unwatched, Watcher};
