//! The world of a group, as a value that takes events one by one: a replica for each member that is
//! there, the table of words that they share, and the letters for those that are late.
//!
//! Each event does exactly what the machine's definitions say of it, for every list of events. Contracts
//! see a [`World`] as its script, its start, its replicas, its table and its letters, and read it as the
//! machine's world. All memory is taken in [`World::opening`].
//!
//! Of a member that is absent it tells what the age opens with, so no call asks who is there. The type's
//! invariant says that some events lead to it from the opening, which bounds every count and history: so no
//! event fails for want of room. Letters belong to the world and not to its replicas (`Posts`): a list for
//! each late member, with room for a history; each is given once. Members have no limit of turns: `Crash`
//! with `Spent` may come at any time. `World::sent` lends what was put in the present view alone.
//!
//! It takes no words that come late: which may come depends on all worlds on the way, so it would have to
//! keep every word that was ever an own one.
#![tactic(auto)]

mod opening;
mod posts;
mod steps;
mod world;

pub use dr_machine::Event;
pub use posts::Posts;
pub use world::World;
