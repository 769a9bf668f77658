//! The seat of a group: one member in a process of its own, from its log to its last delivery, with bytes in and
//! bytes out.
//!
//! A [`Seat`] is opened on the log of its member. It opens ages with the other seats of its group, and runs its
//! member in them. Whoever holds it does what is due, one thing after the other: it writes to the log's file, syncs
//! it, or sends a packet; hands in what packets come, whoever sent them; and calls `tick` now and then.
//!
//! How an age opens over a wire. A seat that gathers asks the others for their logs, and hands in its own, which
//! takes nothing meanwhile. Once the least of those that have handed in has the logs of all that it doesn't go
//! without, it calls them to a try: which logs, how long each of them is, and the age that they make. Each member of
//! it that has the same logs, and whose own one is as it was handed in, chooses the start by itself, and votes for it
//! on its log. Once all have voted each cuts its log back, brings it up to the start and puts View 0 behind it; and
//! once all are up each begins to run. A seat that hears of a member that is behind such a try, or is asked by one
//! that knows of its age, gathers anew: its member has stopped in that age for good.
#![tactic(auto)]

mod book;
mod card;
mod choosing;
mod due;
mod faults;
mod gathering;
mod hands;
mod opening;
mod plan;
mod post;
mod role;
mod run;
mod seat;
mod trial;
mod words;

pub use card::{CARD, fresh};
pub use due::{Due, Stage, Standing};
pub use faults::{FreshFault, NotDue, OpenFault, Refused};
pub use plan::{Plan, PlanFault, plan_digest, read_plan};
pub use seat::Seat;

/// A place for a seat, for who holds it by a handle.
#[derive(Drop)]
pub struct Held {
    pub seat: Option<Seat>,
}
