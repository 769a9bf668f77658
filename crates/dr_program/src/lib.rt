//! The definitions of the members of a group as they run: what one has and has seen, its turn and its next
//! deed, and the program that they are over the words of one table.
//!
//! They stand in `specs/`, and say in the terms of one member what `dr_machine` says of
//! the whole world; `dr_refine` proves that the two are the same. This crate has no code but the
//! plain types that the definitions name, the order of a turn, and laws of programs.
//!
//! A replica is one member's state and what each act makes of it; the machine as a value and running members
//! share it. A running member adds its place in the turn and what its script has in store for it, and always
//! stands where there is something to do: the search for the next place belongs to the answer that changes
//! it, and `next` is one look. The words of a look are handed in, since a member that is told of one has no
//! table. Nobody suspects itself, so that suspicion stands for "nothing comes up" where a step has to have a
//! value.
//!
//! Members go by number: a program has a place for each of the roster, empty where it is absent, as logs do,
//! so a loop finds a member and its log, or neither. One that stood there as ended would break the form that
//! each step keeps, and take the memory of a whole one. The end of an absent one (`end_at`) is `Absent`, with
//! no turns, nothing sent and no history. An element of a run is a member with the outcome of its append, if
//! its deed is one. A failed append is no event: the member keeps why, and ends with its next act. It may
//! have been to crash in that very turn, so of crashes it is said that none of an earlier turn was passed.
//! Crash points are a set: just before a push that one names, and at the end of a turn that one names.
//!
//! A net is packets, and no second table: so what is lost, doubled, overtaken or sent again is a list of
//! those that were there, and a carrier may keep as many for one place as it likes.
#![tactic(auto)]

mod deed;
mod laws;
mod outcome;
mod packet;
mod place;
mod setup;

pub use deed::Deed;
pub use laws::{deeds_follow_one_another, programs_begin_at_the_opening, turn_law};
pub use outcome::{LogWhy, Outcome};
pub use packet::Packet;
pub use place::{PARTS, Part, PartName, Place, TURN, TURN_ENDS};
pub use setup::{CrashPoint, Setup, Suspicion};
