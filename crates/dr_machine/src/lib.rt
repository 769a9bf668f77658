//! The definitions of the machine that a group is: its world, the events that change it, and what a run of
//! them is.
//!
//! They stand in `specs/`, in the order in which `docs/GROUP.md` explains them. They are
//! what has to be read to know what is proved of a group; the crates above hold to them. This crate
//! has no code but the events, with the member and the step of each, and laws of runs and guards.
//!
//! The world is one flat record of functions of member numbers: what an event leaves alone is the same field,
//! and what is known of it passes on without a proof. What only grows stands apart from what belongs to a
//! view (`Past`), since a replica doesn't keep the items of a view that it has left. A guard is a record of
//! named facts, an effect is total, and an event whose guard fails changes nothing; so a run is a relation
//! over any list of events. An event is a member and a step; all acts are one case of a step, so guards,
//! effects and tests are tables that compute, with a line an act. A halt and a crash stay two acts, as their
//! guards differ.
//!
//! Who is present is part of the opening, and every guard asks it. The index of a delivered message is the
//! number of its sender's messages in the history, which counts on over views. A null asks whether some
//! sender is ahead, over the counts of the whole roster, which are 0 of others. What a member puts in a view
//! is one record (`IsPut`): messages one by one, nulls once none is left; so no second count is kept.
//! `HoldsAll`, the done mark's condition, compares numbers of messages: each history has a sender's one by
//! one.
//!
//! A suspicion writes the whole own row by one function of a column and its word. A wish is the same act, on
//! the same mask: who is meant tells them apart, and whoever is wished for is none of the view, so its row
//! isn't read. A vote's event has the value in it, since rows tell it by relations, and there is one at most
//! (`votes_are_determined`); a proposal and an acceptance are one effect, and two acts, since a reader asks
//! which. When rows allow a vote is defined over a function of row and column, which the machine's rows are,
//! and a replica's are read as. The stamp of a finish belongs to the bank of the view that is left; the beat
//! word of the new one is 0 until the next act.
//!
//! Words that arrive late are no event, since nobody does anything by them, but a second way in which one
//! world follows another: so a list of events is a way on which nothing is late, and each law of reached
//! worlds covers both. Any number may arrive at once, also of a member that has ended. Of two words for one
//! place the greater number stays: all that is asked of an arrival, and what a host can do in one step. As no
//! list of events leads from one moment to the other then, what holds of two is said of the worlds on a way.
//!
//! Joined is no field: a late member that hasn't joined has View 0 and is none of its members. It shows 0
//! entries logged, and no other word but the beat; its log is as long as everybody's at the opening. The
//! world keeps the members of the view that one came from (`came_from`), since the history would ask a
//! replica for a search at each look; a joiner has that of View 0, and welcomes nobody. Who has given a
//! letter keeps that in its view, and a welcome's guard asks this, and not whether the letter is there: then
//! a replica's test is the guard in every world.
#![tactic(auto)]

mod event;
mod laws;
mod step;

pub use event::{Act, Event};
pub use laws::{runs_follow_one_another, votes_are_determined};
pub use step::Step;
