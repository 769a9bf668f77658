//! A replica: the state of one member of a group, what it may do, and its acts.
//!
//! Contracts see a [`Replica`] as the record of that name in the machine's definitions, and each act
//! is the one of the definitions, together with its stamp. All memory is taken in
//! [`Replica::begin`].
//!
//! Deliver and Report ask the watches of `dr_pred`; up to which place all were seen to have received is kept,
//! and asked anew only once the next place has come to it, as received words only rise. Places are kept with
//! rank and number of their item (`Spot`), so that going on takes no division. Behind the items of all
//! members there are nulls: an invariant, so a new view clears no more places than held items.
#![tactic(auto)]

mod acceptance;
mod history;
mod items;
mod left;
mod replica;
mod rest;
mod spot;
mod wedge;

pub use replica::Replica;
