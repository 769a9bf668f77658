//! The trim of a view that ends: how many items of each sender are delivered in it, and what of them is left.
//!
//! No call of this crate takes memory.
//!
//! What a trim leaves is told by rank: `next_rest` is `merge_next` over the trims of a view's members, so the
//! laws of `dr_order` are its laws. It tells one place, and lists the trims for it; a replica lists them once
//! and goes on by spots (`Rest` of `dr_replica`), as it delivers all that is left.
#![tactic(auto)]

mod rest;
mod trim;

pub use rest::{next_rest, trims_by_rank};
pub use trim::trim_of;
