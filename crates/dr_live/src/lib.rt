//! Live groups: the messages of each member are pushed by a thread of its own while the ages of the group run.
//!
//! An app that pauses leaves rounds in which nothing of it is new; they run all the same, and only the join
//! behind the rounds waits for it: the claim is for joins that return. In each age each member sends all that
//! was taken so far; the start tells which of it is delivered, and what an age lost is sent again. No disk is
//! named: logs are on disks that never fail, with more room than 16 ages can fill, so only want of memory may
//! stop a run of ages (`OpensAlways`).
#![tactic(auto)]

mod group;
mod live;

pub use dr_senders::{App, ListApp};
pub use live::{LiveEnd, is_live_plan, run_live};
