//! The log beside a member that runs: what comes of it while the member takes its deeds.
//!
//! The definitions stand in `specs/`. Whoever runs a member by its deeds, and gives its log what it
//! appends, keeps them by the laws of this crate.
//!
//! It is told since a moment before the member's first deed, by how the member ended: what stands on the log,
//! that it is safe, how the last append went, and that at no moment in between a crash would have lost what
//! it had. The ends of an age tell no votes, so a log's are said to be some list; a running member has it. A
//! log has room before the first deed for all that may come, so no deed takes memory. Why an append failed is
//! two types, a log's (`LogFault`) and a member's (`LogWhy`), since neither stands on the other.
#![tactic(auto)]

mod laws;
mod why;

pub use laws::{
    appends_serve_logs, groups_serve_logs, logs_are_left, logs_begin, other_deeds_leave_logs,
    takes_leave_logs,
};
pub use why::why_of;
