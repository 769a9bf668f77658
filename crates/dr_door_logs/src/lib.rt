//! What doors leave on the logs of their members, and that later ages keep it.
//!
//! Each door runs in a process of its own, which may stop anywhere: on its log stands what its member has logged, or
//! the record besides that it was to append. So the age that a call has opened has come, as the laws of calls ask.
#![tactic(auto)]

mod laws;

pub use laws::doors_keep_what_lasts;
