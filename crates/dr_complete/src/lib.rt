//! What is certain of a group that has time enough, and how many turns are: in lockstep, without crashes and
//! failed appends, where nobody is missing or late, every member delivers everything.
//!
//! That a member has nothing left to do at the end of its turn comes from `dr_turn_laws`, and that one that
//! is done holds everything from `dr_world_laws`; this crate shows how far each round brings the members on.
//! `docs/PROOFS.md` shows how.
//!
//! `HasTime` names each condition on a script as a field: no faults, lockstep, turns; that nobody is missing
//! or late is asked of the start. Patience is none: in lockstep nobody waits as long as a script may say.
//! Four turns a message and eight more is what users are told; three and three are proved to do.
#![tactic(auto)]

mod laws;
mod time;

pub use laws::{
    all_show_done_where_one_has_ended, complete_ages_leave_nothing, lockstep_completes,
    nothing_ready_is_overlooked, rings_keep_their_items, scripts_complete,
};
pub use time::{enough_is_time, most_messages, turns_enough};
