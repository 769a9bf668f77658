//! What an age leaves on the logs of its members, whichever others are missing, and that the next age keeps it.
//!
//! The laws of `dr_quorum_laws` speak of worlds and of lists. Here they are told of a script's program, as it ended,
//! and of what is on logs, one place for each member.
//!
//! What an age leaves (`LeavesSo`) is told by how its member stands at its end, and by what its log was open
//! with: what it has logged, or besides what an append was to bring. That the same logs are there behind an
//! age (`AreLeftFrom`) holds in one run; of other sets `ages_leave_what_holds` tells what is left, and the laws
//! of tries go on from there.
#![tactic(auto)]

mod laws;

pub use laws::{
    ages_keep_what_lasts, ages_leave_what_holds, kept_from_age_to_age,
    later_ages_lack_a_number_alone,
};
