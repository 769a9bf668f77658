//! The ages of a run, one after the other: each starts with what the logs of the one before have left.
//!
//! The same members are missing in all ages of a run, so a later one finds the logs that the one before has
//! left, and can't lack a quorum. Nothing chooses by itself whom to miss: a log that can't be read ends the
//! run, since whether a disk is lost or away for a moment whoever runs it knows. A log that is lost counts as
//! an empty one unless it is named: an empty file looks the same, whether it was never written or has lost
//! all. A number that is no member's names nobody, so one list serves scripts of any roster. Where no log is
//! missing alone something is said of room and of empty disks: which logs are enough is for the votes on them
//! to say.
//!
//! A file tells nothing of its content, so what ages keep is proved over disks that tell, and of files that
//! each start that was read is sound and each age agrees; `tools/kill-runs` tries the rest with real files.
//! Images are taken a little wide (`dr_disk`), so a little more is asked of fit disks than that they outlive
//! each crash, and a little more is said of what they keep. For which logs are accepted there is one
//! definition (`AreAccepted`), so another rule would change it alone. A disk that reads as empty may have a
//! write pending, and then nothing is said of it; disks that were never written are fit.
#![tactic(auto)]

mod ages;
mod laws;
mod lending;
mod mode;
mod part;
mod stop;

pub use ages::{AgesEnd, run_ages, watch_ages};
pub use laws::{
    ages_in_step_start_with_all, durable_entries_outlive_runs, fit_disks_outlive_crashes,
    runs_outlive_crashes, timely_ages_complete,
};
pub use lending::LOG_LIMIT;
pub use mode::Mode;
pub use part::Part;
pub use stop::Stop;
