//! The command `check`: reads a script and the text of a report that are handed in together, and judges it.
//!
//! An object with exactly two keys is told by their number: where one stands twice in the text its last value
//! counts. That a run's own report is right is said of the statuses 0, 8 and 9: with others a member may have
//! ended by a full log, and of the length that it then tells no clause says that 64 bits hold it; and of
//! disks that tell, since of others no age is known to keep the one before it.

mod checking;
mod handing;
mod laws;
mod verdict;

pub use checking::check_report;
pub use laws::{checks_tell_what_is_right, played_scripts_are_judged_right, runs_are_right};
pub use verdict::checked_line;
