//! How an age of a group begins: what it starts with, where logs are missing too, or why it doesn't, and what its
//! members are told.
//!
//! What may stand in a start, what a restart is and what an age keeps are definitions over lists of entries
//! and votes, which know no logs and no disks; so choosing and bringing up have crates of their own above,
//! and worlds, laws of programs and completeness stand on no logs.
//!
//! Logs are handed in as a function (`Handed`): for each member its log, or none. What may stand (`MayStand`)
//! is one thing for logs and starts: a View may open an age with any members of the roster, and go on in one
//! with any others, whatever a vote had decided; it is judged by the script's messages alone, so it is the
//! same for each age. An age has at most 256 Views by it, as a View's number has 8 bits; so a start has at
//! most 16,842,752 entries, 122,159,104 bytes of a log. In histories in order more than half of a view stay,
//! and whoever else comes is late and in no earlier view (`IsSucceededBy`).
//!
//! Who is there (`IsPresent`) is any part of the roster with the first view's members; the others of it are
//! late. Holders are the logs whose last View has the greatest age of a last View; a log without a View is
//! none, and has nothing at all. The votes that name the next view are those of the age and view, with the
//! roster's number of members, that name somebody, of the roster alone, and leave somebody, on the logs
//! handed in of the view's members, holders or not; of equal ballots the vote of the least member counts, and
//! of its votes the first. The path ends where no vote names a next view, and with view 255, of which a
//! majority is still asked. All who handed in are present; any non-empty part of them may be the first view,
//! since no log tells who is late. The age is the one after the greatest of any View, vote or age vote: a
//! View that was cut off counts no more, but the age vote before it does.
//!
//! What stops leave (`AreLeft`) is one append more in all, and a vote is one that the guard of voting allows,
//! with the member's end left out of account. A try (`Attempt`) has its set, the start and whether each log
//! of its set has the age vote, by which it is opened; late members' logs get the vote too, and are brought
//! up like the others.
#![tactic(auto)]

mod copies;
mod laws;
mod lists;
mod setup;
mod start;

pub use copies::{copy_entries, copy_messages};
pub use laws::setups_are_of_the_group;
pub use lists::{Attempt, LogLists};
pub use setup::{late_of, setup_of, shape_of};
pub use start::{Start, first_start};
