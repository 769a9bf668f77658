//! Opens an age on the logs of its members, where others may be missing.
//!
//! First each log gets a vote for the age. Once all have it, each is cut back to what it and the start have in
//! common, and brought up to the start. So whatever stops that, at any moment, the logs are those of a try to
//! open the age: either no log has changed but for votes, or each log that is there has its vote.
//!
//! Logs are taken in places, one for each member of the roster, none for a missing one. A log that has View 0
//! of an age shows that all logs of its set have the vote, and a later choice with one of these takes a later
//! age. What a log may hold in each phase is told by what was on it (`IsVoting`, `IsRising`), and each append
//! by what it finds and makes: so contracts say what stands after a fault, and for which length a log is
//! full. Moments of several disks aren't tied to each other: of each log it is said what its images stand for
//! at each moment of a phase, and a law says of any choice of these that it is what a try leaves. What stands
//! on other logs is no part of an opening. [`cut_back`] and [`catch_up`] stand here, as `dr_restart` knows no
//! log.
#![tactic(auto)]

mod age;
mod catching_up;
mod cutting_back;
mod laws;
mod listing;
mod opening;

pub use age::{NotOpened, open_age};
pub use catching_up::{CatchFault, catch_up};
pub use cutting_back::cut_back;
pub use laws::{
    openings_are_tries, openings_hold, openings_lose_nothing_common, whole_openings_cut_nothing,
};
pub use listing::lists_of;
pub use opening::{OpenFault, open_logs};
