//! What a call comes to that runs scripts: the ages, what ended the run before its last one, what is said of
//! them, and the last line.
//!
//! What a play comes to is one of two (`WasPlayedOrNot`): a script in which all who take part are late is no
//! run, as an age needs somebody in its first view, and whoever calls has named everybody; so it is told how
//! the program is called. The words are wrong, of a right script, so the refusals of a script and a failed
//! source come before. Where nobody takes part nobody is late, and logs are refused for a quorum.
#![tactic(auto)]

mod last;
mod outcome;
mod playing;
mod running;
mod watching;

pub use dr_ages::{Mode, Part};
pub use last::{Kind, last_of};
pub use outcome::{Body, Folder, Outcome, Play, without_ages};
pub use playing::{are_all_late, play_script, play_text, simulate, simulate_text};
pub use running::run_in_memory;
pub use watching::watch_in_memory;
