//! Yards: where the disks of a group's members are kept while no age runs; and disks that are files.
//!
//! Yards have a crate apart from `dr_io`, which is below everything, since they lend disks.
#![tactic(auto)]

mod berth;
mod calm_yard;
mod file_disk;
mod file_yard;
mod gates;
mod memory_yard;
mod paths;
mod seal;
mod sealing;
mod seals;
mod sums;
mod trouble;
mod yard;

pub use calm_yard::CalmYard;
pub use file_disk::FileDisk;
pub use file_yard::{FileYard, accept_log, reason_against};
pub use memory_yard::MemoryYard;
pub use paths::path_of;
pub use seal::{Breach, Seal, Sealed, breach_of};
pub use sealing::sealed_in;
pub use seals::Seals;
pub use sums::checksum;
pub use trouble::{Reason, Trouble};
pub use yard::Yard;
