//! The log of a member: its entries, votes and age votes on a disk, safe from a crash at any moment.
//!
//! A log is eight bytes, then for each record a gate byte 1 and the record, then a closed gate. An
//! append writes its record and a closed gate behind the one that stands there, syncs, opens that
//! gate, and syncs. So whatever a crash leaves, at each moment of the call, stands for the records
//! from before, or for these and the new one, and for the latter once the append has answered Ok. Which bytes are
//! a log, and what its records make, is `dr_log_bytes`.
//!
//! No fault of a disk is hidden: a call that answers Ok, or refuses for another reason, leaves its disk's
//! count as it was. A second sync that succeeds says nothing of what the first lost on a real disk, so no
//! failed call is tried again. The calls of the disk are part of the contracts: an append costs two writes
//! and two syncs, one of several entries a write for each and one more, and two syncs, and a mount of a log
//! that is there one sync, with one read of the length that the disk told; where that gives fewer bytes, the
//! file ends there. What a crash leaves during a mount is compared with what one could have left before it:
//! until the first sync the disk may read a record that a crash would lose.
//!
//! What lasts (`Lasts`) is what each image has at a moment, and each at every later one: of anything that may
//! be on a log, since it is passed on from append to append; only a cut takes away. An append is the group of
//! one record, so what is proved of several behind one gate is proved once; [`Log::append_entries`] takes its
//! last entry apart, so that there is one. A vote for an age is told as one append or two (`HasVotedAge`),
//! with all that an append promises of each, so each refusal is that of the append that failed.
//!
//! At most nine bytes are a new log and never a damaged one: a crash while a log is made leaves such a file.
//! New logs are of the newer format; older ones go on as such until a vote for an age upgrades them. A log
//! longer than its limit may be mounted, and takes no further record. Spares are of entries, of votes and of
//! other records, and each counts for the longest record, so one bound serves all; room is made for three
//! others: a vote for an age, the upgrade before it and a cut. The vote asks for one spare, and for the
//! second only where the log is of the older format.
#![tactic(auto)]

mod appending;
mod fault;
mod laws;
mod log;
mod making;
mod opening;
mod shelves;
mod spares;

pub use fault::{LogFault, MountFault, MountWhy};
pub use laws::blocks_are_short;
pub use log::Log;
