//! Shards: the members of a roster, laid out in groups that know nothing of each other.
//!
//! Of `s` shards member `m` is in shard `m % s`, and has the number `m / s` there. Each shard is a group of
//! its own with a script of its own: its members with their messages and faults.
//!
//! A fault that crosses is named by its place in the script's list, from 0: the first suspicion whose member
//! and other are in different shards; a crash crosses nothing. By its place among the shard's members
//! messages are dealt, by the quotient faults name it; that these are one is a law. No member of a shard's
//! age ends by its log: disks never fail, with more room than an age can fill. Without that two ages of one
//! shard could differ by a failed append. A layout that is to be refused takes no memory.
#![tactic(auto)]

mod fault;
mod laws;
mod layout;
mod run;

pub use fault::LayFault;
pub use laws::{members_keep_their_numbers, shards_repeat};
pub use layout::lay_out;
pub use run::{ShardMode, run_shards};
