//! The command `shards`: the members of a script are laid out in groups of their own, each of which runs.
//!
//! The line of a shard names its members by the roster's numbers, and the age behind it by the shard's, as
//! its script does. One last line stands behind all: the first of those that a run may have, over the ends in
//! all of them.

mod lines;
mod running;
mod sharding;

pub use running::run_sharded;
pub use sharding::{ShardCount, Sharding, sharding_of};
