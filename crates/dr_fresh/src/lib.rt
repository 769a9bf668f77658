//! Fresh logs, with View 0 on them: one on any disk, and one for each member of an age, on disks in
//! memory that never fail.
//!
//! Such disks have no faults to tell, so without `--logs` no member ends as `diskfault`; and no age comes
//! near the limit, by the length of a record and of a history.
#![tactic(auto)]

mod logs;
mod on_disk;

pub use logs::{LOG_LIMIT, logs_of};
pub use on_disk::{FreshFault, FreshWhy, fresh_log};
