//! What one looks at groups, scripts and logs with: each function is a word of the program `derecho_tools`. It
//! looks at the words behind that one, reads its source, and writes what is to be said, with the status that is
//! due.
#![tactic(auto)]

mod explaining;
mod folder;
mod judging;
mod log;
mod summary;
mod sweeps;
mod tracing;

pub use explaining::{EXPLAIN_USAGE, explain};
pub use folder::{FOLDER_USAGE, check_logs};
pub use judging::judge_report;
pub use log::print_log;
pub use summary::{SUMMARY_USAGE, summarize};
pub use sweeps::{SWEEP_USAGE, sweep};
pub use tracing::{TRACE_USAGE, Traced, trace};
