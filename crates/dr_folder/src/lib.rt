//! What a folder of logs is: what each file has, what the next run over them would start with or be refused by,
//! and which log may be moved away.
//!
//! A law says that a run over disks with the bytes of these files comes to what is foretold of it.
//!
//! It mounts copies of the files by `Log::mount`, and asks `choose` what they make a run start with that
//! misses none: the code by which a run opens its age, so its verdict can't be another. A file that isn't
//! there counts as an empty log that was handed in, as a run takes it. It asks neither whether each log has
//! room, nor whether files may be written.
#![tactic(auto)]

mod advice;
mod checking;
mod details;
mod differences;
mod file;
mod foretelling;
mod laws;
mod mounting;
mod report;
mod rows;
mod survey;
mod warnings;

pub use advice::Advice;
pub use checking::{FolderCheck, check_folder};
pub use file::LogFile;
pub use laws::verdicts_are_the_runs;
pub use report::{LOGS_MISSING, folder_report};
pub use survey::Survey;
pub use warnings::warnings_of;
