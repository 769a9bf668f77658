//! Looks at the logs of a script's group in a folder, and tells what a run over them would do. It reads files, and
//! writes none.

mod reading;
mod top;

pub use top::{FOLDER_USAGE, check_logs};
