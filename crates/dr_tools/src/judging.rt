//! Judges a report by its script, and where two histories of it differ, shows the entries that do.

mod differing;
mod top;
mod verdict;

pub use top::judge_report;
