//! The commands of `derecho`: which words ask for which, what each comes to, and the call that the program makes.
//!
//! It stands apart from the program, since no other crate can call what a program has, and tests that stand
//! in a crate prove it a second time.
//!
//! A command is a row of the table of words, a line of `Does` and an arm of the code. The verb is looked up
//! in a table by one search, proved once for all tables (`Verbs`); the words behind it are read by a function
//! of the command's own. What is certain of every command (`HasDone`) is that its last line is that of its
//! ages and of what ended them, or that nothing was run, and that the status is one that `ends_of` allows:
//! clauses on statuses follow, so a new command brings no proof of theirs.
#![tactic(auto)]

mod check;
mod drill;
mod live;
mod outcome;
mod shards;
mod store;
mod top;
mod words;
mod wrong;

pub use check::{
    check_report, checked_line, checks_tell_what_is_right, played_scripts_are_judged_right,
    runs_are_right,
};
pub use drill::run_drill;
pub use live::{Rounds, rounds_of, run_lived};
pub use shards::{ShardCount, Sharding, run_sharded, sharding_of};
pub use store::ask_stores;
pub use top::{Ended, derecho};
pub use words::Command;
pub use wrong::wrong_words;
