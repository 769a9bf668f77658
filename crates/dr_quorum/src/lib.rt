//! Chooses what the next age starts with, by the logs that are handed in, though others may be missing, or says
//! why they make none. What is chosen keeps what was durable, also through any list of tries to open an age.
//!
//! `choose` takes lists, and no logs: what stands on a log is lent where it stands ([`BorrowedLists`]), and
//! of all entries only those of the start are copied. One place is one member's; a missing log has none
//! there. Each log that ends in the last age is compared with the longest of them; only where one is none of
//! its fronts the pairs are gone through. It makes all who are there members of the first view; `dr_opening`
//! takes the late ones out. Why logs are refused is a type of the definitions, each reason where the checks
//! before it have passed; a `ChooseFault` is such a reason, or want of memory.
#![tactic(auto)]

mod ages;
mod borrowed;
mod choosing;
mod comparing;
mod copies;
mod faults;
mod handing;
mod holders;
mod keeping;
mod laws;
mod path;
mod reading;
mod standing;

pub use borrowed::BorrowedLists;
pub use choosing::choose;
pub use comparing::first_difference;
pub use copies::copy_of;
pub use faults::ChooseFault;
pub use keeping::{held_by_try, kept_after_choice, kept_by_majority};
pub use laws::chosen_entries_are_valid;
pub use reading::first_foreign;
