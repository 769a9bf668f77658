//! The theory of turns: the search for the next place, and the bound on the deeds that are left.
#![tactic(auto)]

mod laws;

pub use laws::{deeds_keep_members, frozen_rows_are_not_read, the_search_goes_to_the_next_place};
