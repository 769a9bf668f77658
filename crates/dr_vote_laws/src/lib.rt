//! The laws of votes: whatever the members of a group do, and in whatever order, those of one view agree on
//! one value.
//!
//! A member whose view is to change votes for a value by a ballot, which is the number of the member that
//! has proposed it, and shows the vote in its accept words, which others see one by one. This crate has no
//! code but its laws: what each event keeps, and what follows of it. That it holds after every list of
//! events is a law of `dr_world_laws`. `docs/PROOFS.md` shows why.
//!
//! It stands below `dr_world_laws`: it needs faithfulness alone. That the members are faithful is known only
//! together with the histories, so the induction over events is there. What accept words tell is a record of
//! its own (`TellsVote`), with its own growth: no vote comes by a ballot below a promise. Promise and tag are
//! read from the own words of that view, so views that were left need no other text.
#![tactic(auto)]

mod laws;

pub use laws::{
    accepts_are_of_moments, exclusion_ends_members, late_votes_do_no_harm, votes_are_cuts,
    votes_are_one, votes_stay_true,
};
