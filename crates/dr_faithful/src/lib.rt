//! What each event keeps true of a group: words tell the truth of their owners and only grow, each
//! item that is received is the one that was put, and no later item stands in its slot.
//!
//! The machine is that of `dr_machine`, where `docs/GROUP.md` explains it. This crate has no code but
//! its laws, each of one event, one arrival of words, or one world. That they hold of every reached world is a
//! law of `dr_world_laws`.
//!
//! What a word tells is one record with a field for each kind of column, over own words, the table and what
//! was seen. Of suspicions, final counts and promises old words need no invariant but that they have grown
//! into the own one: a mask is then a part of it, a final count the same, a promise no greater. That no
//! member has more items of a sender than some member has messages is a relation, which neither names the
//! greatest number nor changes with the view.
#![tactic(auto)]

mod laws;

pub use laws::{
    late_words_do_no_harm, members_are_faithful, no_later_item, pasts_grow, suspicions_are_told,
    words_grow,
};
