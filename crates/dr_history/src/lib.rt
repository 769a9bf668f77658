//! The definitions of histories: what it means for those of a group to be right.
//!
//! They stand in `specs/`: the members of a mask, round-robin places, fronts and merges,
//! histories in order, and agreement. They know no words, counters, ballots or turns. `dr_oracle` has
//! slow programs that compute them.
//!
//! The crates above cite these definitions; none writes one again. A set of members is a mask in code, and
//! here the list of its members, ascending. Agreement is of members, one record each of what it has sent,
//! delivered, logged and knows to be durable, and not of bare lists.
//!
//! The place of a message in a view is that of the first item of its sender with its index; nobody sends an
//! index twice. A history in order holds an item at every place below a delivered message in its last view
//! alone, since in an earlier one a trim may cut places off. Ranges of masks and ages are part of what may
//! stand, so a lemma bounds the length of a sound start, and no caller has to promise it.
#![tactic(auto)]

mod members;
mod opening;
mod view;

pub use members::{has, members_of};
pub use opening::Opening;
pub use view::{GroupView, view_of};
