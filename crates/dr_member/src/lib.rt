//! One member of a group as it runs: a replica with its place in its turn.
//!
//! A member says what it does next, its next *deed*; whoever runs it does that to the group's table,
//! to the member's log or with a letter, and tells the member. Contracts see a [`Member`] as the running
//! member of the definitions.
//!
//! What is due at a place is an enum (`Due`) with the kind of a step and its act, and not a vote's value: a
//! step with a value is large, and would be made and copied at every act. Where an attribute says so
//! functions are inlined by hand: a deed's kind is then known where it is done, and acts, which are seldom,
//! stay out of the loop.
#![tactic(auto)]

mod acts;
mod bases;
mod fate;
mod judge;
mod laws;
mod member;
mod search;

pub use dr_program::{Deed, LogWhy, Setup};
pub use laws::a_look_may_see_what_has_grown;
pub use member::{Access, Member, Standing};
