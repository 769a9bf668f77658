//! Slow programs that compute the definitions of `dr_history`, for tests and small inputs.
//!
//! Their contracts are these definitions: the round robin and its front, merges, places in a history,
//! histories in order, and agreement.
#![tactic(auto)]

mod agreement;
mod delivery;
mod order;
mod places;
mod prefix;
mod sent;
mod succession;

pub use agreement::agreed;
pub use delivery::{item_at, merge, place_at};
pub use order::in_order;
pub use places::{held_places, is_front};
pub use prefix::is_prefix;
