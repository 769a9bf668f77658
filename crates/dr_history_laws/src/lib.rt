//! Laws of the histories that grow by the places of a view.
//!
//! Behind a View a member lays down the messages of the view's places, place by place, and leaves
//! the nulls out. The laws say what holds of such a history, however a member comes by it: it is in
//! order, what was laid stays, and where one history is a prefix of another both have the same past
//! at each View. They know no words of a table and no deeds of members.
#![tactic(auto)]

mod laying;
mod order;
mod restarting;
mod sending;

pub use laying::{laying_laws, merge_laws};
pub use order::{agreement_law, course_laws, opening_laws, order_laws, rest_law, view_laws};
pub use restarting::{restarting_laws, standing_laws};
pub use sending::sending_laws;
