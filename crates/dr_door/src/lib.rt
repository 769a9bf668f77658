//! The door of a group: one member of it in a process of its own.
//!
//! A [`Door`] has one member, and this member's copy of the table. It does by itself what concerns nobody else, its
//! looks and its acts; whoever holds it carries what it pushes to the others, hands it what comes from them, and
//! keeps its log. Nothing that is handed to it is trusted to be due or in form: each call tests that, and says so
//! where it is not. No word that comes breaks the form of its member, or makes it do what its program may not. But
//! a word is believed: a false one that is in form, and says that another member suspects this one, ends it as a true
//! one would. What the doors of a group are together, over words that are lost, late, doubled or out of order, the
//! laws say.
#![tactic(auto)]

mod coming;
mod door;
mod laws;
mod letters;
mod opening;
mod refused;

pub use coming::receiver_of;
pub use door::Door;
pub use dr_entry::encode;
pub use dr_program::{Deed, LogWhy, Packet};
pub use laws::{
    doors_go_by_steps, doors_keep_programs, doors_keep_what_they_send, doors_never_take_back,
    opened_doors_have_begun,
};
pub use opening::{OpenFault, begun_door, open_door};
pub use refused::{NotDue, NotTaken, Refused};
