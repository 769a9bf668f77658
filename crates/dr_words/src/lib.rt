//! The words of a group's table: masks of members, the table's layout, and what each word packs.
//!
//! A member's number is below `MAX_MEMBERS`, and a group has 1 to `MAX_MEMBERS` members. No call of this
//! crate takes memory.
//!
//! The numbers of columns are names in code and numbers in a law, since a program outside might read a table.
//! A mask is told by a test of its members (`mask_of`), so one member more, another mask taken away, and whom
//! a row names are one kind of thing, with one lemma. A least count is one definition and one function, over
//! the rows of somebody; it has the least recv word, since the count stands above the mark of the final ones.
#![tactic(auto)]

mod column;
mod growth;
mod mask;
mod shape;
mod word;

pub use column::{
    BEAT_COLUMN, DONE_COLUMN, LOGGED_COLUMN, PIECES, RECEIVED_COLUMN, SUSPECTED_COLUMN, column_law,
    layout_law,
};
pub use growth::growth_laws;
pub use mask::{Mask, majorities_meet};
pub use shape::Shape;
pub use word::{pack_accept, pack_recv, pack_ring, unpack_accept, unpack_recv, unpack_ring};
