//! The words of the shared table that one member has, and those that it sees of the others.
//!
//! Contracts see the words as lists, a row for each member. They lie by column, so a column is taken from
//! words that stand together; a word that is looked at, and the words of an item, stand farther apart for it.
//! What was sent lies by row, as who pushes goes along one, and own words stand in a list of their own
//! besides, where each is one load. The crate stands on `dr_history` for the members of a mask, by which
//! `column_of` is told.
#![tactic(auto)]

mod rows;

pub use rows::Rows;
