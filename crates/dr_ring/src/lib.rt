//! The ring of a member: the words by which its latest items reach the others.
//!
//! An item's slot has a head word and 16 body words, each with the item's number. Which of them an
//! item needs, its head says. So a member takes an item only once it has seen all words of it, in
//! whatever order they came. No call of this crate takes memory.
#![tactic(auto)]

mod ring;

pub use ring::{free, is_ready, put, ready, sweep, taken};
