//! The table of an age that runs in threads: its words and the slots for its letters, and the hands whose
//! members take their deeds over them, each deed as one step on a word, or a few where a letter is given or
//! taken.
//!
//! A rule holds between any two steps, whoever takes them: the words and the letters, with the members of all
//! hands, are a program that the members have come to by some deeds from the beginning of their age. So
//! whatever order the threads made, it is one of the orders of which the laws of programs speak.
//!
//! The rule names the members that were dealt. They are told to the table when it is made, and stand in
//! proofs alone from then on; so the program from which deeds are counted is never read back out of members
//! that run. A hand is of members before their first deeds or behind their last ones, and is cut and put
//! together; a deed is of a seated member, the one of a hand of one. It may be ahead of its seat by appends,
//! which touch no word; they are counted with its next step. There is never more than one, but the definition
//! allows any number, so no law on what follows an append is needed.
//!
//! A step carries the member as it is: the seat has it alone, so nothing says where it stands in a list. A
//! push and an act are one kind, a store. What a look tells is a word that a program of the group, in a
//! reached world, has there: from this follow the member's condition on looks and that its next record is
//! valid. A join of two hands looks at a word once more than it must: so it learns that it has no more members
//! than the roster, its list has room, and a join can't fail.
#![tactic(auto)]

mod access;
mod board;
mod hand;
mod moves;
mod posts;
mod rule;
mod seated;

pub use board::{Board, close, deal};
pub use hand::{Hand, gather_hands};
pub use seated::SeatedMember;
