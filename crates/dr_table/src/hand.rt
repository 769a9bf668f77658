//! Hands of members.
ghost use Rattle.std.specs.Prelude.{◌≡◌, ◌≤◌, ◌+◌, ◌-◌, ◌++◌, ◌∷◌, [], None, Some, IfErr, IfOk, drop, length, take, vec_capacity, vec_len};

use crate::board::Board;
use crate::moves::{count_at, cut_at};
use crate::rule::{Gathers, Slot, View};
use crate::seated::SeatedMember;
use atomic_table::Seat;
use dr_member::Member;
use std::alloc::{AllocError, Global};
use std::marker::{Brand, Model};

/// Some members of an age, before their first deeds or behind their last ones, and a seat of all of them. Contracts
/// see it as the table of its board with these members.
#[derive(Drop)]
pub struct Hand {
    pub(crate) seat: Seat<Slot, View>,
    /// How many places were dealt, for which `members` has room.
    pub(crate) places: usize,
    pub(crate) members: Vec<Option<Member>>,
}

impl Model for Hand {
    ghost use Rattle.dr_table.specs.Cards.{Cards};

    ghost Value = { Cards };

    ghost use Rattle.dr_table.specs.Inside.{IsInsideHand, cards_of};

    ghost view = { cards_of };

    ghost invariant = { IsInsideHand };
}

impl Hand {
    /// The number of places.
    pub fn len(&self) -> usize
        ensures { result ≡ length self.now.members }
    {
        self.members.len()
    }

    /// The member of a hand of one place, with its seat.
    ///
    /// # Errors
    ///
    /// The hand as it was, where nobody stands at its place.
    pub fn seated(self) -> Result<SeatedMember, Hand>
        requires one { length self.members ≡ 1 }
        ensures table { IfOk result (λ seated. seated.table ≡ self.table) }
        ensures member { IfOk result (λ seated. self.members ≡ Some seated.member ∷ []) }
        ensures nobody { IfErr result (λ hand. self.members ≡ None ∷ []) }
        ensures same { IfErr result (λ hand. hand ≡ self) }
    {
        let Hand {
            seat,
            places,
            mut members,
        } = self;
        match members.take_last() {
            Some(member) => Ok(SeatedMember {
                seat,
                member,
                places,
                rest: members,
            }),
            None => {
                members.push_reserved(None);
                Err(Hand {
                    seat,
                    places,
                    members,
                })
            }
        }
    }

    /// Two hands of the same board: the first with the first `at` members, the second with the others.
    ///
    /// # Errors
    ///
    /// Want of memory alone; the hand is as before then.
    pub fn split(
        self,
        alloc: Global,
        board: &Board,
        at: usize,
    ) -> Result<(Hand, Hand), (Hand, AllocError)>
        requires board { self.table ≡ board.now.table }
        requires at { at ≤ length self.members }
        ensures tables { IfOk result (λ r. (r.0.table ≡ board.now.table) × (r.1.table ≡ board.now.table)) }
        ensures members { IfOk result (λ r.
            (r.0.members ≡ take at self.members) × (r.1.members ≡ drop at self.members)) }
        ensures error { IfErr result (λ r. r.0 ≡ self) }
    {
        let Hand {
            mut seat,
            places,
            mut members,
        } = self;
        let Ok(mut tail) = Vec::with_capacity(alloc, members.capacity()) else {
            return Err((
                Hand {
                    seat,
                    places,
                    members,
                },
                AllocError,
            ));
        };
        move_tail(&mut members, &mut tail, at);
        let other = cut_at::<Brand>(board, &mut seat, at);
        Ok((
            Hand {
                seat,
                places,
                members,
            },
            Hand {
                seat: other,
                places,
                members: tail,
            },
        ))
    }
}

/// One hand of the same board: the members of `a`, then those of `b`.
pub fn gather_hands(board: &Board, a: Hand, b: Hand) -> Hand
    requires first { a.table ≡ board.now.table }
    requires second { b.table ≡ board.now.table }
    ensures table { result.table ≡ board.now.table }
    ensures members { result.members ≡ a.members ++ b.members }
{
    let Hand {
        mut seat,
        places,
        mut members,
    } = a;
    let Hand {
        seat: other,
        members: mut more,
        ..
    } = b;
    board.table.shared.join_seat::<Gathers>(&mut seat, other);
    count_at::<Brand>(board, &mut seat);
    members.append(&mut more).unwrap();
    Hand {
        seat,
        places,
        members,
    }
}

/// Moves the members from a place on, in their order, to the end of another list that has room for them.
fn move_tail(from: &mut Vec<Option<Member>>, into: &mut Vec<Option<Member>>, at: usize)
    requires at { at ≤ length from.old.items }
    requires room { vec_len into.old + (length from.old.items - at) ≤ vec_capacity into.old }
    ensures from { (from.new.items ≡ take at from.old.items)
        × (vec_capacity from.new ≡ vec_capacity from.old) }
    ensures into { (into.new.items ≡ into.old.items ++ drop at from.old.items)
        × (vec_capacity into.new ≡ vec_capacity into.old) }
{
    if from.len() > at {
        let last = from.take_last();
        move_tail(from, into, at);
        into.push_reserved(last);
    }
}
