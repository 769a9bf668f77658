//! A member at its seat, and the deeds that it takes from there.
ghost use Rattle.std.specs.Prelude.{◌≡◌, ◌<◌, ◌∷◌, [], true, Some};
ghost use Rattle.dr_member.specs.Deeds.{is_append, is_look, is_push, is_take};
ghost use Rattle.dr_program.specs.Running.{after_step, broken_off, next_deed};
ghost use Rattle.dr_program.specs.declared.deed.Deed.TheVariants.{Act, Give};
ghost use Rattle.dr_table.specs.{Cards.{HasAskedForLetter, IsAtEnd}, Steps.IsReachedMember, Sweeps.HasSwept};
ghost use Rattle.dr_turn.specs.Work.{deeds_left};

use crate::board::Board;
use crate::hand::Hand;
use crate::moves::store_at;
use crate::posts::{give_at, take_at, take_letter};
use crate::rule::{Slot, View};
use atomic_table::Seat;
use dr_member::{LogWhy, Member};
use std::marker::{Brand, Model};

/// A member of an age, and the seat from which it takes its steps. Contracts see it as the table of its board with
/// this member.
#[derive(Drop)]
pub struct SeatedMember {
    pub(crate) seat: Seat<Slot, View>,
    pub(crate) member: Member,
    /// How many places were dealt, for which `rest` has room.
    pub(crate) places: usize,
    /// The list of its hand, which is empty without it.
    pub(crate) rest: Vec<Option<Member>>,
}

impl Model for SeatedMember {
    ghost use Rattle.dr_table.specs.Cards.{Seated};

    ghost Value = { Seated };

    ghost use Rattle.dr_table.specs.Inside.{IsInsideSeated, seated_of};

    ghost view = { seated_of };

    ghost invariant = { IsInsideSeated };
}

impl SeatedMember {
    /// The member.
    pub fn member(&self) -> &Member
        ensures member { result.now ≡ self.now.member }
        ensures reached { IsReachedMember self.now.member }
    {
        &self.member
    }

    /// The member takes its looks from the next deed, which is one, to the last of the row.
    #[inline(always)]
    pub fn look_row(&mut self, board: &Board)
        requires board { self.old.table ≡ board.now.table }
        requires deed { is_look (next_deed self.old.member) ≡ true }
        ensures table { self.new.table ≡ self.old.table }
        ensures swept { HasSwept self.old.member self.new.member }
        ensures falls { deeds_left self.new.member < deeds_left self.old.member }
    {
        self.member.look_row(&mut self.seat, board);
    }

    /// The same for its pushes. It may crash before one of them.
    #[inline(always)]
    pub fn push_row(&mut self, board: &Board)
        requires board { self.old.table ≡ board.now.table }
        requires deed { is_push (next_deed self.old.member) ≡ true }
        ensures table { self.new.table ≡ self.old.table }
        ensures swept { HasSwept self.old.member self.new.member }
        ensures falls { deeds_left self.new.member < deeds_left self.old.member }
    {
        self.member.push_row(&mut self.seat, board);
    }

    /// The member takes its next deed, this act. An append that it made before is counted with it.
    #[inline(always)]
    pub fn act(&mut self, board: &Board, word: usize, new: u64)
        requires board { self.old.table ≡ board.now.table }
        requires deed { next_deed self.old.member ≡ Act word new }
        ensures table { self.new.table ≡ self.old.table }
        ensures member { self.new.member ≡ after_step 0 self.old.member }
        ensures falls { deeds_left self.new.member < deeds_left self.old.member }
    {
        store_at::<Brand>(board, &mut self.seat, &self.member.standing(), word, new);
        self.member.acted();
    }

    /// The member gives this late member its letter, which is its next deed.
    pub fn give(&mut self, board: &Board, late: u8)
        requires board { self.old.table ≡ board.now.table }
        requires deed { next_deed self.old.member ≡ Give late }
        ensures table { self.new.table ≡ self.old.table }
        ensures member { self.new.member ≡ after_step 0 self.old.member }
        ensures falls { deeds_left self.new.member < deeds_left self.old.member }
    {
        give_at::<Brand>(board, &mut self.seat, &self.member, late);
        self.member.given();
    }

    /// The late member takes its letter, which is its next deed, where one is there for it: exactly where the word
    /// behind the table that it reads for that is 2. (Another seat may write this word at any moment, so that this
    /// stands in the rule of the step, `Peeks`. The contract says what may be found.)
    pub fn take(&mut self, board: &Board)
        requires board { self.old.table ≡ board.now.table }
        requires deed { is_take (next_deed self.old.member) ≡ true }
        ensures table { self.new.table ≡ self.old.table }
        ensures asked { HasAskedForLetter self.old.member self.new.member }
        ensures falls { deeds_left self.new.member < deeds_left self.old.member }
    {
        let letter = take_at::<Brand>(board, &mut self.seat, &self.member);
        take_letter(&mut self.member, &letter);
    }

    /// The log of the member has the record that it appended.
    pub fn appended(&mut self)
        requires deed { is_append (next_deed self.old.member) ≡ true }
        ensures table { self.new.table ≡ self.old.table }
        ensures member { self.new.member ≡ after_step 0 self.old.member }
        ensures falls { deeds_left self.new.member < deeds_left self.old.member }
    {
        self.member.appended();
    }

    /// The append to its log failed, for this reason.
    pub fn append_failed(&mut self, why: &LogWhy)
        requires deed { is_append (next_deed self.old.member) ≡ true }
        ensures table { self.new.table ≡ self.old.table }
        ensures member { self.new.member ≡ broken_off why.now self.old.member }
        ensures falls { deeds_left self.new.member < deeds_left self.old.member }
    {
        self.member.append_failed(why);
    }

    /// The hand of this member, which has ended.
    pub fn into_hand(self) -> Hand
        requires ended { IsAtEnd self.member }
        ensures table { result.table ≡ self.table }
        ensures members { result.members ≡ Some self.member ∷ [] }
    {
        let SeatedMember {
            seat,
            member,
            places,
            rest: mut members,
        } = self;
        members.push_reserved(Some(member));
        Hand {
            seat,
            places,
            members,
        }
    }
}
