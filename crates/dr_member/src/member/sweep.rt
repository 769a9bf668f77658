//! Sweeps: the looks of a row, or the pushes of one, in one loop.
//!
//! Most deeds of a member are looks and pushes. A sweep takes those of a row without writing down the
//! member's place at each of them, which a member that is asked for each deed must.
//!
//! In between it is no `Member`, since its place is stale: contracts see it as `Standing`, which has the
//! place that counts. The loop stands here, where the fields are open, and a table comes to it by the trait
//! `Access`, so this crate knows nothing of threads. What such a table and a member come to is a relation of
//! its own choice that each step keeps, and then a whole row keeps it. By a seed another member may take the
//! next deed, so there each is taken by itself.
//!
//! A member sweeps a ring once a turn: where it comes to a row whose items it may receive, it asks once which
//! of the next are there, as many as a ring has slots, and keeps the answer as a mask, which moves up with
//! each receive. The mask goes with the place and not with the replica, since elsewhere nothing is asked of
//! it; contracts don't see it. What saves is that an item of which this is known is taken without a test of
//! its tags (`dr_ring::taken`).
ghost use Rattle.std.specs.Prelude.{◌≡◌, ◌<◌, true};
ghost use Rattle.dr_member.specs.Deeds.{is_look, is_push, table_size};
ghost use Rattle.dr_program.specs.{Form.IsRunningMember, Running.{Running, after_step, next_deed}};
ghost use Rattle.dr_program.specs.{Reading.step_of_member, Sight.MaySee, declared.deed.Deed.TheVariants.{Look, Push}};
ghost use Rattle.dr_turn.specs.Work.{HasGrownTo, IsStill, deeds_left};

use super::Member;
use crate::fate::Fate;
use crate::search::{leave_row, next_changed};
use dr_program::Place;
use dr_replica::Replica;
use std::marker::Model;

/// A member where it stands, at a place that it may not have written down yet. Contracts see it as the
/// running member there.
#[derive(Drop)]
pub struct Standing<'a> {
    replica: &'a Replica,
    fate: &'a Fate,
    place: Place,
}

impl<'a> Model for Standing<'a> {
    ghost use Rattle.dr_program.specs.Running.{Running};
    ghost use Rattle.dr_member.specs.Search.{standing};

    ghost Value = { Running };

    ghost view = { λ s. standing s.replica.now s.fate.now s.place };
}

/// Access to a table of the kind `B`: it does looks and pushes for members.
///
/// `home` says that it is access to this table. `came` says of one access and one member that they have come
/// to another access and another member. An implementation chooses by what; each look and each push keeps it,
/// and so does a sweep.
pub trait Access<B> {
    ghost use Rattle.dr_program.specs.Running.{Running};

    ghost home: { Self → B → Type 0 };

    ghost came: { Self → Running → Self → Running → Type 0 };

    /// Does the look that is due to the member, at the word of the table with this index, and says what it found
    /// there.
    fn look(&mut self, board: &B, now: &Standing<'_>, word: usize) -> u64
        requires home { Self.home self.old board.now }
        requires came { (first : Self) × (from : Running) × Self.came first from self.old now.now }
        requires deed { next_deed now.now ≡ Look word }
        requires within { word < table_size now.now }
        ensures home { Self.home self.new board.now }
        ensures sees { MaySee now.now (step_of_member now.now) result }
        ensures came { (first : Self) (from : Running) → Self.came first from self.old now.now
            → Self.came first from self.new (after_step result now.now) };

    /// Does the push that is due to it, of the word `new` to this index.
    fn push(&mut self, board: &B, now: &Standing<'_>, word: usize, new: u64)
        requires home { Self.home self.old board.now }
        requires came { (first : Self) × (from : Running) × Self.came first from self.old now.now }
        requires deed { next_deed now.now ≡ Push word new }
        requires within { word < table_size now.now }
        ensures home { Self.home self.new board.now }
        ensures came { (first : Self) (from : Running) → Self.came first from self.old now.now
            → Self.came first from self.new (after_step 0 now.now) };
}

impl Member {
    /// Where it stands.
    #[inline(always)]
    pub fn standing(&self) -> Standing<'_>
        ensures { result ≡ self.now }
    {
        Standing {
            replica: &self.replica,
            fate: &self.fate,
            place: self.place,
        }
    }

    /// Takes its looks from this one to the last one of the row.
    #[inline(always)]
    pub fn look_row<B, A: Access<B>>(&mut self, access: &mut A, board: &B)
        requires home { A.home access.old board.now }
        requires came { A.came access.old self.old access.old self.old }
        requires deed { is_look (next_deed self.old) ≡ true }
        ensures home { A.home access.new board.now }
        ensures came { A.came access.old self.old access.new self.new }
        ensures form { IsRunningMember self.new }
        ensures grown { HasGrownTo self.old self.new }
        ensures falls { deeds_left self.new < deeds_left self.old }
        ensures keeps { IsStill self.old self.new }
    {
        let Place {
            row,
            mut column,
            ..
        } = self.place;
        let first = self.look_index(row, 0);
        let columns = self.bases.columns;
        loop {
            let now = Standing {
                replica: &self.replica,
                fate: &self.fate,
                place: Place {
                    column,
                    ..self.place
                },
            };
            let word = access.look(board, &now, first + column);
            self.replica.look(row, column, word);
            column += 1;
            if column >= columns {
                break;
            }
        }
        self.replica.wait_for(&mut self.fate.waits, row);
        leave_row(&self.replica, &self.fate, &mut self.place, &mut self.ready);
    }

    /// Takes its pushes from this one to the last one of the row, or to the one before which it crashes.
    #[inline(always)]
    pub fn push_row<B, A: Access<B>>(&mut self, access: &mut A, board: &B)
        requires home { A.home access.old board.now }
        requires came { A.came access.old self.old access.old self.old }
        requires deed { is_push (next_deed self.old) ≡ true }
        ensures home { A.home access.new board.now }
        ensures came { A.came access.old self.old access.new self.new }
        ensures form { IsRunningMember self.new }
        ensures grown { HasGrownTo self.old self.new }
        ensures falls { deeds_left self.new < deeds_left self.old }
        ensures keeps { IsStill self.old self.new }
    {
        let Place {
            row: to,
            mut column,
            ..
        } = self.place;
        let first = self.push_index(to, 0);
        let columns = self.bases.columns;
        loop {
            let now = Standing {
                replica: &self.replica,
                fate: &self.fate,
                place: Place {
                    column,
                    ..self.place
                },
            };
            access.push(board, &now, first + column, self.replica.own(column));
            self.replica.push(to, column);
            self.fate.pushes = self.fate.pushes.saturating_add(1);
            column = next_changed(&self.replica, columns, to, column + 1);
            if column >= columns {
                leave_row(&self.replica, &self.fate, &mut self.place, &mut self.ready);
                return;
            }
            if self.fate.crashes_now() {
                self.place.column = column;
                return;
            }
        }
    }
}
