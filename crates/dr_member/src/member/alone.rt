//! Rows taken whole, over a table at which nobody else looks.
//!
//! In a simulation in lockstep that nobody watches no other member comes between two deeds of a row. So these
//! go over its words as slices, taken once, with no call for each: after a store through a reference the
//! compiler must load again what it had in registers. What `Rows` makes of a row is the fold of its single
//! looks or pushes, and these are so many deeds one after the other (`LeadsTo`). In a turn in which a member
//! crashes it takes one push at a time, since the crash comes between two.
ghost use Rattle.std.specs.Prelude.{◌≡◌, ◌<◌, ◌≤◌, ℕ, None, length, true};
ghost use Rattle.dr_member.specs.{Alone.{LeadsTo, SeesAlong}, Deeds.{is_look, is_push, table_size}};
ghost use Rattle.dr_program.specs.{Form.IsRunningMember, Running.next_deed};
ghost use Rattle.dr_turn.specs.Work.{HasGrownTo, IsStill, deeds_left};

use super::Member;
use crate::search::leave_row;
use dr_program::Place;

impl Member {
    /// Takes its look, and others of the row behind it in one go, at a table that stays as it is meanwhile.
    #[inline(always)]
    pub fn look_alone(&mut self, table: &[u64])
        requires deed { is_look (next_deed self.old) ≡ true }
        requires size { table_size self.old ≤ length table.now }
        requires sight { SeesAlong table.now self.old }
        ensures taken { (n : ℕ) × LeadsTo n table.now self.old table.now self.new }
        ensures form { IsRunningMember self.new }
        ensures grown { HasGrownTo self.old self.new }
        ensures falls { deeds_left self.new < deeds_left self.old }
        ensures keeps { IsStill self.old self.new }
    {
        let Place { row, column, .. } = self.place;
        let first = self.look_index(row, 0);
        self.replica.look_row(row, column, table, first);
        self.replica.wait_for(&mut self.fate.waits, row);
        leave_row(&self.replica, &self.fate, &mut self.place, &mut self.ready);
    }

    /// Takes its push, and others of the row behind it in one go; in a turn in which it crashes, this one alone.
    #[inline(always)]
    pub fn push_alone(&mut self, table: &mut [u64])
        requires deed { is_push (next_deed self.old) ≡ true }
        requires size { table_size self.old ≤ length table.old }
        ensures taken { (n : ℕ) × LeadsTo n table.old self.old table.new self.new }
        ensures form { IsRunningMember self.new }
        ensures grown { HasGrownTo self.old self.new }
        ensures falls { deeds_left self.new < deeds_left self.old }
        ensures keeps { IsStill self.old self.new }
    {
        let Place {
            row: to,
            column,
            ..
        } = self.place;
        let first = self.push_index(to, 0);
        if self.fate.crash.is_some() {
            table[first + column] = self.replica.own(column);
            self.pushed();
            return;
        }
        let count = self.replica.push_row(to, column, table, first);
        self.fate.pushes = self.fate.pushes.saturating_add(count);
        leave_row(&self.replica, &self.fate, &mut self.place, &mut self.ready);
    }
}
