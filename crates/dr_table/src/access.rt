//! What a seat does for a member in a sweep of its looks or pushes.

use crate::board::Board;
use crate::moves::{look_at, store_at};
use crate::rule::{Slot, View};
use atomic_table::Seat;
use dr_member::{Access, Standing};
use std::marker::Brand;

impl Access<Board> for Seat<Slot, View> {
    ghost use Rattle.std.specs.Prelude.{◌≡◌};
    ghost use Rattle.dr_table.specs.Sweeps.{HasComeBySweep};

    ghost home = { λ seat board. seat.table_id ≡ board.table.id };

    ghost came = { λ first from seat now.
        (seat.table_id ≡ first.table_id) × HasComeBySweep seat.table_id.words from seat.me now };

    #[inline(always)]
    fn look(&mut self, board: &Board, now: &Standing<'_>, word: usize) -> u64 {
        look_at::<Brand>(board, self, now, word)
    }

    #[inline(always)]
    fn push(&mut self, board: &Board, now: &Standing<'_>, word: usize, new: u64) {
        store_at::<Brand>(board, self, now, word, new);
    }
}
