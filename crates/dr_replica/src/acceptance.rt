ghost use Rattle.std.specs.Prelude.{◌≡◌, ℕ, ◌^◌, ◌<◌, ◌≤◌, true};
ghost use Rattle.dr_replica.specs.Wedges.{accepted};
ghost use Rattle.dr_ring.specs.Slots.{HasShape};
ghost use Rattle.dr_rows.specs.Words.{IsWords, own, rewritten};
ghost use Rattle.dr_words.specs.{Accepts.part_of, Rewrites.is_accept_of};

use crate::wedge::is_accept;
use dr_entry::Value;
use dr_rows::Rows;
use dr_words::{Mask, Shape, pack_accept, unpack_accept};

/// What a member of a view has accepted.
#[derive(Clone, Copy)]
pub(crate) struct Acceptance {
    /// The shape of the group's table.
    pub shape: Shape,
    /// The members of the view.
    pub members: Mask,
    /// The tag of the ballot.
    pub tag: u8,
    /// The value.
    pub value: Value,
}

impl Acceptance {
    /// Makes its own words say so. All but its accept words stay.
    pub(crate) fn rewrite(&self, rows: &mut Rows)
        requires form { IsWords rows.old }
        requires shape { HasShape self.now.shape rows.old }
        requires rises { (column : ℕ) → own rows.old column
            ≤ accepted self.now column (own rows.old column) }
        ensures { rows.new ≡ rewritten rows.old (accepted self.now) }
    {
        for column in self.shape.leavers_column()..self.shape.head_column(0) {
            rows.set_own(column, self.word(column, rows.own(column)));
        }
    }

    /// The own word of a column, by the one before.
    fn word(&self, column: usize, word: u64) -> u64
        ensures { result ≡ accepted self.now column word }
    {
        if is_accept(&self.shape, self.members, column) {
            let (promise, _, _) = unpack_accept(word);
            pack_accept(promise, self.tag, self.part(column))
        } else {
            word
        }
    }

    /// The part of the value that stands in an accept column.
    fn part(&self, column: usize) -> u64
        requires { is_accept_of self.now.shape.members self.now.members column ≡ true }
        ensures part { result ≡ part_of self.now.shape.members self.now.value column }
        ensures small { result < 2 ^ 48 }
    {
        if column == self.shape.leavers_column() {
            u64::from(self.value.leavers)
        } else {
            u64::from(self.value.trim[column - self.shape.trim_column(0)])
        }
    }
}
