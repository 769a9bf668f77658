ghost use Rattle.std.specs.Prelude.{◌≡◌, ℕ, ◌^◌, ◌<◌, ◌≤◌, true};
ghost use Rattle.dr_replica.specs.Wedges.{wedged};
ghost use Rattle.dr_ring.specs.Slots.{HasShape};
ghost use Rattle.dr_rows.specs.Words.{IsWords, own, rewritten};
ghost use Rattle.dr_words.specs.Rewrites.{is_accept_of, is_recv_of};

use dr_rows::Rows;
use dr_words::{Mask, SUSPECTED_COLUMN, Shape, pack_accept, pack_recv, unpack_accept, unpack_recv};

/// How a member of a view stands once it suspects or wishes for somebody: it takes no more items, so its counts
/// are final, and it accepts the proposals of one member alone.
#[derive(Clone, Copy)]
pub(crate) struct Wedge {
    /// The shape of the group's table.
    pub shape: Shape,
    /// The members of the view.
    pub members: Mask,
    /// Those that it suspects or wishes for.
    pub suspects: Mask,
    /// The member whose proposal it waits for.
    pub promise: u8,
}

impl Wedge {
    /// Makes its own words say so. Those before the suspected word and those of the ring stay.
    pub(crate) fn rewrite(&self, rows: &mut Rows)
        requires form { IsWords rows.old }
        requires shape { HasShape self.now.shape rows.old }
        requires recv { (column : ℕ) → is_recv_of self.now.shape.members self.now.members column ≡ true
            → own rows.old column < 2 ^ 33 }
        requires rises { (column : ℕ) → own rows.old column
            ≤ wedged self.now column (own rows.old column) }
        ensures { rows.new ≡ rewritten rows.old (wedged self.now) }
    {
        for column in SUSPECTED_COLUMN..self.shape.head_column(0) {
            rows.set_own(column, self.word(column, rows.own(column)));
        }
    }

    /// The own word of a column, by the one before.
    fn word(&self, column: usize, word: u64) -> u64
        requires { is_recv_of self.now.shape.members self.now.members column ≡ true → word < 2 ^ 33 }
        ensures { result ≡ wedged self.now column word }
    {
        if column == SUSPECTED_COLUMN {
            u64::from(self.suspects.bits())
        } else if self.is_recv(column) {
            let (count, _) = unpack_recv(word);
            pack_recv(count, true)
        } else if is_accept(&self.shape, self.members, column) {
            let (_, tag, value) = unpack_accept(word);
            pack_accept(self.promise, tag, value)
        } else {
            word
        }
    }

    /// Whether the column is that of the recv word of a member of the view.
    fn is_recv(&self, column: usize) -> bool
        ensures { result ≡ is_recv_of self.now.shape.members self.now.members column }
    {
        let first = self.shape.recv_column(0);
        first <= column
            && column < self.shape.leavers_column()
            && self.members.has((column - first) as u8)
    }
}

/// Whether a column is that of the leavers, or of the trim of one of these members.
pub(crate) fn is_accept(shape: &Shape, members: Mask, column: usize) -> bool
    ensures { result ≡ is_accept_of shape.now.members members column }
{
    let first = shape.trim_column(0);
    column == shape.leavers_column()
        || first <= column && column < shape.head_column(0) && members.has((column - first) as u8)
}
