ghost use Rattle.std.specs.Prelude.{◌≡◌, ◌<◌, IfOk};
ghost use Rattle.dr_ring.specs.Slots.{HasShape};
ghost use Rattle.dr_bench.specs.Known.{IsUpTo};

use dr_rows::Rows;
use dr_words::Shape;
use std::alloc::{AllocError, Global};

/// The member whose rows are measured.
pub const ME: u8 = 0;

/// The shape of the largest group.
pub const SHAPE: Shape = Shape {
    members: 16,
    window: 8,
    banks: 16,
};

/// What was done: how many calls, and a number made of what they left.
#[derive(Clone, Copy, Debug, PartialEq, Eq)]
pub struct Tally {
    pub count: u64,
    pub checksum: u64,
}

/// The rows of member [`ME`] at the beginning.
pub fn fresh_rows(alloc: Global, shape: &Shape) -> Result<Rows, AllocError>
    ensures { IfOk result (IsUpTo shape.now 0) }
{
    Rows::new(alloc, shape.members, shape.columns(), ME)
}

/// A number made of bytes or words, in their order.
pub fn mixed(sum: u64, word: u64) -> u64 {
    sum.wrapping_mul(31).wrapping_add(word)
}

/// A number made of all words of the rows.
pub fn checksum(rows: &Rows, shape: &Shape) -> u64
    requires { HasShape shape.now rows.now }
{
    let mut sum = 0;
    for row in 0..shape.members {
        for column in 0..shape.columns() {
            sum = mixed(sum, rows.seen(row, column));
        }
    }
    sum
}
