ghost use Rattle.dr_bench.specs.Known.{IsUpTo};

use crate::group::{ME, SHAPE, Tally, checksum, fresh_rows};
use dr_rows::Rows;
use dr_words::Shape;
use std::alloc::{AllocError, Global};

/// In each round all words have grown by 1: those of the other members are looked at, and the own
/// ones are pushed to each other member.
#[inline(never)]
pub fn looks(alloc: Global, rounds: u32) -> Result<Tally, AllocError> {
    let shape = SHAPE;
    let mut rows = fresh_rows(alloc, &shape)?;
    let mut count: u64 = 0;
    let mut sum: u64 = 0;
    for round in 0..rounds {
        let done = look_and_push(&mut rows, &shape, u64::from(round) + 1);
        count = count.wrapping_add(done.count);
        sum = sum.wrapping_add(done.checksum);
    }
    let checksum = checksum(&rows, &shape).wrapping_add(sum);
    Ok(Tally { count, checksum })
}

/// Makes each own word this one, and for each other member looks at this word in its row and pushes
/// the own word to it, a column after the other. Counts the pushes, and adds up what is seen.
fn look_and_push(rows: &mut Rows, shape: &Shape, word: u64) -> Tally
    requires { IsUpTo shape.now word rows.old }
    ensures { IsUpTo shape.now word rows.new }
{
    let mut count: u64 = 0;
    let mut sum: u64 = 0;
    for column in 0..shape.columns() {
        rows.set_own(column, word);
        for other in 0..shape.members {
            if other != ME {
                rows.look(other, column, word);
                sum = sum.wrapping_add(rows.seen(other, column));
                if rows.changed(other, column) {
                    rows.pushed(other, column);
                    count = count.wrapping_add(1);
                }
            }
        }
    }
    Tally {
        count,
        checksum: sum,
    }
}
