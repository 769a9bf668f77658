ghost use Rattle.std.specs.Prelude.{◌≡◌, ◌<◌, length};
ghost use Rattle.dr_ring.specs.Slots.{HasShape};
ghost use Rattle.dr_bench.specs.Known.{IsOpen};

use crate::group::{ME, SHAPE, Tally, fresh_rows, mixed};
use dr_entry::Item;
use dr_ring::ready;
use dr_rows::Rows;
use dr_words::{Shape, pack_ring};
use std::alloc::{AllocError, Global};

/// Reads the items of 64 bytes that fill the slots of the other members.
#[inline(never)]
pub fn readies(alloc: Global, rounds: u32) -> Result<Tally, AllocError> {
    let shape = SHAPE;
    let mut rows = fresh_rows(alloc, &shape)?;
    fill_slots(&mut rows, &shape);
    let mut received = Vec::with_capacity(alloc, usize::from(shape.members))?;
    for _ in 0..shape.members {
        received.push(Item::Null)?;
    }
    let count = read_items(&rows, &shape, received.as_mut_slice(), rounds);
    let checksum = checksum(&received);
    Ok(Tally { count, checksum })
}

/// Reads all items so many times, keeps the last of each member, and tells how many were ready.
fn read_items(rows: &Rows, shape: &Shape, received: &mut [Item], rounds: u32) -> u64
    requires shape { HasShape shape.now rows.now }
    requires received { length received.old ≡ shape.now.members }
{
    let mut count: u64 = 0;
    for _ in 0..rounds {
        for slot in 0..shape.window {
            for row in 0..shape.members {
                if row != ME {
                    if let Some(item) = ready(rows, shape, row, u32::from(slot)) {
                        received[usize::from(row)] = item;
                        count = count.wrapping_add(1);
                    }
                }
            }
        }
    }
    count
}

/// Looks at the words of an item of 64 bytes in each slot of the others.
fn fill_slots(rows: &mut Rows, shape: &Shape)
    requires { IsOpen shape.now rows.old }
    ensures { IsOpen shape.now rows.new }
{
    for row in 0..shape.members {
        if row != ME {
            for slot in 0..shape.window {
                let k = u32::from(slot);
                see(rows, shape, row, shape.head_column(slot), pack_ring(k, 64));
                for part in 0..16u8 {
                    let piece = u32::from(row) * 0x0f0f_0f0f + u32::from(part);
                    see(
                        rows,
                        shape,
                        row,
                        shape.body_column(slot, part),
                        pack_ring(k, piece),
                    );
                }
            }
        }
    }
}

/// Looks at a word of another member, unless it has grown beyond it already.
fn see(rows: &mut Rows, shape: &Shape, row: u8, column: usize, word: u64)
    requires open { IsOpen shape.now rows.old }
    requires row { row < rows.old.members }
    requires other { 0 < row }
    requires column { column < rows.old.columns }
    ensures { IsOpen shape.now rows.new }
{
    if rows.seen(row, column) <= word {
        rows.look(row, column, word);
    }
}

/// A number made of the bytes of all these items.
fn checksum(items: &[Item]) -> u64 {
    let mut sum = 0;
    for item in items {
        if let Item::Text(message) = item {
            for byte in message.bytes() {
                sum = mixed(sum, u64::from(*byte));
            }
        }
    }
    sum
}
