ghost use Rattle.std.specs.Prelude.{◌≡◌, ℕ, ◌+◌, ◌-◌, ◌^◌, ◌<◌, nat_lt, All, IfOk, length, vec_len};
ghost use Rattle.dr_history.specs.Members.{has};
ghost use Rattle.dr_bench.specs.Known.{HasPut, IsItem, IsUpTo};

use crate::group::{ME, SHAPE, Tally, checksum, fresh_rows};
use dr_entry::{Item, MAX_MESSAGE_LENGTH, Message};
use dr_ring::{free, put};
use dr_rows::Rows;
use dr_words::{Mask, Shape, pack_recv};
use std::alloc::{AllocError, Global};

/// How many items there are to be put, over and over.
const ITEMS: usize = 8;

/// Puts items of 64 bytes into the own slots, one after the other. The others have received them
/// all beforehand.
#[inline(never)]
pub fn puts(alloc: Global, rounds: u32) -> Result<Tally, AllocError> {
    let shape = SHAPE;
    let mut rows = fresh_rows(alloc, &shape)?;
    let items = long_items(alloc)?;
    receive_all(&mut rows, &shape);
    let count = put_items(&mut rows, &shape, &items, rounds);
    let checksum = checksum(&rows, &shape);
    Ok(Tally { count, checksum })
}

/// Puts so many items, and tells how many of them found their slot free.
fn put_items(rows: &mut Rows, shape: &Shape, items: &[Item], rounds: u32) -> u64
    requires rows { HasPut shape.now 0 rows.old }
    requires count { length items.now ≡ ITEMS }
    requires items { All IsItem items.now }
    ensures { HasPut shape.now rounds rows.new }
{
    let members = Mask::all(shape.members);
    let mut count: u64 = 0;
    for k in 0..rounds {
        if put_if_free(rows, shape, members, k, &items[k as usize % ITEMS]) {
            count = count.wrapping_add(1);
        }
    }
    count
}

/// Puts an item if its slot is free, and tells whether it is.
fn put_if_free(rows: &mut Rows, shape: &Shape, members: Mask, k: u32, item: &Item) -> bool
    requires rows { HasPut shape.now k rows.old }
    requires members { (n : ℕ) → has members n ≡ nat_lt n shape.now.members }
    requires number { k < 2 ^ 32 - 1 }
    requires item { IsItem item.now }
    ensures { HasPut shape.now (k + 1) rows.new }
{
    let is_free = free(rows, shape, members, k);
    if is_free {
        put(rows, shape, members, k, item);
    }
    is_free
}

/// Looks at the greatest count of own items in each row of the others.
fn receive_all(rows: &mut Rows, shape: &Shape)
    requires { IsUpTo shape.now 0 rows.old }
    ensures { HasPut shape.now 0 rows.new }
{
    let column = shape.recv_column(ME);
    let word = pack_recv(u32::MAX, false);
    for row in 0..shape.members {
        if row != ME {
            rows.look(row, column, word);
        }
    }
}

/// Items of 64 bytes each.
fn long_items(alloc: Global) -> Result<Vec<Item>, AllocError>
    ensures count { IfOk result (λ items. vec_len items ≡ ITEMS) }
    ensures items { IfOk result (λ items. All IsItem items.items) }
{
    let mut items = Vec::with_capacity(alloc, ITEMS)?;
    for number in 0..ITEMS {
        items.push(long_item(number as u8))?;
    }
    Ok(items)
}

/// An item of 64 bytes, which count on from item to item.
fn long_item(number: u8) -> Item
    ensures { IsItem result }
{
    let mut bytes = [0; MAX_MESSAGE_LENGTH];
    let mut byte = number.wrapping_mul(64);
    for place in &mut bytes {
        *place = byte;
        byte = byte.wrapping_add(1);
    }
    Item::Text(Message::of(&bytes).unwrap())
}
