ghost use Rattle.std.specs.{Int.{bit_at, div_ceil}, List.{list_all, range_with_len}};
ghost use Rattle.std.specs.Prelude.{length, slice_index, ◌≡◌, ℕ, ◌+◌, ◌-◌, ◌*◌, ◌%◌, ◌^◌, ◌&&◌, ◌<◌, ◌≤◌, ◌↔◌, true, false, IsTrue, IsSome, Some, is_some, map, take};
ghost use Rattle.dr_words.specs.{Columns.columns_of, Form.AllInForm, Grown.Grown, Masks.IsInRoster};
ghost use Rattle.dr_words.specs.Packing.{ring_tag, ring_low};
ghost use Rattle.dr_rows.specs.Words.{IsWords, seen};
ghost use Rattle.dr_ring.specs.{Arrival.Arrives, Pieces.{body_len, body_piece, bytes_of, is_head, null_mark}};
ghost use Rattle.dr_ring.specs.Slots.{HasShape, IsFree, is_free, IsReady, is_of, item_in, slot_column, slot_of, with_item};

use dr_entry::{Item, MAX_MESSAGE_LENGTH, Message};
use dr_lane::match_mask;
use dr_rows::Rows;
use dr_words::{Mask, PIECES, Shape, pack_ring, unpack_recv, unpack_ring};

/// The piece of the head of a null. That of a message is its length.
const NULL_MARK: u32 = u32::MAX;

/// The most slots that a ring has.
const MOST_SLOTS: usize = 8;

/// How many words of a body are judged at once.
const BLOCK: usize = 4;

/// Whether the slot of the own item `k` can be written: `k` is among the first items, or each other
/// of the `members` has received the item that stood there before.
pub fn free(rows: &Rows, shape: &Shape, members: Mask, k: u32) -> bool
    requires shape { HasShape shape.now rows.now }
    requires form { AllInForm rows.now.members rows.now.words }
    requires roster { IsInRoster rows.now.members members }
    ensures free { IsTrue result ↔ IsFree shape.now.window rows.now members k }
    ensures value { result ≡ is_free shape.now.window rows.now members k }
{
    let window = u32::from(shape.window);
    if k < window {
        return true;
    }
    let me = rows.me();
    let column = shape.recv_column(me);
    for other in 0..shape.members {
        if other != me && members.has(other) {
            let (received, _) = unpack_recv(rows.seen(other, column));
            if received <= k - window {
                return false;
            }
        }
    }
    true
}

/// Sets the own words that item `k` needs: its head, and as many words of its slot's body as hold
/// its bytes. The other words of the slot stay.
pub fn put(rows: &mut Rows, shape: &Shape, members: Mask, k: u32, item: &Item)
    requires shape { HasShape shape.now rows.old }
    requires form { AllInForm rows.old.members rows.old.words }
    requires roster { IsInRoster rows.old.members members }
    requires free { IsFree shape.now.window rows.old members k }
    requires number { k < 2 ^ 32 - 1 }
    requires earlier { (part : ℕ) → part < PIECES
        → ring_tag (slot_of shape.now.window rows.old rows.old.me k part) ≤ k }
    ensures after { rows.new ≡ with_item shape.now.window rows.old k item.now }
    ensures arrives { Arrives shape.now.window rows.new k item.now }
    ensures grown { Grown rows.old.members rows.old.words rows.new.words rows.old.frozen rows.new.frozen }
    ensures in_form { AllInForm rows.new.members rows.new.words }
    ensures form { IsWords rows.new }
{
    let slot = slot_at(shape, k);
    match item {
        Item::Null => rows.set_own(shape.head_column(slot), pack_ring(k, NULL_MARK)),
        Item::Text(message) => {
            let bytes = message.bytes();
            rows.set_own(shape.head_column(slot), pack_ring(k, bytes.len() as u32));
            let body = shape.body_column(slot, 0);
            for part in 0..bytes.len().div_ceil(4) {
                rows.set_own(body + part, pack_ring(k, piece_of(bytes, part)));
            }
        }
    }
}

/// Whether all words were seen that item `k` of the member of this row needs. Builds no item.
pub fn is_ready(rows: &Rows, shape: &Shape, row: u8, k: u32) -> bool
    requires shape { HasShape shape.now rows.now }
    requires row { row < rows.now.members }
    ensures ready { IsTrue result ↔ IsReady k (slot_of shape.now.window rows.now row k) }
    ensures value { result ≡ is_some (item_in k (slot_of shape.now.window rows.now row k)) }
{
    let column = shape.head_column(slot_at(shape, k));
    is_of(k, rows.seen(row, column)) && has_rest(rows, row, column, k)
}

/// Which of the items from `k` on can be read from this row, as many as a ring has slots: bit `i`, from
/// the lowest on, is set exactly where all words were seen that item `k + i` needs.
pub fn sweep(rows: &Rows, shape: &Shape, row: u8, k: u32) -> u16
    requires shape { HasShape shape.now rows.now }
    requires row { row < rows.now.members }
    requires number { k + shape.now.window < 2 ^ 32 }
    ensures set { (i : ℕ) → i < shape.now.window
        → (bit_at result i ≡ 1) ↔ IsReady (k + i) (slot_of shape.now.window rows.now row (k + i)) }
    ensures clear { (i : ℕ) → shape.now.window ≤ i → bit_at result i ≡ 0 }
{
    let (columns, heads, are_nulls) = seen_heads(rows, shape, row, k);
    if heads == 0 || are_nulls {
        return heads as u16;
    }
    let mut mask = 0;
    for i in 0..shape.window {
        let column = columns[usize::from(i)];
        if heads >> i & 1 == 1 && has_rest(rows, row, column, k + u32::from(i)) {
            mask |= 1 << i;
        }
    }
    mask
}

/// Item `k` of the member of this row, where all words that it needs were seen: the head, whose low
/// half is a length or the mark of a null, and the words of the body that hold the bytes.
pub fn ready(rows: &Rows, shape: &Shape, row: u8, k: u32) -> Option<Item>
    requires shape { HasShape shape.now rows.now }
    requires row { row < rows.now.members }
    ensures ready { IsSome result ↔ IsReady k (slot_of shape.now.window rows.now row k) }
    ensures item { result ≡ item_in k (slot_of shape.now.window rows.now row k) }
{
    if is_ready(rows, shape, row, k) {
        Some(taken(rows, shape, row, k))
    } else {
        None
    }
}

/// Item `k` of the member of this row, whose words are known to have been seen: what [`ready`] answers,
/// without a test of their tags.
pub fn taken(rows: &Rows, shape: &Shape, row: u8, k: u32) -> Item
    requires shape { HasShape shape.now rows.now }
    requires row { row < rows.now.members }
    requires ready { IsReady k (slot_of shape.now.window rows.now row k) }
    ensures item { item_in k (slot_of shape.now.window rows.now row k) ≡ Some result }
{
    let slot = slot_at(shape, k);
    let (_, head) = unpack_ring(rows.seen(row, shape.head_column(slot)));
    if head == NULL_MARK {
        return Item::Null;
    }
    Item::Text(body_at(rows, shape, row, k, head as usize))
}

// The slot of item `k`.
#[inline]
fn slot_at(shape: &Shape, k: u32) -> u8
    ensures value { result ≡ k % shape.now.window }
    ensures within { result < shape.now.window }
{
    (k % u32::from(shape.window)) as u8
}

// Whether a word of a ring is of item `k`.
#[inline]
fn is_of(k: u32, word: u64) -> bool
    ensures { result ≡ is_of k word }
{
    let (tag, _) = unpack_ring(word);
    u64::from(tag) == u64::from(k) + 1
}

// The columns of the heads of the items from `k` on, as many as a ring has slots, which of these heads were
// seen, and whether all words in their columns, of whatever items, are heads of nulls. Bit `i` of the mask is
// set exactly where the head of item `k + i` was seen. To each tag is added how many items there are from its
// item on, so that all are compared with the same number. All bits that the pieces have in common are set
// exactly where each piece is the mark of a null.
#[inline(always)]
fn seen_heads(rows: &Rows, shape: &Shape, row: u8, k: u32) -> ([usize; MOST_SLOTS], u64, bool)
    requires shape { HasShape shape.now rows.now }
    requires row { row < rows.now.members }
    requires number { k + shape.now.window < 2 ^ 32 }
    ensures long { length result.0 ≡ MOST_SLOTS }
    ensures columns { (i : ℕ) → i < shape.now.window
        → slice_index result.0 i ≡ slot_column rows.now.members shape.now.window (k + i) }
    ensures heads { (i : ℕ) → i < shape.now.window → (bit_at result.1 i ≡ 1)
        ↔ (is_of (k + i) (slot_of shape.now.window rows.now row (k + i) 0) ≡ true) }
    ensures clear { (i : ℕ) → shape.now.window ≤ i → bit_at result.1 i ≡ 0 }
    ensures nulls { IsTrue result.2 ↔ ((i : ℕ) → i < shape.now.window
        → ring_low (slot_of shape.now.window rows.now row (k + i) 0) ≡ null_mark) }
{
    let mut columns = [0; MOST_SLOTS];
    let mut tags = [0; MOST_SLOTS];
    let mut common = NULL_MARK;
    let mut column = shape.head_column(slot_at(shape, k));
    for i in 0..shape.window {
        let (tag, piece) = unpack_ring(rows.seen(row, column));
        columns[usize::from(i)] = column;
        tags[usize::from(i)] = u64::from(tag) + u64::from(shape.window - i);
        common &= piece;
        column = next_head(shape, column);
    }
    (
        columns,
        match_mask(&tags, u64::from(k) + 1 + u64::from(shape.window)),
        common == NULL_MARK,
    )
}

// The column of the head behind this one; behind that of the last slot the first follows.
#[inline(always)]
fn next_head(shape: &Shape, column: usize) -> usize
    requires { column < columns_of shape.now.members shape.now.window }
    ensures { (k : ℕ) → column ≡ slot_column shape.now.members shape.now.window k
        → result ≡ slot_column shape.now.members shape.now.window (k + 1) }
{
    if column == shape.head_column(shape.window - 1) {
        shape.head_column(0)
    } else {
        column + PIECES
    }
}

// The tag of a word of a ring in this row.
#[inline(always)]
fn tag_at(rows: &Rows, row: u8, column: usize) -> u64
    requires row { row < rows.now.members }
    requires column { column < rows.now.columns }
    ensures value { result ≡ ring_tag (seen rows.now row column) }
    ensures within { result < 2 ^ 32 }
{
    let (tag, _) = unpack_ring(rows.seen(row, column));
    u64::from(tag)
}

// Whether this head, of whose tag nothing is asked, is one, and all words behind it that it asks for are of
// item `k`.
#[inline(always)]
fn has_rest(rows: &Rows, row: u8, column: usize, k: u32) -> bool
    requires row { row < rows.now.members }
    requires column { column + PIECES ≤ rows.now.columns }
    requires narrow { rows.now.columns ≤ 1024 }
    ensures { let slot : ℕ → ℕ = λ part. seen rows.now row (column + part) in let head = ring_low (slot 0) in
        result ≡ (is_head head && list_all (is_of k) (map slot (range_with_len 1 (body_len head)))) }
{
    let (_, head) = unpack_ring(rows.seen(row, column));
    head == NULL_MARK
        || head as usize <= MAX_MESSAGE_LENGTH && has_body(rows, row, column, k, head as usize)
}

// Whether all words behind this head that hold so many bytes are of item `k`. It takes whole blocks of words
// at once, and then the rest one by one.
#[inline(always)]
fn has_body(rows: &Rows, row: u8, column: usize, k: u32, len: usize) -> bool
    requires row { row < rows.now.members }
    requires column { column + PIECES ≤ rows.now.columns }
    requires narrow { rows.now.columns ≤ 1024 }
    requires len { len ≤ MAX_MESSAGE_LENGTH }
    ensures { result ≡ list_all (is_of k)
        (map (λ part. seen rows.now row (column + part)) (range_with_len 1 (div_ceil len 4))) }
{
    let count = len.div_ceil(4);
    let mut part = 0;
    while count - part >= BLOCK {
        if !is_block_of(rows, row, column + 1 + part, k) {
            return false;
        }
        part += BLOCK;
    }
    for i in part..count {
        if !is_of(k, rows.seen(row, column + 1 + i)) {
            return false;
        }
    }
    true
}

// Whether the words of a block, from a column on, are of item `k`.
#[inline(always)]
fn is_block_of(rows: &Rows, row: u8, column: usize, k: u32) -> bool
    requires row { row < rows.now.members }
    requires column { column + 4 ≤ rows.now.columns }
    requires narrow { rows.now.columns ≤ 1024 }
    ensures { IsTrue result ↔ ((i : ℕ) → i < 4 → is_of k (seen rows.now row (column + i)) ≡ true) }
{
    let tags = [
        tag_at(rows, row, column),
        tag_at(rows, row, column + 1),
        tag_at(rows, row, column + 2),
        tag_at(rows, row, column + 3),
    ];
    match_mask(&tags, u64::from(k) + 1) == 0b1111
}

// The message of so many bytes in the body of item `k`.
fn body_at(rows: &Rows, shape: &Shape, row: u8, k: u32, len: usize) -> Message
    requires shape { HasShape shape.now rows.now }
    requires row { row < rows.now.members }
    requires len { len ≤ MAX_MESSAGE_LENGTH }
    ensures { result ≡ take len (bytes_of (map ring_low
        (map (slot_of shape.now.window rows.now row k) (range_with_len 1 (div_ceil len 4))))) }
{
    let (words, apart) = rows.seen_from(row, shape.body_column(slot_at(shape, k), 0));
    let mut at = 0;
    let mut bytes = [0; MAX_MESSAGE_LENGTH];
    for part in 0..len.div_ceil(4) {
        let (_, piece) = unpack_ring(words[at]);
        bytes[4 * part..4 * part + 4].copy_from_slice(&piece.to_be_bytes());
        at += apart;
    }
    Message::of(&bytes[..len]).unwrap()
}

// The bytes from `4 * part` on as a number; behind the end they are 0.
#[inline]
fn piece_of(bytes: &[u8], part: usize) -> u32
    requires { part + 1 < PIECES }
    ensures { result ≡ body_piece bytes.now part }
{
    let from = 4 * part;
    if from + 4 <= bytes.len() {
        u32::from_be_bytes([
            bytes[from],
            bytes[from + 1],
            bytes[from + 2],
            bytes[from + 3],
        ])
    } else {
        last_piece_of(bytes, part)
    }
}

// The same where fewer than four bytes are left.
#[cold]
fn last_piece_of(bytes: &[u8], part: usize) -> u32
    requires { part + 1 < PIECES }
    ensures { result ≡ body_piece bytes.now part }
{
    let byte = |i: usize| bytes.get(4 * part + i).copied().unwrap_or(0);
    u32::from_be_bytes([byte(0), byte(1), byte(2), byte(3)])
}
