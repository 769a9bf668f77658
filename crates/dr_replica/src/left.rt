//! What is kept of a view that a member has left.
ghost use Rattle.std.specs.Prelude.{◌≡◌, ℕ, ◌+◌, ◌≤◌, ◌++◌, All, IfOk, [], length, map, replicate, vec_capacity};
ghost use Rattle.dr_program.specs.Replica.{LeftView, nothing_left};
ghost use Rattle.dr_replica.specs.Lefts.{HasRoom, IsSpare, left_of};
ghost use Rattle.dr_rows.specs.Words.{IsWords, row_of};

use crate::items::Items;
use dr_entry::SentItem;
use dr_rows::Rows;
use std::alloc::{AllocError, Global};
use std::mem;

/// What a member keeps of a view that it has left: its own words, how many items of each member it had,
/// and what it had put.
#[derive(Drop)]
pub(crate) struct Left {
    pub own: Vec<u64>,
    pub counts: Vec<u32>,
    pub sent: Vec<SentItem>,
}

impl Left {
    /// One with room for what a member has in a view, where it puts up to `most` items. No later call
    /// takes memory.
    pub(crate) fn spare(
        alloc: Global,
        columns: usize,
        roster: u8,
        most: u32,
    ) -> Result<Left, AllocError>
        ensures { IfOk result (IsSpare columns roster most) }
    {
        Ok(Left {
            own: vec![in alloc; 0; columns]?,
            counts: vec![in alloc; 0; usize::from(roster)]?,
            sent: Vec::with_capacity(alloc, most as usize)?,
        })
    }

    /// Takes what a member has in its view, and leaves an empty list for what it puts in the next one.
    pub(crate) fn keep(&mut self, rows: &Rows, items: &Items, sent: &mut Vec<SentItem>)
        requires room { HasRoom rows.now.columns items.now.roster self.old }
        requires form { IsWords rows.now }
        ensures kept { left_of self.new ≡ record {
          own = row_of rows.now.words rows.now.me;
          counts = items.now.counts;
          sent = sent.old.items;
        } }
        ensures swapped { sent.new ≡ self.old.sent }
    {
        self.own.copy_from_slice(rows.own_words());
        self.counts.copy_from_slice(items.counts());
        mem::swap(&mut self.sent, sent);
    }

    /// Keeps nothing: of a view that the member was none of.
    fn empty(&mut self)
        ensures { left_of self.new ≡ nothing_left }
    {
        self.own.clear();
        self.counts.clear();
        self.sent.clear();
    }
}

/// Keeps nothing of so many views, each in the memory of a spare one.
pub(crate) fn skip_views(views: u8, lefts: &mut Vec<Left>, spares: &mut Vec<Left>)
    requires spares { views ≤ length spares.old.items }
    requires room { length lefts.old.items + views ≤ vec_capacity lefts.old }
    ensures lefts { map left_of lefts.new.items
        ≡ map left_of lefts.old.items ++ replicate views nothing_left }
    ensures room { vec_capacity lefts.old ≤ vec_capacity lefts.new }
    ensures count { length spares.new.items + views ≡ length spares.old.items }
    ensures spare { (columns roster most : ℕ) → All (IsSpare columns roster most) spares.old.items
        → All (IsSpare columns roster most) spares.new.items }
{
    for _ in 0..views {
        let mut left = spares.pop().unwrap();
        left.empty();
        lefts.push(left).unwrap();
    }
}

/// So many of them.
pub(crate) fn spares(
    alloc: Global,
    count: usize,
    columns: usize,
    roster: u8,
    most: u32,
) -> Result<Vec<Left>, AllocError>
    ensures count { IfOk result (λ lefts. length lefts.items ≡ count) }
    ensures spare { IfOk result (λ lefts. All (IsSpare columns roster most) lefts.items) }
{
    let mut lefts = Vec::with_capacity(alloc, count)?;
    for _ in 0..count {
        lefts
            .push(Left::spare(alloc, columns, roster, most)?)
            .unwrap();
    }
    Ok(lefts)
}
