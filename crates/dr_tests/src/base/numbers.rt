//! Calls with numbers.
use dr_entry::MAX_MEMBERS;
use dr_order::{front, merge_next, null_due, place};
use dr_rows::Rows;
use dr_trim::next_rest;
use dr_words::Mask;
use std::alloc::{AllocError, Global};

/// What a call with these numbers answers, and `None` too where they are not those that it takes.
pub(crate) fn answer_to(alloc: Global, name: &str, words: &str) -> anyhow::Result<Option<u64>> {
    let mut numbers: Vec<u32> = Vec::new(alloc);
    for word in words.split_whitespace() {
        numbers.push(word.parse()?)?;
    }
    Ok(match (name, numbers.as_slice()) {
        ("front", counts) => answer_of(counts, None),
        ("merge_next", [from, counts @ ..]) => answer_of(counts, Some(u64::from(*from))),
        ("null_due", [rank, counts @ ..]) => is_due(counts, *rank),
        ("place", [ranks, rank, k]) => place_of(*ranks, *rank, *k),
        ("frozen", [members, me, row]) => frozen_rows(alloc, *members, *me, *row)?,
        ("next_rest", [from, members, trims @ ..]) => rest_of(*members, trims, u64::from(*from)),
        _ => None,
    })
}

/// The next place of counts from one on, or their front.
fn answer_of(counts: &[u32], from: Option<u64>) -> Option<u64> {
    if counts.is_empty() || counts.len() > MAX_MEMBERS {
        return None;
    }
    match from {
        Some(from) => merge_next(counts, from),
        None => Some(front(counts)),
    }
}

/// 1 where a null is due from the member of this rank, and else 0.
fn is_due(counts: &[u32], rank: u32) -> Option<u64> {
    let rank = u8::try_from(rank).ok()?;
    if usize::from(rank) >= counts.len() {
        return None;
    }
    Some(u64::from(null_due(counts, rank)))
}

/// The place of item `k` of the member of this rank.
fn place_of(ranks: u32, rank: u32, k: u32) -> Option<u64> {
    let ranks = u8::try_from(ranks).ok()?;
    let rank = u8::try_from(rank).ok()?;
    if rank >= ranks {
        return None;
    }
    Some(place(ranks, rank, k))
}

/// The mask of the rows that are frozen once a member has frozen that of another.
fn frozen_rows(alloc: Global, members: u32, me: u32, row: u32) -> Result<Option<u64>, AllocError> {
    let (Ok(members), Ok(me), Ok(row)) = (
        u8::try_from(members),
        u8::try_from(me),
        u8::try_from(row),
    ) else {
        return Ok(None);
    };
    if usize::from(members) > MAX_MEMBERS || me >= members || row >= members || row == me {
        return Ok(None);
    }
    let mut rows = Rows::new(alloc, members, 1, me)?;
    rows.freeze(row);
    let mut mask = Mask::empty();
    for i in 0..members {
        if rows.is_frozen(i) {
            mask = mask.with(i);
        }
    }
    Ok(Some(u64::from(mask.bits())))
}

/// The next place of what these trims leave of the members of a mask, from one on.
fn rest_of(members: u32, trims: &[u32], from: u64) -> Option<u64> {
    let members = Mask::of(u16::try_from(members).ok()?);
    let mut trim = [0; MAX_MEMBERS];
    for (count, number) in trim.iter_mut().zip(trims) {
        *count = *number;
    }
    if members.count() == 0 {
        return None;
    }
    next_rest(members, &trim, from)
}
