//! What members ask of many words at once: passes over a slice, which take no memory.
//!
//! [`least`] is for one word or more, [`count_equal`] for any number of words, and [`match_mask`] for up
//! to 64. Each takes whole blocks of words at once, and then the rest one by one.
#![tactic(auto)]

ghost use Rattle.std.specs.{Int.bit_at, Simd.Lanes.{chunk, mask_l}};
ghost use Rattle.std.specs.Prelude.{◌≡◌, ℕ, ◌+◌, ◌==◌, ◌<◌, ◌≤◌, ◌↔◌, if◌then◌else◌, All, Contains, EachIndex, count_by, length, map, nat_lt, slice_index};

use std::simd::prelude::*;

/// How many words a block has.
const LANES: usize = 4;

/// The least of the words, of which there is at least one.
pub fn least(words: &[u64]) -> u64
    requires { 0 < length words.now }
    ensures among { Contains words.now result }
    ensures below { All (λ word. result ≤ word) words.now }
{
    let mut lanes = u64x4::splat(words[0]);
    let mut at = 0;
    while words.len() - at >= LANES {
        lanes = lower(lanes, u64x4::from_slice(&words[at..]));
        at += LANES;
    }
    let mut least = least_lane(lanes);
    for i in at..words.len() {
        least = least.min(words[i]);
    }
    least
}

/// How many of the words equal `to`; there may be any number of words, also none.
pub fn count_equal(words: &[u64], to: u64) -> usize
    ensures { result ≡ count_by (λ word. word == to) words.now }
{
    let mut count = 0;
    let mut at = 0;
    while words.len() - at >= LANES {
        count += marks(words, at, to).count_ones() as usize;
        at += LANES;
    }
    for i in at..words.len() {
        if words[i] == to {
            count += 1;
        }
    }
    count
}

/// The mask whose bit `i`, from the lowest on, is set exactly where word `i` equals `to`.
/// There are at most 64 words, and the bits behind the last of them are clear.
pub fn match_mask(words: &[u64], to: u64) -> u64
    requires { length words.now ≤ 64 }
    ensures set { EachIndex words.now
        (λ i. (bit_at result i ≡ 1) ↔ (slice_index words.now i ≡ to)) }
    ensures clear { (i : ℕ) → length words.now ≤ i → bit_at result i ≡ 0 }
{
    let mut mask = 0;
    let mut at = 0;
    while words.len() - at >= LANES {
        mask |= marks(words, at, to) << at;
        at += LANES;
    }
    for i in at..words.len() {
        if words[i] == to {
            mask |= 1 << i;
        }
    }
    mask
}

// Of each two lanes the lower one.
#[inline(always)]
fn lower(lanes: u64x4, others: u64x4) -> u64x4
    ensures long { length result ≡ 4 }
    ensures each { (i : ℕ) → i < 4 → slice_index result i
        ≡ (if nat_lt (slice_index lanes i) (slice_index others i) then slice_index lanes i
        else slice_index others i) }
{
    lanes.simd_min(others)
}

// The least of the lanes.
#[inline(always)]
fn least_lane(lanes: u64x4) -> u64
    ensures among { Contains lanes result }
    ensures below { All (λ lane. result ≤ lane) lanes }
{
    let [a, b, c, d] = lanes.to_array();
    a.min(b).min(c.min(d))
}

// The mask of the words of a block that equal `to`.
#[inline(always)]
fn marks(words: &[u64], at: usize, to: u64) -> u64
    requires { at + 4 ≤ length words.now }
    ensures { result ≡ mask_l (map (λ word. word == to) (chunk at 4 words.now)) }
{
    u64x4::from_slice(&words[at..])
        .simd_eq(u64x4::splat(to))
        .to_bitmask()
}
