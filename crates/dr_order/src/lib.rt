//! The round robin of a view: places, the front of the counts, and the merge of what was sent.
//!
//! A place is a number: item `k` of the member of rank `rank` has the place `k * ranks + rank`.
//! Counts are listed by rank, and say how many items each rank has sent. No call takes memory.
#![tactic(auto)]

ghost use Rattle.std.specs.List.{IsFirstBest, Sorted.IsStrictlyIncreasing};
ghost use Rattle.std.specs.Prelude.{nat_lt, ◌≡◌, ◌<◌, ◌≤◌, ◌^◌, ◌/◌, ◌↔◌, ℕ, List, length, slice_index, IsTrue, Any};
ghost use Rattle.dr_history.specs.Places.{place_of, IsFront, front_of, is_held, held_places, rest_places};
ghost use Rattle.dr_order.specs.Merge.{IsNextHeld, AreTaken};

use dr_entry::MAX_MEMBERS;

/// The place of item `k` of the member of rank `rank`, where the view has `ranks` members.
pub fn place(ranks: u8, rank: u8, k: u32) -> u64
    requires { rank < ranks }
    ensures { result ≡ place_of ranks rank k }
{
    u64::from(k) * u64::from(ranks) + u64::from(rank)
}

/// The item number and the rank of a place, where the view has `ranks` members.
pub fn split(ranks: u8, place: u64) -> (u32, u8)
    requires some { 0 < ranks }
    requires fits { place / ranks < 2 ^ 32 }
    ensures rank { result.1 < ranks }
    ensures place { place_of ranks result.1 result.0 ≡ place }
    ensures only { (rank k : ℕ) → rank < ranks → place_of ranks rank k ≡ place
        → result ≡ (k, rank) }
{
    let ranks = u64::from(ranks);
    ((place / ranks) as u32, (place % ranks) as u8)
}

/// The front of the counts: the greatest place below which every place holds an item. There are
/// 1 to [`MAX_MEMBERS`] counts.
pub fn front(counts: &[u32]) -> u64
    requires some { 0 < length counts.now }
    requires few { length counts.now ≤ MAX_MEMBERS }
    ensures { IsFront counts.now result }
{
    let rank = first_least(counts);
    u64::from(counts[rank]) * counts.len() as u64 + rank as u64
}

/// The first rank of those with the least count.
fn first_least(counts: &[u32]) -> usize
    requires { 0 < length counts.now }
    ensures { IsFirstBest nat_lt counts.now (length counts.now) result }
{
    let mut least = 0;
    for rank in 1..counts.len() {
        if counts[rank] < counts[least] {
            least = rank;
        }
    }
    least
}

/// Whether the place holds an item, where each rank has sent as many items as its count.
pub fn is_held(counts: &[u32], place: u64) -> bool
    requires { 0 < length counts.now }
    ensures { result ≡ is_held counts.now place }
{
    let ranks = counts.len() as u64;
    place / ranks < u64::from(counts[(place % ranks) as usize])
}

/// The least place at or after `from` that holds an item, `None` exactly where no such place holds
/// one. There are 1 to [`MAX_MEMBERS`] counts.
pub fn merge_next(counts: &[u32], from: u64) -> Option<u64>
    requires some { 0 < length counts.now }
    requires few { length counts.now ≤ MAX_MEMBERS }
    ensures { IsNextHeld counts.now from result }
{
    // Each rank's first item at or after `from` lies within one round. A rank that lacks this one
    // lacks the later ones too.
    let end = from.saturating_add(counts.len() as u64);
    for place in from..end {
        if is_held(counts, place) {
            return Some(place);
        }
    }
    None
}

/// Whether a null is due from the member of this rank: whether some count exceeds its own.
pub fn null_due(counts: &[u32], rank: u8) -> bool
    requires { rank < length counts.now }
    ensures { IsTrue result ↔ Any (λ count. slice_index counts.now rank < count) counts.now }
{
    let own = counts[usize::from(rank)];
    counts.iter().any(|&count| count > own)
}

/// The law of [`front`]: counts have one front, which is the first place that holds no item.
pub fn front_law()
    ensures first { (counts : List ℕ) → 0 < length counts → IsFront counts (front_of counts) }
    ensures one { (counts : List ℕ) (front : ℕ) → 0 < length counts → IsFront counts front
        → front ≡ front_of counts }
{}

/// The law of [`merge_next`]. Taken again and again, first from place 0 and then each time from
/// behind the place that it gave, until it gives none, it gives exactly the places that hold an
/// item, each once, ascending. Taken so from a later place on, it gives the rest of them.
pub fn merge_law()
    ensures held { (counts places : List ℕ) → 0 < length counts
        → AreTaken counts 0 places ↔ (places ≡ held_places counts) }
    ensures rest { (counts places : List ℕ) (from : ℕ) → 0 < length counts
        → AreTaken counts from places ↔ (places ≡ rest_places counts from) }
    ensures once { (counts : List ℕ) → IsStrictlyIncreasing (held_places counts) }
{}
