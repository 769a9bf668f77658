ghost use Rattle.std.specs.Prelude.{◌≡◌, ◌<◌, ◌≤◌, ◌↔◌, length, max, fold, IsTrue, IfOk};
ghost use Rattle.dr_history.specs.Places.{held_places, IsFront};

use dr_entry::MAX_MEMBERS;
use dr_order::is_held;
use std::alloc::{AllocError, Global};

/// The greatest count, 0 where there is none.
fn greatest(counts: &[u32]) -> u32
    ensures { result ≡ fold max 0 counts.now }
{
    counts.iter().fold(0, |most, count| most.max(*count))
}

/// The places that hold an item, ascending, where each of up to [`MAX_MEMBERS`] ranks has sent as
/// many items as its count.
pub fn held_places(alloc: Global, counts: &[u32]) -> Result<Vec<u64>, AllocError>
    requires { length counts.now ≤ MAX_MEMBERS }
    ensures { IfOk result (λ places. places.items ≡ held_places counts.now) }
{
    let end = counts.len() as u64 * u64::from(greatest(counts));
    let mut places = Vec::new(alloc);
    for place in 0..end {
        if is_held(counts, place) {
            places.push(place)?;
        }
    }
    Ok(places)
}

/// Whether this is the front of the counts: the greatest place below which every place holds an
/// item. Where there are no counts, there is no front.
pub fn is_front(counts: &[u32], front: u64) -> bool
    ensures { IsTrue result ↔ IsFront counts.now front }
{
    if counts.is_empty() {
        return false;
    }
    for place in 0..front {
        if !is_held(counts, place) {
            return false;
        }
    }
    !is_held(counts, front)
}
