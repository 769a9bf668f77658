//! What a crash may leave of a disk whose calls are known.

ghost use Rattle.std.specs.Prelude.{◌≡◌, ◌<◌, ◌≤◌, ◌⊎◌, ℕ, OnOk, length, max, slice_index};
ghost use Rattle.dr_disk.specs.{Crashed.IsReplayed, Ranges.{Pending, pend}, Steps.{bytes_of_step, call_of}};

use crate::bytes::put;
use crate::kept::Step;
use std::alloc::AllocError;

/// How many bytes a step writes.
pub(crate) fn count_of(step: Step) -> usize
    ensures { result ≡ bytes_of_step step }
{
    match step {
        Step::Write { count, .. } => count,
        _ => 0,
    }
}

/// Does one step more to what a read gives, and to what a crash leaves, where all that may have changed is
/// filled.
pub(crate) fn replay(
    step: Step,
    bytes: &[u8],
    fill: u8,
    now: &mut Vec<u8>,
    image: &mut Vec<u8>,
) -> Result<(), AllocError>
    requires { bytes_of_step step ≡ length bytes.now }
    ensures { OnOk result ((p : Pending) → IsReplayed fill p now.old.items image.old.items
        → IsReplayed fill (pend p (call_of step bytes.now)) now.new.items image.new.items) }
{
    match step {
        Step::Write { at, .. } => {
            let inside = now.len().min(at as usize);
            let end = (at as usize).checked_add(bytes.len()).ok_or(AllocError)?;
            lengthen(image, end, fill)?;
            cover(image, inside, inside + bytes.len(), fill);
            now.reserve(bytes.len())?;
            put(now, inside, bytes);
        }
        Step::FailedWrite { at, count } => {
            let end = (at as usize).checked_add(count).ok_or(AllocError)?;
            lengthen(image, end, fill)?;
            cover(image, at as usize, end, fill);
        }
        Step::Cut { to } => now.truncate(to as usize),
        Step::FailedCut { .. } => {}
        Step::Sync => {
            image.clear();
            image.extend_from_slice(now.as_slice())?;
        }
    }
    Ok(())
}

/// Puts this byte behind these until there are so many.
fn lengthen(image: &mut Vec<u8>, to: usize, fill: u8) -> Result<(), AllocError>
    ensures long { OnOk result (length image.new.items ≡ max (length image.old.items) to) }
    ensures kept { OnOk result ((i : ℕ) → i < length image.old.items
        → slice_index image.new.items i ≡ slice_index image.old.items i) }
    ensures filled { OnOk result ((i : ℕ) → length image.old.items ≤ i → i < length image.new.items
        → slice_index image.new.items i ≡ fill) }
{
    let more = to.saturating_sub(image.len());
    for _ in 0..more {
        image.push(fill)?;
    }
    Ok(())
}

/// Puts this byte into the places from one to another.
fn cover(image: &mut Vec<u8>, from: usize, to: usize, fill: u8)
    requires { to ≤ length image.old.items }
    ensures long { length image.new.items ≡ length image.old.items }
    ensures kept { (i : ℕ) → (i < from) ⊎ (to ≤ i)
        → slice_index image.new.items i ≡ slice_index image.old.items i }
    ensures filled { (i : ℕ) → from ≤ i → i < to → slice_index image.new.items i ≡ fill }
{
    for i in from..to {
        image[i] = fill;
    }
}
