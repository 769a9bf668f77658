//! Copies of entries.
ghost use Rattle.std.specs.Prelude.{◌≡◌, IfOk};

use dr_entry::{Entry, Seq};
use std::alloc::{AllocError, Global};

/// Equal entries.
///
/// # Errors
///
/// Want of memory alone.
pub fn copy_of(alloc: Global, entries: &[Entry]) -> Result<Seq<Entry>, AllocError>
    ensures { IfOk result (λ copy. copy ≡ entries.now) }
{
    let mut copy = Vec::with_capacity(alloc, entries.len())?;
    for entry in entries {
        copy.push(entry.copy())?;
    }
    Ok(Seq::of(copy))
}
