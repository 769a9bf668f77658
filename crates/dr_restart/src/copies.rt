//! Copies of lists.
ghost use Rattle.std.specs.Prelude.{◌≡◌, IfOk};

use dr_entry::{Entry, Message, Seq};
use std::alloc::{AllocError, Global};

/// Equal entries.
///
/// # Errors
///
/// Want of memory alone.
pub fn copy_entries(alloc: Global, entries: &Seq<Entry>) -> Result<Seq<Entry>, AllocError>
    ensures { IfOk result (λ copy. copy ≡ entries.now) }
{
    let entries = entries.as_slice();
    let mut copy = Vec::with_capacity(alloc, entries.len())?;
    for entry in entries {
        copy.push(entry.copy())?;
    }
    Ok(Seq::of(copy))
}

/// Equal messages.
///
/// # Errors
///
/// Want of memory alone.
pub fn copy_messages(alloc: Global, messages: &Seq<Message>) -> Result<Seq<Message>, AllocError>
    ensures { IfOk result (λ copy. copy ≡ messages.now) }
{
    let messages = messages.as_slice();
    let mut copy = Vec::with_capacity(alloc, messages.len())?;
    for message in messages {
        copy.push(message.copy())?;
    }
    Ok(Seq::of(copy))
}
