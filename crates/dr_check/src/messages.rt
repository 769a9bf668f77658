//! What a message is to keep.
ghost use Rattle.std.specs.Prelude.{◌≡◌, ◌↔◌, IsTrue, IsSomeAnd, Contains, Some, List, [], slice_get, slice_index_or};
ghost use Rattle.dr_entry.specs.declared.entry.Entry.{Entry as EntryOf};
ghost use Rattle.dr_check.specs.{Clauses.{KeepsBytes, KeepsIndex, KeepsSender}, Past.IsPast};

use crate::past::Past;
use dr_entry::{Entry, Message};
use dr_history::GroupView;
use dr_script::Script;

/// Whether a member belongs to a view.
fn is_in(view: &Option<GroupView>, member: u8) -> bool
    ensures { IsTrue result ↔ IsSomeAnd view.now (λ v. Contains v.members member) }
{
    match view {
        Some(view) => view.members().contains(&member),
        None => false,
    }
}

/// Whether the sender of a message is in the last view of what was read.
pub(crate) fn keeps_sender(past: &Past, entry: &Entry) -> bool
    ensures { (read : List EntryOf) → IsPast read past.now
        → IsTrue result ↔ KeepsSender read entry.now }
{
    match entry {
        Entry::View { .. } => true,
        Entry::Msg { sender, .. } => is_in(&past.view, *sender),
    }
}

/// Whether the index of a message is the number of messages of its sender that were read.
pub(crate) fn keeps_index(past: &Past, entry: &Entry) -> bool
    ensures { (read : List EntryOf) → IsPast read past.now
        → IsTrue result ↔ KeepsIndex read entry.now }
{
    match entry {
        Entry::View { .. } => true,
        Entry::Msg { sender, index, .. } => u64::from(*index) == past.count_of(*sender),
    }
}

/// Whether the bytes of a message are those of the script.
pub(crate) fn keeps_bytes(script: &Script, entry: &Entry) -> bool
    ensures { IsTrue result ↔ KeepsBytes script.now entry.now }
{
    match entry {
        Entry::View { .. } => true,
        Entry::Msg {
            sender,
            index,
            bytes,
        } => is_scripted(script, *sender, *index, bytes),
    }
}

/// Whether the script has this message.
fn is_scripted(script: &Script, sender: u8, index: u32, bytes: &Message) -> bool
    ensures { IsTrue result ↔ (slice_get (slice_index_or script.now.messages sender []) index
        ≡ Some bytes.now) }
{
    match messages_of(script, sender).get(index as usize) {
        Some(message) => message == bytes,
        None => false,
    }
}

/// The messages that the script gives a sender.
fn messages_of(script: &Script, sender: u8) -> &[Message]
    ensures { result.now ≡ slice_index_or script.now.messages sender [] }
{
    match script.messages.as_slice().get(usize::from(sender)) {
        Some(messages) => messages.as_slice(),
        None => &[],
    }
}
