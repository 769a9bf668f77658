ghost use Rattle.std.specs.Prelude.{◌≡◌, ◌≢◌, ◌<◌, ◌≤◌, ◌==◌, length, take, slice_get, position, All, option_and_then, IfSome, IfNone, IfOk};
ghost use Rattle.dr_history.specs.History.{sent_of, entry_of, item_at, place_in, place_at, merge};

use crate::places::held_places;
use crate::sent::{entry_of, items_of};
use dr_entry::{Entry, MAX_MEMBERS, MemberEnd, SentItem};
use dr_history::{GroupView, Opening, view_of};
use std::alloc::{AllocError, Global};

/// The member and the item at a place of a view, where an item was sent there.
pub fn item_at(ends: &[MemberEnd], view: &GroupView, place: u64) -> Option<(u8, SentItem)>
    ensures { result ≡ item_at (sent_of ends.now) view.now place }
{
    let members = view.members();
    if members.is_empty() {
        return None;
    }
    let ranks = members.len() as u64;
    let member = members[(place % ranks) as usize];
    let item = items_of(ends, member, view.number()).get((place / ranks) as usize)?;
    Some((member, *item))
}

/// The rank of the member among these members.
fn rank_of(members: &[u8], member: u8) -> Option<usize>
    ensures rank { result ≡ position (λ m. m == member) members.now }
    ensures within { IfSome result (λ rank. rank < length members.now) }
{
    members.iter().position(|other| *other == member)
}

/// The number of the first item that is the message with this index.
fn item_number(items: &[SentItem], index: u32) -> Option<usize>
    ensures none { IfNone result (All (λ item. item ≢ SentItem.Index index) items.now) }
    ensures found { IfSome result (λ k. slice_get items.now k ≡ Some (SentItem.Index index)) }
    ensures first { IfSome result (λ k. All (λ item. item ≢ SentItem.Index index) (take k items.now)) }
{
    items
        .iter()
        .position(|item| *item == SentItem::Index(index))
}

/// The place that the member's message with this index has in a view, where it was sent there.
fn place_in(ends: &[MemberEnd], view: &GroupView, member: u8, index: u32) -> Option<u64>
    ensures { result ≡ place_in (sent_of ends.now) view.now member index }
{
    let members = view.members();
    let rank = rank_of(members, member)?;
    let items = items_of(ends, member, view.number());
    let k = item_number(items, index)?;
    Some(k as u64 * members.len() as u64 + rank as u64)
}

/// The place of entry `i` of a history, in the view in which it was delivered: that of its message,
/// where its sender sent it there, and none for a View.
pub fn place_at(ends: &[MemberEnd], history: &[Entry], i: usize) -> Option<u64>
    ensures { result ≡ place_at (sent_of ends.now) history.now i }
{
    let Entry::Msg { sender, index, .. } = history.get(i)? else {
        return None;
    };
    let view = view_of(&history[..i])?;
    place_in(ends, &view, *sender, *index)
}

/// The entry at a place of a view, where a message was sent there.
fn entry_at(opening: &Opening, ends: &[MemberEnd], view: &GroupView, place: u64) -> Option<Entry>
    ensures { result ≡ option_and_then
        (λ t. entry_of opening.now t.0 t.1) (item_at (sent_of ends.now) view.now place) }
{
    let (member, item) = item_at(ends, view, place)?;
    entry_of(opening, member, item)
}

/// The merge of what was sent in a view, up to these counts by rank: the messages by ascending
/// place. There are at most [`MAX_MEMBERS`] counts.
pub fn merge(
    alloc: Global,
    opening: &Opening,
    ends: &[MemberEnd],
    view: &GroupView,
    counts: &[u32],
) -> Result<Vec<Entry>, AllocError>
    requires { length counts.now ≤ MAX_MEMBERS }
    ensures { IfOk result
        (λ entries. entries.items ≡ merge opening.now (sent_of ends.now) view.now counts.now) }
{
    let mut entries = Vec::new(alloc);
    let places = held_places(alloc, counts)?;
    for place in &places {
        if let Some(entry) = entry_at(opening, ends, view, *place) {
            entries.push(entry)?;
        }
    }
    Ok(entries)
}
