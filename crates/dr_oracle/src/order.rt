ghost use Rattle.std.specs.Prelude.{◌≡◌, ◌<◌, ◌≤◌, ◌↔◌, ℕ, List, length, take, slice_get, Some, IsTrue, IsSome, IsSomeAnd};
ghost use Rattle.dr_entry.specs.declared.entry.Entry.TheVariants.{View, Msg};
ghost use Rattle.dr_history.specs.History.{IsPrefixOf, GroupView, view_of, sent_of, item_at, place_at};
ghost use Rattle.dr_history.specs.Order.{InOrder, IsDelivered, first_entries, messages_from, numbered_messages};
ghost use Rattle.dr_oracle.specs.Parts.{AllNumbered, AllPlaced, Follows, LastViewWhole, PlacesRise, ViewsFollow};

use crate::sent::messages_of;
use crate::succession::may_be_succeeded_by;
use crate::{is_prefix, item_at, place_at};
use dr_entry::{Entry, MemberEnd, Message, SentItem};
use dr_history::{GroupView, Opening, view_of};

/// Whether a history begins with the start, followed by View 0 of the members with which the age opens.
fn begins(opening: &Opening, history: &[Entry]) -> bool
    ensures { IsTrue result ↔ IsPrefixOf (first_entries opening.now) history.now }
{
    let start = opening.start.as_slice();
    let first_view = Entry::View {
        age: opening.age,
        number: 0,
        members: opening.members,
    };
    match history.get(start.len()) {
        Some(entry) => *entry == first_view && is_prefix(start, history),
        None => false,
    }
}

/// Whether entry `i` may stand in a history after its first entries: the view before a View may be
/// succeeded by it.
fn view_follows(opening: &Opening, history: &[Entry], i: usize) -> bool
    ensures { IsTrue result ↔ Follows opening.now history.now i }
{
    let Some(
        Entry::View {
            age,
            number,
            members,
        },
    ) = history.get(i)
    else {
        return true;
    };
    match view_of(&history[..i]) {
        Some(view) => {
            may_be_succeeded_by(opening, &history[..i], &view, *age, *number, *members)
        }
        None => false,
    }
}

/// Whether each View behind the first `start + 1` entries is one by which the view before it may be
/// succeeded.
fn views_follow(opening: &Opening, history: &[Entry], start: usize) -> bool
    ensures { IsTrue result ↔ ViewsFollow opening.now history.now start }
{
    for i in 0..history.len() {
        if start < i && !view_follows(opening, history, i) {
            return false;
        }
    }
    true
}

/// Whether each message behind the first `start + 1` entries was sent in the view in which it was
/// delivered, by a member of it.
fn messages_are_placed(ends: &[MemberEnd], history: &[Entry], start: usize) -> bool
    ensures { IsTrue result ↔ AllPlaced (sent_of ends.now) history.now start }
{
    for (i, entry) in history.iter().enumerate() {
        if let Entry::Msg { .. } = entry
            && start < i
            && place_at(ends, history, i).is_none()
        {
            return false;
        }
    }
    true
}

/// Whether the entries before `i` and those before `j` leave a history in the same view.
fn in_same_view(history: &[Entry], i: usize, j: usize) -> bool
    requires i { i ≤ length history.now }
    requires j { j ≤ length history.now }
    ensures { IsTrue result ↔ (view_of (take i history.now) ≡ view_of (take j history.now)) }
{
    match (view_of(&history[..i]), view_of(&history[..j])) {
        (Some(one), Some(other)) => one.is_same(&other),
        (None, None) => true,
        _ => false,
    }
}

/// Whether the place of entry `j` is above that of entry `i`, where both were delivered in the
/// same view and have places.
fn rises(ends: &[MemberEnd], history: &[Entry], i: usize, j: usize) -> bool
    ensures { IsTrue result ↔ ((p q : ℕ) → view_of (take i history.now) ≡ view_of (take j history.now)
        → place_at (sent_of ends.now) history.now i ≡ Some p
        → place_at (sent_of ends.now) history.now j ≡ Some q → p < q) }
{
    match (place_at(ends, history, i), place_at(ends, history, j)) {
        (Some(before), Some(after)) => before < after || !in_same_view(history, i, j),
        _ => true,
    }
}

/// Whether within a view the places of the messages behind the first `start + 1` entries rise.
fn places_rise(ends: &[MemberEnd], history: &[Entry], start: usize) -> bool
    ensures { IsTrue result ↔ PlacesRise (sent_of ends.now) history.now start }
{
    for j in 0..history.len() {
        for i in 0..j {
            if start < i && !rises(ends, history, i, j) {
                return false;
            }
        }
    }
    true
}

/// Whether message `next` of these is the one with this index and these bytes.
fn is_next(messages: &[Message], next: usize, index: u32, bytes: &Message) -> bool
    ensures { IsTrue result ↔ ((slice_get messages.now next ≡ Some bytes.now) × (index ≡ next)) }
{
    match messages.get(next) {
        Some(message) => message == bytes && index as usize == next,
        None => false,
    }
}

/// Whether the sender's messages among the entries are its first ones by the script, in their
/// order.
fn is_numbered(opening: &Opening, history: &[Entry], of: u8) -> bool
    ensures { IsTrue result
        ↔ IsPrefixOf (messages_from of history.now) (numbered_messages opening.now of) }
{
    let messages = messages_of(opening, of);
    let mut next = 0;
    for entry in history {
        let Entry::Msg {
            sender,
            index,
            bytes,
        } = entry
        else {
            continue;
        };
        if *sender != of {
            continue;
        }
        if !is_next(messages, next, *index, bytes) {
            return false;
        }
        next += 1;
    }
    true
}

/// Whether each sender's messages among the entries are its first ones by the script, in their
/// order.
fn all_are_numbered(opening: &Opening, history: &[Entry]) -> bool
    ensures { IsTrue result ↔ AllNumbered opening.now history.now }
{
    for entry in history {
        let Entry::Msg { sender, .. } = entry else {
            continue;
        };
        if !is_numbered(opening, history, *sender) {
            return false;
        }
    }
    true
}

/// Whether an item was delivered: a null leaves no entry, a message has its entry in the history.
fn is_delivered(history: &[Entry], member: u8, item: SentItem) -> bool
    ensures { IsTrue result ↔ IsDelivered history.now member item }
{
    let SentItem::Index(sent) = item else {
        return true;
    };
    for entry in history {
        if let Entry::Msg { sender, index, .. } = entry
            && *sender == member
            && *index == sent
        {
            return true;
        }
    }
    false
}

/// Whether the place of a view holds an item that was delivered.
fn holds_delivered(ends: &[MemberEnd], history: &[Entry], view: &GroupView, place: u64) -> bool
    ensures { IsTrue result ↔ IsSomeAnd
        (item_at (sent_of ends.now) view.now place) (λ t. IsDelivered history.now t.0 t.1) }
{
    match item_at(ends, view, place) {
        Some((member, item)) => is_delivered(history, member, item),
        None => false,
    }
}

/// Whether every place below that of entry `i` holds an item that was delivered, where the entry
/// was delivered in the last view and has a place.
fn whole_below(ends: &[MemberEnd], history: &[Entry], i: usize) -> bool
    ensures { IsTrue result ↔ ((p q : ℕ) (v : GroupView)
        → view_of (take i history.now) ≡ Some v → view_of history.now ≡ Some v
        → place_at (sent_of ends.now) history.now i ≡ Some p → q < p
        → IsSomeAnd (item_at (sent_of ends.now) v q) (λ t. IsDelivered history.now t.0 t.1)) }
{
    let (Some(place), Some(view)) = (place_at(ends, history, i), view_of(history)) else {
        return true;
    };
    if !in_same_view(history, i, history.len()) {
        return true;
    }
    for lower in 0..place {
        if !holds_delivered(ends, history, &view, lower) {
            return false;
        }
    }
    true
}

/// Whether below each message that was delivered in the last view, behind the first `start + 1`
/// entries, every place of that view holds an item that was delivered.
fn last_view_is_whole(ends: &[MemberEnd], history: &[Entry], start: usize) -> bool
    ensures { IsTrue result ↔ LastViewWhole (sent_of ends.now) history.now start }
{
    for i in 0..history.len() {
        if start < i && !whole_below(ends, history, i) {
            return false;
        }
    }
    true
}

/// Whether a history begins as it is to, and each View behind is one by which the view before it may
/// be succeeded.
fn views_are_in_order(opening: &Opening, history: &[Entry], start: usize) -> bool
    ensures { IsTrue result
        ↔ (IsPrefixOf (first_entries opening.now) history.now × ViewsFollow opening.now history.now start) }
{
    begins(opening, history) && views_follow(opening, history, start)
}

/// Whether each message behind the first `start + 1` entries has a place, and within a view these rise.
fn places_are_in_order(ends: &[MemberEnd], history: &[Entry], start: usize) -> bool
    ensures { IsTrue result ↔ (AllPlaced (sent_of ends.now) history.now start
        × PlacesRise (sent_of ends.now) history.now start) }
{
    messages_are_placed(ends, history, start) && places_rise(ends, history, start)
}

/// Whether no message is missing before another one of its sender, and none in the last view.
fn messages_are_whole(
    opening: &Opening,
    ends: &[MemberEnd],
    history: &[Entry],
    start: usize,
) -> bool
    ensures { IsTrue result ↔ (AllNumbered opening.now history.now
        × LastViewWhole (sent_of ends.now) history.now start) }
{
    all_are_numbered(opening, history) && last_view_is_whole(ends, history, start)
}

/// Whether a history is in order, where the members of the age had sent what `ends` say.
pub fn in_order(opening: &Opening, ends: &[MemberEnd], history: &[Entry]) -> bool
    ensures { IsTrue result ↔ InOrder opening.now (sent_of ends.now) history.now }
{
    let start = opening.start.as_slice().len();
    views_are_in_order(opening, history, start)
        && places_are_in_order(ends, history, start)
        && messages_are_whole(opening, ends, history, start)
}
