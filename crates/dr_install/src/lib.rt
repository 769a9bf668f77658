//! How a member comes to its next view: the View that it installs or finds in a letter, the message from which on
//! it sends, and the letter for who comes into the view with it.
//!
//! No call of this crate takes memory.
//!
//! `next_view` doesn't ask that somebody stays, and somebody leaves or comes: whoever has committed the value
//! knows it.
#![tactic(auto)]

ghost use Rattle.std.specs.Prelude.{◌≡◌, ◌+◌, ◌^◌, ◌<◌, ◌≤◌, [], ◌∷◌, length, take, if◌then◌else◌};
ghost use Rattle.dr_entry.specs.declared.entry.Entry.TheVariants.{View};
ghost use Rattle.dr_history.specs.{History.{last_view, up_to_view}, Order.messages_from};
ghost use Rattle.dr_words.specs.Masks.{next_members};

use dr_entry::{Entry, Value};
use dr_words::Mask;

/// The View that follows the view `number` of these members by a value: it has the next number, and the
/// members that come of these by the names of the value.
pub fn next_view(age: u16, number: u8, members: Mask, v: &Value) -> Entry
    requires { number < 255 }
    ensures { result ≡ View age (number + 1) (next_members members v.now.leavers) }
{
    Entry::View {
        age,
        number: number + 1,
        members: members.next(Mask::of(v.leavers)).bits(),
    }
}

/// The index of the first message of a member that its history lacks: the number of those that it has.
pub fn first_unsent(history: &[Entry], me: u8) -> u32
    requires { length history.now < 2 ^ 32 }
    ensures { result ≡ length (messages_from me history.now) }
{
    let mut count = 0;
    for entry in history {
        if is_message_of(entry, me) {
            count += 1;
        }
    }
    count
}

/// The number and the members of the last View of a history.
pub fn last_view(history: &[Entry]) -> (u8, Mask)
    ensures { (result.0, result.1) ≡ last_view (0, 0) history.now }
{
    let mut last = (0, Mask::empty());
    for entry in history {
        if let Entry::View {
            number,
            members,
            ..
        } = entry
        {
            last = (*number, Mask::of(*members));
        }
    }
    last
}

/// Where the letter ends that a history gives: behind its last View.
pub fn letter_end(history: &[Entry]) -> usize
    ensures within { result ≤ length history.now }
    ensures letter { take result history.now ≡ up_to_view history.now }
{
    let mut end = 0;
    for at in 0..history.len() {
        if is_view(&history[at]) {
            end = at + 1;
        }
    }
    end
}

// Whether the entry is a View.
fn is_view(entry: &Entry) -> bool
    ensures { up_to_view (entry.now ∷ []) ≡ (if result then entry.now ∷ [] else []) }
{
    matches!(entry, Entry::View { .. })
}

// Whether the entry is a message of this sender.
fn is_message_of(entry: &Entry, sender: u8) -> bool
    ensures { messages_from sender (entry.now ∷ []) ≡ (if result then entry.now ∷ [] else []) }
{
    matches!(entry, Entry::Msg { sender: of, .. } if *of == sender)
}
