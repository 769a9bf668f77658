//! Whether an entry may stand on a log behind those before it.
ghost use Rattle.std.specs.Prelude.{◌≡◌, ◌≢◌, ◌↔◌, IsTrue, IsSomeAnd, Contains, Some, length, slice_get, slice_index_or, []};
ghost use Rattle.dr_history.specs.{Members.members_of, Order.{AreOfRoster, ContinuesAge}, Soundness.Opens};
ghost use Rattle.dr_script.specs.Ranges.{HasGroupRanges};

use dr_entry::{MAX_MEMBERS, Message};
use dr_history::{GroupView, members_of};
use dr_script::Script;
use dr_words::Mask;

/// Whether a mask has some members of the roster, and nobody else.
pub(crate) fn is_of_roster(script: &Script, members: u16) -> bool
    requires { HasGroupRanges script.now }
    ensures { IsTrue result ↔ AreOfRoster (length script.now.messages) members }
{
    members != 0 && Mask::of(members).without(Mask::all(script.members)).bits() == 0
}

/// Whether a View may open an age behind a view.
pub(crate) fn opens(view: &Option<GroupView>, age: u16, number: u8) -> bool
    ensures { IsTrue result ↔ Opens view.now age number }
{
    if number != 0 {
        return false;
    }
    match view {
        Some(view) => view.age() < age,
        None => true,
    }
}

/// Whether a View goes on in the age of a view.
pub(crate) fn continues(view: &Option<GroupView>, age: u16, number: u8, members: u16) -> bool
    ensures { IsTrue result ↔ IsSomeAnd view.now (λ v. ContinuesAge v age number members) }
{
    match view {
        Some(view) => goes_on(view, age, number, members),
        None => false,
    }
}

fn goes_on(view: &GroupView, age: u16, number: u8, members: u16) -> bool
    ensures { IsTrue result ↔ ContinuesAge view.now age number members }
{
    let is_next = age == view.age() && u16::from(number) == u16::from(view.number()) + 1;
    is_next && has_others(view, members)
}

/// Whether a mask has other members than a view.
fn has_others(view: &GroupView, members: u16) -> bool
    ensures { IsTrue result ↔ (members_of members ≢ view.now.members) }
{
    members_of(members).as_slice() != view.members()
}

/// Whether a message of a member of a view is the next of its sender, by these counts and by the script.
pub(crate) fn is_next(
    script: &Script,
    view: &Option<GroupView>,
    counts: &[u32; MAX_MEMBERS],
    sender: u8,
    index: u32,
    bytes: &Message,
) -> bool
    ensures { IsTrue result ↔ (IsSomeAnd view.now (λ v. Contains v.members sender)
        × (index ≡ slice_index_or counts.now sender 0)
        × (slice_get (slice_index_or script.now.messages sender []) index ≡ Some bytes.now)) }
{
    if !is_in(view, sender) {
        return false;
    }
    if !is_scripted(script, sender, index, bytes) {
        return false;
    }
    index == count_of(counts, sender)
}

/// Whether a member belongs to a view.
fn is_in(view: &Option<GroupView>, member: u8) -> bool
    ensures { IsTrue result ↔ IsSomeAnd view.now (λ v. Contains v.members member) }
{
    match view {
        Some(view) => view.members().contains(&member),
        None => false,
    }
}

/// Whether the script has this message.
fn is_scripted(script: &Script, sender: u8, index: u32, bytes: &Message) -> bool
    ensures { IsTrue result ↔ (slice_get (slice_index_or script.now.messages sender []) index
        ≡ Some bytes.now) }
{
    match messages_of(script, sender).get(index as usize) {
        Some(message) => message == bytes,
        None => false,
    }
}

/// The messages that the script gives a sender.
fn messages_of(script: &Script, sender: u8) -> &[Message]
    ensures { result.now ≡ slice_index_or script.now.messages sender [] }
{
    match script.messages.as_slice().get(usize::from(sender)) {
        Some(messages) => messages.as_slice(),
        None => &[],
    }
}

/// How many messages of a sender were counted.
fn count_of(counts: &[u32; MAX_MEMBERS], sender: u8) -> u32
    ensures { result ≡ slice_index_or counts.now sender 0 }
{
    match counts.get(usize::from(sender)) {
        Some(count) => *count,
        None => 0,
    }
}
