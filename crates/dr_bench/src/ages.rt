ghost use Rattle.std.specs.Prelude.{◌≡◌, ◌≤◌, IfOk, length};

use dr_entry::{AgeEnd, End, Entry, MAX_MESSAGE_LENGTH, MemberEnd, Message, Seq};
use std::alloc::{AllocError, Global};

const MEMBERS: u8 = 16;

/// The most messages that a member may have.
const MOST_MESSAGES: u32 = 4096;

/// The letters in their order, again and again: so many that each may be the first of a message.
const LETTERS: &[u8] =
    b"abcdefghijklmnopqrstuvwxyzabcdefghijklmnopqrstuvwxyzabcdefghijklmnopqrstuvwxyzabcdefghijk";

/// An age of 16 members that have all ended as done, with so many messages of each in every history.
pub fn age_of(alloc: Global, messages: u32) -> Result<AgeEnd, AllocError>
    ensures { IfOk result (λ age. length age.members ≡ 16) }
{
    let messages = messages.min(MOST_MESSAGES);
    let mut members = Vec::with_capacity(alloc, usize::from(MEMBERS))?;
    for _ in 0..MEMBERS {
        members.push(member_of(alloc, messages)?)?;
    }
    Ok(AgeEnd {
        age: 0,
        start: Seq::of(Vec::new(alloc)),
        members: Seq::of(members),
    })
}

/// A member that delivered these messages, and has all of its history on its disk.
fn member_of(alloc: Global, messages: u32) -> Result<MemberEnd, AllocError> {
    let history = history_of(alloc, messages)?;
    let count = history.len() as u64;
    Ok(MemberEnd {
        end: End::Done,
        turns: 0,
        sent: Seq::of(Vec::new(alloc)),
        history: Seq::of(history),
        logged: count,
        durable: count,
    })
}

/// The first view, and so many messages of each member in turn.
fn history_of(alloc: Global, messages: u32) -> Result<Vec<Entry>, AllocError> {
    let mut history = Vec::new(alloc);
    history.push(Entry::View {
        age: 0,
        number: 0,
        members: u16::MAX,
    })?;
    for index in 0..messages {
        for sender in 0..MEMBERS {
            let bytes = numbered(sender, index);
            history.push(Entry::Msg {
                sender,
                index,
                bytes,
            })?;
        }
    }
    Ok(history)
}

/// The message of a member with this index: 64 letters that follow one another, from another one on
/// each time.
fn numbered(sender: u8, index: u32) -> Message
    ensures { length result ≡ 64 }
{
    let first = ((31 * u32::from(sender) + 7 * (index % 26)) % 26) as usize;
    message_of(&LETTERS[first..first + MAX_MESSAGE_LENGTH])
}

/// The message of these bytes.
fn message_of(bytes: &[u8]) -> Message
    requires { length bytes.now ≤ 64 }
    ensures { result ≡ bytes.now }
{
    Message::of(bytes).unwrap()
}
