ghost use Rattle.std.specs.Prelude.{◌≡◌};

use crate::Message;

/// What a member puts into a round-robin place of its own.
#[derive(Debug, PartialEq, Eq, Drop)]
pub enum Item {
    /// Nothing: the member had no message to send, and only fills its place.
    Null,
    /// A message.
    Text(Message),
}

/// One entry of a history: a view that was installed, or a message that was delivered.
#[derive(Debug, PartialEq, Eq, Drop)]
pub enum Entry {
    /// The view numbered `number`, from 0, of the age `age`; bit `i` of `members` is set exactly
    /// where member `i` belongs to it.
    View {
        age: u16,
        number: u8,
        members: u16,
    },
    /// The message numbered `index`, from 0 over all views and ages, of the member `sender`.
    Msg {
        sender: u8,
        index: u32,
        bytes: Message,
    },
}

impl Item {
    /// An equal item.
    pub fn copy(&self) -> Item
        ensures { result ≡ self.now }
    {
        match self {
            Item::Null => Item::Null,
            Item::Text(message) => Item::Text(message.copy()),
        }
    }
}

impl Entry {
    /// An equal entry.
    pub fn copy(&self) -> Entry
        ensures { result ≡ self.now }
    {
        match self {
            Entry::View {
                age,
                number,
                members,
            } => Entry::View {
                age: *age,
                number: *number,
                members: *members,
            },
            Entry::Msg {
                sender,
                index,
                bytes,
            } => Entry::Msg {
                sender: *sender,
                index: *index,
                bytes: bytes.copy(),
            },
        }
    }
}
