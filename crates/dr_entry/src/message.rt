ghost use Rattle.std.specs.Prelude.{◌≡◌, ◌<◌, IfSome, length, MatchOption};
ghost use Rattle.dr_entry.specs.Messages.{IsMessage};

use crate::MAX_MESSAGE_LENGTH;
use std::fmt;
use std::marker::Model;

/// A message of a member: at most [`MAX_MESSAGE_LENGTH`] bytes.
#[derive(Drop)]
pub struct Message {
    // The message is the first `len` of these.
    bytes: [u8; MAX_MESSAGE_LENGTH],
    len: u8,
}

impl Model for Message {
    ghost use Rattle.std.specs.Prelude.{◌≤◌, List, ℕ, take};
    ghost use Rattle.dr_entry.specs.Messages.{IsMessage};
    ghost use Rattle.dr_entry.specs.declared.limits.TheConstants.{MAX_MESSAGE_LENGTH};

    ghost Value = { List ℕ };

    ghost view = { λ m. take m.len m.bytes };

    ghost invariant = { λ m. (m.len ≤ MAX_MESSAGE_LENGTH) × IsMessage (take m.len m.bytes) };
}

impl Message {
    /// The message of these bytes; `None` exactly where they are more than
    /// [`MAX_MESSAGE_LENGTH`].
    pub fn of(bytes: &[u8]) -> Option<Message>
        ensures value { MatchOption result (64 < length bytes.now) (λ m. m ≡ bytes.now) }
        ensures message { IfSome result IsMessage }
    {
        if bytes.len() > MAX_MESSAGE_LENGTH {
            return None;
        }
        let mut all = [0; MAX_MESSAGE_LENGTH];
        all[..bytes.len()].copy_from_slice(bytes);
        Some(Message {
            bytes: all,
            len: bytes.len() as u8,
        })
    }

    /// The message's bytes.
    pub fn bytes(&self) -> &[u8]
        ensures same { result.now ≡ self.now }
        ensures message { IsMessage self.now }
    {
        &self.bytes[..usize::from(self.len)]
    }

    /// An equal message.
    pub fn copy(&self) -> Message
        ensures { result ≡ self.now }
    {
        Message {
            bytes: self.bytes,
            len: self.len,
        }
    }
}

impl PartialEq for Message {
    ghost use Rattle.std.specs.Prelude.{nat_eq};
    ghost use Rattle.std.specs.Cmp.{partial_equiv_from_equiv};
    ghost use Rattle.std.specs.Cmp.Lexicographic.{pointwise, nat_list_eq_equiv};

    ghost eq = { pointwise nat_eq };

    ghost laws = { partial_equiv_from_equiv nat_list_eq_equiv };

    fn eq(&self, other: &Self) -> bool {
        self.bytes() == other.bytes()
    }
}

impl Eq for Message {
    ghost use Rattle.std.specs.Cmp.Lexicographic.{nat_list_eq_equiv};

    ghost laws = { nat_list_eq_equiv };
}

impl fmt::Debug for Message {
    fn fmt<W: fmt::Write>(&self, f: &mut fmt::Formatter<W>) -> fmt::Result {
        self.bytes().fmt(f)
    }
}
