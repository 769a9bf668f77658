//! What was taken of a ring.
ghost use Rattle.std.specs.Prelude.{◌≡◌, ◌+◌, ◌≤◌, ◌++◌, All, IfOk, OnOk, [], length, vec_len};
ghost use Rattle.dr_entry.specs.declared.limits.TheConstants.{MAX_MESSAGES};
ghost use Rattle.dr_entry.specs.Messages.{IsMessage};
ghost use Rattle.dr_history.specs.History.{IsPrefixOf};
ghost use Rattle.rtrb.specs.Ring.{IsPair, SameConsumer, known_free, known_items, received, sent};

use dr_entry::{MAX_MESSAGES, Message};
use rtrb::{Consumer, Producer, RingBuffer};
use std::alloc::{AllocError, Global};

/// The messages that were taken of a ring, in the order in which they were pushed.
#[derive(Drop)]
pub(crate) struct Inbox {
    ring: Consumer<Message>,
    messages: Vec<Message>,
    ghost taken: { messages.items ≡ received ring },
    ghost few: { vec_len messages ≤ MAX_MESSAGES },
    ghost fit: { All IsMessage messages.items },
}

impl Inbox {
    /// The inbox of a new ring, and the producer that fills it: it has room for all that may be taken.
    pub(crate) fn new(alloc: Global) -> Result<(Producer<Message>, Inbox), AllocError>
        ensures pair { IfOk result (λ r. IsPair r.0 r.1.ring) }
        ensures none { IfOk result (λ r. sent r.0 ≡ []) }
        ensures room { IfOk result (λ r. known_free r.0 ≡ MAX_MESSAGES) }
        ensures empty { IfOk result (λ r. r.1.messages.items ≡ []) }
    {
        let (producer, ring) = RingBuffer::new(alloc, MAX_MESSAGES)?;
        let messages = Vec::new(alloc);
        Ok((producer, Inbox { ring, messages }))
    }

    /// What was taken.
    pub(crate) fn messages(&self) -> &[Message]
        ensures same { result.now ≡ self.now.messages.items }
        ensures few { length result.now ≤ MAX_MESSAGES }
        ensures fit { All IsMessage result.now }
    {
        self.messages.as_slice()
    }

    /// Takes what it finds in the ring.
    ///
    /// # Errors
    ///
    /// Want of memory alone.
    pub(crate) fn take(&mut self) -> Result<(), AllocError>
        ensures ring { SameConsumer self.old.ring self.new.ring }
        ensures grown { IsPrefixOf self.old.messages.items self.new.messages.items }
    {
        self.ring.slots();
        self.take_known()
    }

    /// Takes what is left in the ring, behind all that was pushed.
    ///
    /// # Errors
    ///
    /// Want of memory alone.
    pub(crate) fn take_rest(&mut self, producer: &mut Producer<Message>) -> Result<(), AllocError>
        requires pair { IsPair producer.old self.old.ring }
        requires few { length (sent producer.old) ≤ MAX_MESSAGES }
        ensures all { OnOk result (self.new.messages.items ≡ sent producer.old) }
        ensures grown { IsPrefixOf self.old.messages.items self.new.messages.items }
    {
        self.ring.slots_beside(producer);
        self.take_known()
    }

    /// Takes the messages that were seen in the ring, as long as there are no more in all than a member may
    /// have.
    fn take_known(&mut self) -> Result<(), AllocError>
        ensures ring { SameConsumer self.old.ring self.new.ring }
        ensures grown { IsPrefixOf self.old.messages.items self.new.messages.items }
        ensures all { length (received self.old.ring ++ known_items self.old.ring) ≤ MAX_MESSAGES
            → OnOk result (self.new.messages.items ≡ received self.old.ring ++ known_items self.old.ring) }
    {
        let room = MAX_MESSAGES - self.messages.len();
        let count = self.ring.cached_slots().min(room);
        self.messages.reserve(count)?;
        for _ in 0..count {
            let message = self.ring.pop_known();
            message_law(&message);
            self.messages.push(message).unwrap();
        }
        Ok(())
    }

    /// The messages that were taken.
    pub(crate) fn into_messages(self) -> Vec<Message>
        ensures same { result.items ≡ self.messages.items }
        ensures fit { All IsMessage result.items }
    {
        self.messages
    }
}

/// A law: each message is short, and its bytes are bytes.
fn message_law(message: &Message)
    ensures { IsMessage message.now }
{
    let _bytes = message.bytes();
}
