//! The logs that the others hand in.
ghost use Rattle.std.specs.Prelude.{◌≡◌, ◌<◌, ◌≤◌, ◌+◌, ◌-◌, ◌==◌, ◌&&◌, nat_lt, [], length};

use dr_entry::MAX_MEMBERS;
use dr_words::Mask;
use std::alloc::{AllocError, Global};

/// What another member has handed in of its log so far.
#[derive(Debug, Drop)]
pub(crate) struct Hand {
    /// How many bytes the log has, with its closed gate; 0 where nothing is known.
    size: u64,
    /// The first of them, and a closed gate.
    bytes: Vec<u8>,
    ghost within: { length bytes.items ≤ size },
}

impl Hand {
    fn none(alloc: Global) -> Hand
        ensures { result.size ≡ 0 }
    {
        Hand {
            size: 0,
            bytes: Vec::new(alloc),
        }
    }

    /// How many bytes the log has, with its closed gate; 0 where nothing is known.
    pub(crate) fn size(&self) -> u64
        ensures { result ≡ self.now.size }
    {
        self.size
    }

    /// How many bytes are here, without the closed gate.
    pub(crate) fn have(&self) -> u64
        ensures { result ≡ length self.now.bytes.items - 1 }
    {
        (self.bytes.len() as u64).saturating_sub(1)
    }

    /// Whether all of it is here.
    pub(crate) fn is_whole(&self) -> bool
        ensures { result ≡ (nat_lt 0 self.now.size && (length self.now.bytes.items == self.now.size)) }
    {
        self.size > 0 && self.bytes.len() as u64 == self.size
    }

    /// The bytes, with the closed gate.
    pub(crate) fn bytes(&self) -> &[u8]
        ensures { result.now ≡ self.now.bytes.items }
    {
        self.bytes.as_slice()
    }

    /// Forgets the bytes.
    pub(crate) fn clear(&mut self)
        ensures size { self.new.size ≡ 0 }
        ensures bytes { self.new.bytes.items ≡ [] }
    {
        self.bytes.clear();
        self.size = 0;
    }

    /// Takes a part of the log, which has so many bytes. Answers whether it is news.
    ///
    /// # Errors
    ///
    /// Want of memory alone.
    pub(crate) fn take(&mut self, size: u64, at: u64, part: &[u8]) -> Result<bool, AllocError> {
        if size < self.size || size == 0 {
            return Ok(false);
        }
        let news = self.size < size;
        self.size = size;
        if at != self.have() || part.len() as u64 > size - 1 - at {
            return Ok(news);
        }
        self.add(part)?;
        Ok(true)
    }

    /// Puts bytes behind those that are here, for which the log has room.
    ///
    /// # Errors
    ///
    /// Want of memory alone.
    fn add(&mut self, part: &[u8]) -> Result<(), AllocError>
        requires { length self.old.bytes.items - 1 + length part.now + 1 ≤ self.old.size }
        ensures { self.new.size ≡ self.old.size }
    {
        self.bytes.reserve(part.len() + 1)?;
        let _ = self.bytes.pop();
        self.bytes.extend_from_slice(part)?;
        self.bytes.push(CLOSED)?;
        Ok(())
    }
}

/// The byte of a closed gate.
const CLOSED: u8 = 0;

/// The logs of all members, by number.
#[derive(Debug, Drop)]
pub(crate) struct Hands {
    hands: Vec<Hand>,
    /// Who has handed in since the seat gathers.
    heard: Mask,
    ghost all: { length hands.items ≡ 16 },
}

impl Hands {
    pub(crate) fn new(alloc: Global) -> Result<Hands, AllocError> {
        let mut hands = Vec::with_capacity(alloc, MAX_MEMBERS)?;
        while hands.len() < MAX_MEMBERS {
            if hands.push(Hand::none(alloc)).is_err() {
                return Err(AllocError);
            }
        }
        Ok(Hands {
            hands,
            heard: Mask::empty(),
        })
    }

    pub(crate) fn of(&self, member: u8) -> &Hand
        requires { member < 16 }
    {
        &self.hands[usize::from(member)]
    }

    /// Whether this member has handed in its whole log since the seat gathers.
    pub(crate) fn has(&self, member: u8) -> bool
        requires { member < 16 }
    {
        self.heard.has(member) && self.of(member).is_whole()
    }

    /// Nobody has handed in a log.
    pub(crate) fn anew(&mut self) {
        self.heard = Mask::empty();
    }

    /// Forgets the bytes of this member's log.
    pub(crate) fn clear(&mut self, member: u8) {
        if let Some(hand) = self.hands.get_mut(usize::from(member)) {
            hand.clear();
        }
    }

    /// Takes a part of a member's log, which has so many bytes. Answers what comes of it.
    ///
    /// # Errors
    ///
    /// Want of memory alone.
    pub(crate) fn take(
        &mut self,
        member: u8,
        size: u64,
        at: u64,
        part: &[u8],
    ) -> Result<Taken, AllocError>
        requires { member < 16 }
    {
        let hand = &mut self.hands[usize::from(member)];
        let is_news = hand.take(size, at, part)?;
        let is_current = size > 0 && hand.size == size;
        let wants_more = is_current && is_news && !hand.is_whole();
        let is_first = is_current && !self.heard.has(member);
        if is_first {
            self.heard = self.heard.with(member);
        }
        Ok(Taken {
            is_news,
            changes: is_current && (is_news || is_first),
            wants_more,
        })
    }
}

/// What comes of a part of a log that was handed in.
#[derive(Clone, Copy, Debug, PartialEq, Eq)]
pub(crate) struct Taken {
    /// It is news.
    pub(crate) is_news: bool,
    /// What was handed in has changed.
    pub(crate) changes: bool,
    /// The next part is to be asked for.
    pub(crate) wants_more: bool,
}
