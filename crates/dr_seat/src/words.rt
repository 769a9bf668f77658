//! The words of a packet, each behind the place of the table that it is for.
ghost use Rattle.std.specs.{Int.w32, Prelude.{◌≡◌, ◌↔◌, ◌≤◌, ◌+◌, ◌%◌, IsTrue, [], length}};
ghost use Rattle.dr_entry.specs.Grammar.{number_at};
ghost use Rattle.dr_packet.specs.Packets.{long_at};

use arrayvec::ArrayVec;
use dr_packet::{WORD, WORDS_ROOM};

/// The words of a packet, with their places: all of them whole.
#[derive(Drop)]
pub(crate) struct Words {
    bytes: ArrayVec<u8, WORDS_ROOM>,
    ghost whole: { length bytes.items % 12 ≡ 0 },
}

impl Words {
    pub(crate) fn none() -> Words
        ensures { result.bytes.items ≡ [] }
    {
        Words {
            bytes: ArrayVec::new(),
        }
    }

    pub(crate) fn is_empty(&self) -> bool
        ensures { IsTrue result ↔ (self.now.bytes.items ≡ []) }
    {
        self.bytes.is_empty()
    }

    /// Whether there is room for one more.
    pub(crate) fn has_room(&self) -> bool
        ensures { IsTrue result ↔ (length self.now.bytes.items + 12 ≤ 1320) }
    {
        self.bytes.len() + WORD <= WORDS_ROOM
    }

    /// Puts a word and its place behind the others, where there is room.
    pub(crate) fn put(&mut self, index: usize, word: u64)
        requires { length self.old.bytes.items + 12 ≤ 1320 }
        ensures { length self.new.bytes.items ≡ length self.old.bytes.items + 12 }
    {
        // A table has fewer places than that.
        let place = u32::try_from(index).unwrap_or(u32::MAX);
        put_word(&mut self.bytes, &place.to_be_bytes(), &word.to_be_bytes());
    }

    pub(crate) fn bytes(&self) -> &[u8]
        ensures bytes { result.now ≡ self.now.bytes.items }
        ensures short { length result.now ≤ 1320 }
        ensures whole { length result.now % 12 ≡ 0 }
    {
        self.bytes.as_slice()
    }

    pub(crate) fn clear(&mut self)
        ensures { self.new.bytes.items ≡ [] }
    {
        self.bytes.clear();
    }
}

/// Puts the bytes of a place and of its word behind others.
fn put_word(into: &mut ArrayVec<u8, WORDS_ROOM>, place: &[u8; 4], word: &[u8; 8])
    requires { length into.old.items + 12 ≤ 1320 }
    ensures { length into.new.items ≡ length into.old.items + 12 }
{
    into.try_extend_from_slice(place).unwrap();
    into.try_extend_from_slice(word).unwrap();
}

/// The word at a place of a packet's words, and the place of the table that it is for.
pub(crate) fn word_at(words: &[u8], at: usize) -> (usize, u64)
    requires { at + 12 ≤ length words.now }
    ensures place { result.0 ≡ number_at w32 at words.now }
    ensures word { result.1 ≡ long_at (at + 4) words.now }
{
    (u32_at(words, at) as usize, u64_at(words, at + 4))
}

fn u32_at(from: &[u8], at: usize) -> u32
    requires { at + 4 ≤ length from.now }
    ensures { result ≡ number_at w32 at from.now }
{
    u32::from_be_bytes([from[at], from[at + 1], from[at + 2], from[at + 3]])
}

fn u64_at(from: &[u8], at: usize) -> u64
    requires { at + 8 ≤ length from.now }
    ensures { result ≡ long_at at from.now }
{
    u64::from_be_bytes([
        from[at],
        from[at + 1],
        from[at + 2],
        from[at + 3],
        from[at + 4],
        from[at + 5],
        from[at + 6],
        from[at + 7],
    ])
}
