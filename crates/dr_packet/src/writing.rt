//! The bytes of a packet.
ghost use Rattle.std.specs.Int.{to_be_bytes, w16};
ghost use Rattle.std.specs.Prelude.{◌≡◌, ◌+◌, ◌*◌, ◌≤◌, ◌++◌, ◌∷◌, [], length, take};
ghost use Rattle.sha2.specs.Sha256.{sha256};
ghost use Rattle.dr_packet.specs.Packets.{IsShort, body, far_byte, head, kind_of, long_bytes, spelling};
ghost use Rattle.dr_packet.specs.declared.writing.TheConstants.{PACKET_ROOM};

use crate::{Call, Far, Says, Seal, Way};
use arrayvec::ArrayVec;
use sha2::{Digest, Sha256};

/// The bytes by which a packet begins.
pub(crate) const MAGIC: [u8; 4] = *b"DRS1";

/// The number of bytes of a head, and of the digest at the end.
pub(crate) const HEAD: usize = 60;

pub(crate) const SUM: usize = 8;

/// The most bytes of a packet.
pub const PACKET_ROOM: usize = 1400;

/// The most bytes of a log that a packet carries.
pub const PART: usize = 1280;

/// The number of bytes of a word with its place, and the most of them in a packet.
pub const WORD: usize = 12;

pub const WORDS_ROOM: usize = 1320;

pub(crate) const ASK: u8 = 1;

pub(crate) const HAND: u8 = 2;

pub(crate) const TRY: u8 = 3;

pub(crate) const WORDS: u8 = 4;

/// Writes a packet in the place of what stood there. Of a log it takes at most [`PART`] bytes, of words at most
/// [`WORDS_ROOM`], and whole ones.
pub fn write(seal: &Seal, way: &Way, says: &Says, into: &mut ArrayVec<u8, PACKET_ROOM>)
    requires { IsShort says.now }
    ensures { into.new.items ≡ spelling seal.now way.now says.now }
{
    into.clear();
    put_head(into, seal, way, kind_of(says));
    put_body(into, says);
    let sum = sum_of(into.as_slice());
    put(into, &sum);
}

/// Puts a head, before which nothing stands.
fn put_head(into: &mut ArrayVec<u8, PACKET_ROOM>, seal: &Seal, way: &Way, kind: u8)
    requires { into.old.items ≡ [] }
    ensures head { into.new.items ≡ head seal.now way.now kind }
    ensures length { length into.new.items ≡ 60 }
{
    put(into, &MAGIC);
    put(into, &[kind, way.from, way.to, 0]);
    put(into, &way.ages.to_be_bytes());
    put(into, &seal.group);
    put(into, &seal.plan);
}

/// Puts what a packet says behind its head.
fn put_body(into: &mut ArrayVec<u8, PACKET_ROOM>, says: &Says)
    requires head { length into.old.items ≡ 60 }
    requires short { IsShort says.now }
    ensures body { into.new.items ≡ into.old.items ++ body says.now }
    ensures length { length into.new.items ≤ 1382 }
{
    match says {
        Says::Ask { length, at } => {
            put(into, &length.to_be_bytes());
            put(into, &at.to_be_bytes());
        }
        Says::Hand { length, at, bytes } => {
            put(into, &length.to_be_bytes());
            put(into, &at.to_be_bytes());
            put(into, bytes);
        }
        Says::Try { call, far } => put_call(into, call, *far),
        Says::Words { age, words } => {
            put(into, &age.to_be_bytes());
            put(into, words);
        }
    }
}

/// The byte of a kind of packet.
fn kind_of(says: &Says) -> u8
    ensures { result ≡ kind_of says.now }
{
    match says {
        Says::Ask { .. } => ASK,
        Says::Hand { .. } => HAND,
        Says::Try { .. } => TRY,
        Says::Words { .. } => WORDS,
    }
}

/// The byte that tells how far a member is.
fn far_byte(far: Far) -> u8
    ensures { result ≡ far_byte far }
{
    match far {
        Far::Chosen => 0,
        Far::Voted => 1,
        Far::Up => 2,
    }
}

fn put_call(into: &mut ArrayVec<u8, PACKET_ROOM>, call: &Call, far: Far)
    requires { length into.old.items ≡ 60 }
    ensures length { length into.new.items ≡ 193 }
    ensures call { into.new.items ≡ into.old.items ++ ((far_byte far ∷ []) ++ (to_be_bytes w16 call.now.age
        ++ (to_be_bytes w16 call.now.set ++ long_bytes call.now.lengths))) }
{
    put(into, &[far_byte(far)]);
    put(into, &call.age.to_be_bytes());
    put(into, &call.set.to_be_bytes());
    put_lengths(into, call.lengths.as_slice());
}

fn put_lengths(into: &mut ArrayVec<u8, PACKET_ROOM>, lengths: &[u64])
    requires { length into.old.items + 8 * length lengths.now ≤ PACKET_ROOM }
    ensures lengths { into.new.items ≡ into.old.items ++ long_bytes lengths.now }
    ensures length { length into.new.items ≡ length into.old.items + 8 * length lengths.now }
{
    for length in lengths {
        put(into, &length.to_be_bytes());
    }
}

fn put(into: &mut ArrayVec<u8, PACKET_ROOM>, bytes: &[u8])
    requires { length into.old.items + length bytes.now ≤ PACKET_ROOM }
    ensures { into.new.items ≡ into.old.items ++ bytes.now }
{
    into.try_extend_from_slice(bytes).unwrap();
}

/// The first bytes of the digest of these.
pub(crate) fn sum_of(bytes: &[u8]) -> [u8; SUM]
    ensures { result ≡ take 8 (sha256 bytes.now) }
{
    let digest = Sha256::digest(bytes);
    let mut sum = [0; SUM];
    sum.copy_from_slice(&digest[..SUM]);
    sum
}
