//! What the bytes of a packet say.
ghost use Rattle.std.specs.Int.{w16, w32};
ghost use Rattle.std.specs.Prelude.{◌≡◌, ◌↔◌, ℕ, ◌+◌, ◌*◌, ◌<◌, ◌≤◌, IfErr, IfOk, IsTrue, MatchResult, length, slice_index};
ghost use Rattle.dr_entry.specs.Grammar.{number_at};
ghost use Rattle.dr_packet.specs.Packets.{HasForm, IsFault, IsPacket, IsSummed, SaysSame, group_in, long_at, plan_in};
ghost use Rattle.dr_packet.specs.Reading.{IsFarOf, IsReading, IsSaidIn, way_in};
ghost use Rattle.dr_packet.specs.declared.{Says.Says, Way.Way};

use crate::writing::{ASK, HAND, HEAD, MAGIC, PART, SUM, TRY, WORD, WORDS, WORDS_ROOM, sum_of};
use crate::{Call, Far, Says, Seal, Way};
use thiserror::Error;

/// Why bytes are no packet of a group and its plan, in the order in which it is looked at.
#[derive(Clone, Copy, Debug, PartialEq, Eq, Error)]
pub enum PacketFault {
    #[error("it is shorter than a packet, or begins otherwise")]
    Short,
    #[error("it was changed on its way")]
    Sum,
    #[error("it is of another group")]
    OtherGroup,
    #[error("it is of the same group with another plan")]
    OtherPlan,
    #[error("it says nothing that a packet says")]
    Kind,
}

/// What a packet says, and by whom and for whom. What was written is read, and nothing else; other bytes are refused
/// by the first fault that they have.
///
/// # Errors
///
/// A [`PacketFault`], the first in their order.
pub fn read<'a>(seal: &Seal, bytes: &'a [u8]) -> Result<(Way, Says<'a>), PacketFault>
    ensures packet { IfOk result (λ read. IsPacket seal.now bytes.now read.0 read.1) }
    ensures written { (way : Way) (says : Says) → IsPacket seal.now bytes.now way says
        → MatchResult result (λ read. (read.0 ≡ way) × SaysSame read.1 says) (λ fault. ⊥) }
    ensures fault { IfErr result (IsFault seal.now bytes.now) }
{
    if !has_form(bytes) {
        return Err(PacketFault::Short);
    }
    if !is_summed(bytes) {
        return Err(PacketFault::Sum);
    }
    if !is_of_group(seal, bytes) {
        return Err(PacketFault::OtherGroup);
    }
    if !is_of_plan(seal, bytes) {
        return Err(PacketFault::OtherPlan);
    }
    match said_in(bytes) {
        Some(says) => Ok((way_of(bytes), says)),
        None => Err(PacketFault::Kind),
    }
}

/// Whether bytes are as long as a packet at least, and begin as one does.
fn has_form(bytes: &[u8]) -> bool
    ensures { IsTrue result ↔ HasForm bytes.now }
{
    bytes.len() >= HEAD + SUM && bytes[..4] == MAGIC[..]
}

/// Whether the digest at their end is that of all before.
fn is_summed(bytes: &[u8]) -> bool
    requires { 68 ≤ length bytes.now }
    ensures { IsTrue result ↔ IsSummed bytes.now }
{
    let end = bytes.len() - SUM;
    sum_of(&bytes[..end])[..] == bytes[end..]
}

/// Whether they have the name of this group.
fn is_of_group(seal: &Seal, bytes: &[u8]) -> bool
    requires { 68 ≤ length bytes.now }
    ensures { IsTrue result ↔ (group_in bytes.now ≡ seal.now.group) }
{
    bytes[12..28] == seal.group[..]
}

/// Whether they have the digest of its plan.
fn is_of_plan(seal: &Seal, bytes: &[u8]) -> bool
    requires { 68 ≤ length bytes.now }
    ensures { IsTrue result ↔ (plan_in bytes.now ≡ seal.now.plan) }
{
    bytes[28..HEAD] == seal.plan[..]
}

/// By whom and for whom they are.
fn way_of(bytes: &[u8]) -> Way
    requires { 68 ≤ length bytes.now }
    ensures { result ≡ way_in bytes.now }
{
    Way {
        from: bytes[5],
        to: bytes[6],
        ages: u32_at(bytes, 8),
    }
}

/// What they say, where the byte that is always 0 is so.
fn said_in(bytes: &[u8]) -> Option<Says<'_>>
    requires { 68 ≤ length bytes.now }
    ensures { IsSaidIn bytes.now result }
{
    if bytes[7] == 0 {
        says_of(bytes[4], &bytes[HEAD..bytes.len() - SUM])
    } else {
        None
    }
}

/// What the bytes behind a head of this kind say.
fn says_of(kind: u8, bytes: &[u8]) -> Option<Says<'_>>
    ensures { IsReading kind bytes.now result }
{
    match kind {
        ASK => ask_of(bytes),
        HAND => hand_of(bytes),
        TRY => try_of(bytes),
        WORDS => words_of(bytes),
        _ => None,
    }
}

fn ask_of(bytes: &[u8]) -> Option<Says<'_>>
    ensures { IsReading 1 bytes.now result }
{
    if bytes.len() != 16 {
        return None;
    }
    Some(Says::Ask {
        length: u64_at(bytes, 0),
        at: u64_at(bytes, 8),
    })
}

fn hand_of(bytes: &[u8]) -> Option<Says<'_>>
    ensures { IsReading 2 bytes.now result }
{
    if bytes.len() < 16 || bytes.len() > 16 + PART {
        return None;
    }
    Some(Says::Hand {
        length: u64_at(bytes, 0),
        at: u64_at(bytes, 8),
        bytes: &bytes[16..],
    })
}

fn try_of(bytes: &[u8]) -> Option<Says<'_>>
    ensures { IsReading 3 bytes.now result }
{
    if bytes.len() != 133 {
        return None;
    }
    let far = far_of(bytes[0])?;
    let call = Call {
        set: u16_at(bytes, 3),
        lengths: lengths_of(bytes),
        age: u16_at(bytes, 1),
    };
    Some(Says::Try { call, far })
}

fn words_of(bytes: &[u8]) -> Option<Says<'_>>
    ensures { IsReading 4 bytes.now result }
{
    if bytes.len() < 2 || bytes.len() > 2 + WORDS_ROOM || (bytes.len() - 2) % WORD != 0 {
        return None;
    }
    Some(Says::Words {
        age: u16_at(bytes, 0),
        words: &bytes[2..],
    })
}

/// How far a byte says that somebody is.
fn far_of(byte: u8) -> Option<Far>
    ensures { IsFarOf byte result }
{
    match byte {
        0 => Some(Far::Chosen),
        1 => Some(Far::Voted),
        2 => Some(Far::Up),
        _ => None,
    }
}

/// The lengths of the logs in the bytes of a try.
fn lengths_of(bytes: &[u8]) -> [u64; 16]
    requires { length bytes.now ≡ 133 }
    ensures members { length result ≡ 16 }
    ensures each { (m : ℕ) → m < 16 → slice_index result m ≡ long_at (5 + 8 * m) bytes.now }
{
    let mut lengths = [0u64; 16];
    for m in 0..16usize {
        lengths[m] = u64_at(bytes, 5 + 8 * m);
    }
    lengths
}

fn u16_at(from: &[u8], at: usize) -> u16
    requires { at + 2 ≤ length from.now }
    ensures { result ≡ number_at w16 at from.now }
{
    u16::from_be_bytes([from[at], from[at + 1]])
}

fn u32_at(from: &[u8], at: usize) -> u32
    requires { at + 4 ≤ length from.now }
    ensures { result ≡ number_at w32 at from.now }
{
    u32::from_be_bytes([from[at], from[at + 1], from[at + 2], from[at + 3]])
}

fn u64_at(from: &[u8], at: usize) -> u64
    requires { at + 8 ≤ length from.now }
    ensures { result ≡ long_at at from.now }
{
    u64::from_be_bytes([
        from[at],
        from[at + 1],
        from[at + 2],
        from[at + 3],
        from[at + 4],
        from[at + 5],
        from[at + 6],
        from[at + 7],
    ])
}
