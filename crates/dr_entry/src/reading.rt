ghost use Rattle.std.specs.{Int.{w16, w32}, Result.result_err};
ghost use Rattle.std.specs.Prelude.{◌≡◌, ◌↔◌, ℕ, ◌+◌, ◌*◌, ◌<◌, ◌≤◌, length, slice_index, MatchResult};
ghost use Rattle.dr_entry.specs.Grammar.{decoded, fault_of, unless, first_fault, number_at, view_fields, view_at, message_fields, message_at, vote_fields, vote_at, trim_fields, trims_at, age_vote_at, age_vote_fields, cut_at, cut_fields};
ghost use Rattle.dr_entry.specs.{Spelling.Spells, declared.reading.DecodeFault.TheVariants.Short};
ghost use Rattle.dr_entry.specs.declared.record.Record.{Record};

use crate::record::{AGE_VOTE, CUT, MESSAGE, UPGRADE, VIEW, VOTE};
use crate::writing::MAX_RECORD;
use crate::{AgeVote, Entry, MAX_MEMBERS, MAX_MESSAGE_LENGTH, Message, Record, Value, Vote};
use thiserror::Error;

/// Why bytes do not begin with a record. Places count bytes from 0.
#[derive(Clone, Copy, Debug, PartialEq, Eq, Error)]
pub enum DecodeFault {
    /// The field that begins at `at` is not whole.
    #[error("the field at byte {at} is not whole")]
    Short { at: usize },
    /// The byte at `at` names no kind of record.
    #[error("the byte {kind} at {at} names no kind of record")]
    BadKind { at: usize, kind: u8 },
    /// The field that begins at `at` breaks a rule.
    #[error("the field at byte {at} breaks a rule")]
    BadField { at: usize },
}

/// The record that the bytes begin with, and how many of them spell it. What follows them is not
/// looked at. Other bytes are refused by the first field that is not whole or breaks its rule.
pub fn decode(from: &[u8]) -> Result<(Record, usize), DecodeFault>
    ensures accepted { (r : Record) (n : ℕ) → (result ≡ Ok (r, n)) ↔ Spells from.now r n }
    ensures refused { result_err result ≡ fault_of from.now }
    ensures exact { result ≡ decoded from.now }
{
    match from {
        [] => Err(DecodeFault::Short { at: 0 }),
        [VIEW, ..] => view_from(from),
        [MESSAGE, ..] => message_from(from),
        [VOTE, ..] => vote_from(from),
        [AGE_VOTE, ..] => age_vote_from(from),
        [CUT, ..] => cut_from(from),
        [UPGRADE, ..] => Ok((Record::Upgrade, 1)),
        [kind, ..] => Err(DecodeFault::BadKind { at: 0, kind: *kind }),
    }
}

fn view_from(from: &[u8]) -> Result<(Record, usize), DecodeFault>
    ensures { result ≡ unless (first_fault view_fields from.now) (view_at from.now) }
{
    let age = u16_at(from, 1)?;
    let number = u8_at(from, 3)?;
    let members = u16_at(from, 4)?;
    if members == 0 {
        return Err(DecodeFault::BadField { at: 4 });
    }
    let view = Entry::View {
        age,
        number,
        members,
    };
    Ok((Record::Entry(view), 6))
}

fn message_from(from: &[u8]) -> Result<(Record, usize), DecodeFault>
    ensures { let fields = message_fields (slice_index from.now 6) in
        result ≡ unless (first_fault fields from.now) (message_at from.now) }
{
    let sender = u8_at(from, 1)?;
    if usize::from(sender) >= MAX_MEMBERS {
        return Err(DecodeFault::BadField { at: 1 });
    }
    let index = u32_at(from, 2)?;
    let len = usize::from(u8_at(from, 6)?);
    if len > MAX_MESSAGE_LENGTH {
        return Err(DecodeFault::BadField { at: 6 });
    }
    let end = 7 + len;
    if from.len() < end {
        return Err(DecodeFault::Short { at: 7 });
    }
    let bytes = Message::of(&from[7..end]).unwrap();
    let message = Entry::Msg {
        sender,
        index,
        bytes,
    };
    Ok((Record::Entry(message), end))
}

fn vote_from(from: &[u8]) -> Result<(Record, usize), DecodeFault>
    ensures { let fields = vote_fields (slice_index from.now 7) in
        result ≡ unless (first_fault fields from.now) (vote_at from.now) }
{
    let age = u16_at(from, 1)?;
    let view = u8_at(from, 3)?;
    let ballot = u8_at(from, 4)?;
    let leavers = u16_at(from, 5)?;
    let members = u8_at(from, 7)?;
    if members == 0 || usize::from(members) > MAX_MEMBERS {
        return Err(DecodeFault::BadField { at: 7 });
    }
    if ballot >= members {
        return Err(DecodeFault::BadField { at: 4 });
    }
    if u32::from(leavers) >> members != 0 {
        return Err(DecodeFault::BadField { at: 5 });
    }
    let trim = trims_from(from, members)?;
    let vote = Vote {
        age,
        view,
        ballot,
        members,
        value: Value { leavers, trim },
    };
    Ok((Record::Vote(vote), 8 + 4 * usize::from(members)))
}

/// The trims of so many members. That all are whole is looked at once, so that they are read without a test.
fn trims_from(from: &[u8], members: u8) -> Result<[u32; MAX_MEMBERS], DecodeFault>
    requires members { members ≤ MAX_MEMBERS }
    requires before { 8 ≤ length from.now }
    ensures { result ≡ unless (first_fault (trim_fields members) from.now) (trims_at members from.now) }
{
    if from.len() < 8 + 4 * usize::from(members) {
        return Err(DecodeFault::Short {
            at: first_cut_off(from),
        });
    }
    let mut trim = [0; MAX_MEMBERS];
    for s in 0..usize::from(members) {
        trim[s] = whole_u32_at(from, 8 + 4 * s);
    }
    Ok(trim)
}

/// The place of the first trim that is not whole.
fn first_cut_off(from: &[u8]) -> usize
    requires { 8 ≤ length from.now }
    ensures { (s : ℕ) × (result ≡ 8 + 4 * s) × (result ≤ length from.now)
        × (length from.now < result + 4) }
{
    8 + (from.len() - 8) / 4 * 4
}

fn age_vote_from(from: &[u8]) -> Result<(Record, usize), DecodeFault>
    ensures { result ≡ unless (first_fault age_vote_fields from.now) (age_vote_at from.now) }
{
    let age = u16_at(from, 1)?;
    let members = u16_at(from, 3)?;
    if members == 0 {
        return Err(DecodeFault::BadField { at: 3 });
    }
    Ok((Record::AgeVote(AgeVote { age, members }), 5))
}

fn cut_from(from: &[u8]) -> Result<(Record, usize), DecodeFault>
    ensures { result ≡ unless (first_fault cut_fields from.now) (cut_at from.now) }
{
    let keep = u32_at(from, 1)?;
    Ok((Record::Cut { keep }, 5))
}

fn u8_at(from: &[u8], at: usize) -> Result<u8, DecodeFault>
    requires { at < MAX_RECORD }
    ensures { MatchResult result
        (λ number. (at + 1 ≤ length from.now) × (number ≡ slice_index from.now at))
        (λ fault. (length from.now < at + 1) × (fault ≡ Short at)) }
{
    if from.len() < at + 1 {
        return Err(DecodeFault::Short { at });
    }
    Ok(from[at])
}

fn u16_at(from: &[u8], at: usize) -> Result<u16, DecodeFault>
    requires { at < MAX_RECORD }
    ensures { MatchResult result
        (λ number. (at + 2 ≤ length from.now) × (number ≡ number_at w16 at from.now))
        (λ fault. (length from.now < at + 2) × (fault ≡ Short at)) }
{
    if from.len() < at + 2 {
        return Err(DecodeFault::Short { at });
    }
    Ok(u16::from_be_bytes([from[at], from[at + 1]]))
}

fn u32_at(from: &[u8], at: usize) -> Result<u32, DecodeFault>
    requires { at < MAX_RECORD }
    ensures { MatchResult result
        (λ number. (at + 4 ≤ length from.now) × (number ≡ number_at w32 at from.now))
        (λ fault. (length from.now < at + 4) × (fault ≡ Short at)) }
{
    if from.len() < at + 4 {
        return Err(DecodeFault::Short { at });
    }
    Ok(whole_u32_at(from, at))
}

fn whole_u32_at(from: &[u8], at: usize) -> u32
    requires { at + 4 ≤ length from.now }
    ensures { result ≡ number_at w32 at from.now }
{
    u32::from_be_bytes([from[at], from[at + 1], from[at + 2], from[at + 3]])
}
