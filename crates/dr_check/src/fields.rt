//! The fields of a line, and the numbers in them. What is no number is read as 0: whoever asks prints the
//! line anew, and compares.
ghost use Rattle.std.specs.{Fmt.decimal, List.position_or_len, Str.IsUtf8};
ghost use Rattle.std.specs.Prelude.{◌≡◌, ◌≢◌, ◌<◌, ◌≤◌, ◌^◌, ◌+◌, ◌==◌, ◌↔◌, IsTrue, ℕ, length, List, take, drop, slice_index_or, IfOk};
ghost use Rattle.dr_entry.specs.Messages.{IsMessage};
ghost use Rattle.dr_text.specs.Report.{mask_text, message_text};
ghost use Rattle.dr_words.specs.Masks.{with_member};
ghost use Rattle.dr_check.specs.{Fields.{field, is_end}, Lines.IsMask};
ghost use Rattle.hex.specs.declared.error.FromHexError.TheVariants.{OutOfMemory};

use dr_entry::{MAX_MESSAGE_LENGTH, Message};
use dr_words::Mask;
use hex::FromHexError;
use std::alloc::{AllocError, Global};

/// Whether a byte ends a field.
fn is_end(byte: u8) -> bool
    ensures { result ≡ is_end byte }
{
    byte == b' ' || byte == b'\n'
}

/// Where the first field ends, or the bytes do.
fn field_end(bytes: &[u8]) -> usize
    ensures first { result ≡ position_or_len is_end bytes.now }
    ensures within { result ≤ length bytes.now }
{
    for at in 0..bytes.len() {
        if is_end(bytes[at]) {
            return at;
        }
    }
    bytes.len()
}

/// The bytes behind the first field and what ends it; none where nothing does.
fn behind_field(bytes: &[u8], end: usize) -> &[u8]
    requires { end ≤ length bytes.now }
    ensures { result.now ≡ drop (end + 1) bytes.now }
{
    if end < bytes.len() {
        &bytes[end + 1..]
    } else {
        &[]
    }
}

/// The first field.
fn first_field(bytes: &[u8]) -> &[u8]
    ensures { result.now ≡ take (position_or_len is_end bytes.now) bytes.now }
{
    &bytes[..field_end(bytes)]
}

/// Field `k`, counted from 0.
pub(crate) fn field(bytes: &[u8], k: usize) -> &[u8]
    ensures { result.now ≡ field bytes.now k }
{
    let mut rest = bytes;
    let mut left = k;
    while left > 0 {
        rest = behind_field(rest, field_end(rest));
        left -= 1;
    }
    first_field(rest)
}

/// The text that bytes are; none where they are no text.
fn text_in(word: &[u8]) -> &str
    ensures { IsUtf8 word.now → result.now ≡ word.now }
{
    std::str::from_utf8(word).unwrap_or("")
}

/// The number below 2 ^ 8 that a field is.
pub(crate) fn u8_in(word: &[u8]) -> u8
    ensures { (n : ℕ) → n < 2 ^ 8 → word.now ≡ decimal n → result ≡ n }
{
    text_in(word).parse::<u8>().unwrap_or(0)
}

/// The number below 2 ^ 16 that a field is.
pub(crate) fn u16_in(word: &[u8]) -> u16
    ensures { (n : ℕ) → n < 2 ^ 16 → word.now ≡ decimal n → result ≡ n }
{
    text_in(word).parse::<u16>().unwrap_or(0)
}

/// The number below 2 ^ 32 that a field is.
pub(crate) fn u32_in(word: &[u8]) -> u32
    ensures { (n : ℕ) → n < 2 ^ 32 → word.now ≡ decimal n → result ≡ n }
{
    text_in(word).parse::<u32>().unwrap_or(0)
}

/// The number below 2 ^ 64 that a field is.
pub(crate) fn u64_in(word: &[u8]) -> u64
    ensures { (n : ℕ) → n < 2 ^ 64 → word.now ≡ decimal n → result ≡ n }
{
    text_in(word).parse::<u64>().unwrap_or(0)
}

/// Whether a fault is want of memory.
fn is_memory(fault: &FromHexError) -> bool
    ensures { IsTrue result ↔ (fault.now ≡ OutOfMemory) }
{
    matches!(fault, FromHexError::OutOfMemory)
}

/// The message that a field is.
pub(crate) fn message_in(alloc: Global, word: &[u8]) -> Result<Message, AllocError>
    ensures value { (bytes : List ℕ) → IsMessage bytes → word.now ≡ message_text bytes
        → IfOk result (λ message. message ≡ bytes) }
    ensures message { IfOk result (λ message. IsMessage message) }
{
    match hex::decode(alloc, word) {
        Ok(bytes) => Ok(message_of(bytes.as_slice())),
        Err(fault) => {
            if is_memory(&fault) {
                Err(AllocError)
            } else {
                Ok(message_of(&[]))
            }
        }
    }
}

/// The message of these bytes, or of the first of them.
fn message_of(bytes: &[u8]) -> Message
    ensures value { length bytes.now ≤ 64 → result ≡ bytes.now }
    ensures message { IsMessage result }
{
    Message::of(&bytes[..bytes.len().min(MAX_MESSAGE_LENGTH)]).unwrap()
}

/// Whether a byte is a comma.
fn is_comma(byte: u8) -> bool
    ensures { result ≡ (byte == 44) }
{
    byte == b','
}

/// Where the first comma is, or the bytes end.
fn comma_at(bytes: &[u8]) -> usize
    ensures first { result ≡ position_or_len (λ b. b == 44) bytes.now }
    ensures within { result ≤ length bytes.now }
{
    for at in 0..bytes.len() {
        if is_comma(bytes[at]) {
            return at;
        }
    }
    bytes.len()
}

/// A mask with one member more, where it is a number of one.
fn with_number(mask: Mask, n: u8) -> Mask
    ensures { n < 16 → result ≡ with_member mask n }
{
    if n < 16 { mask.with(n) } else { mask }
}

/// The number before the first comma.
fn first_number(bytes: &[u8]) -> u8
    ensures { (n : ℕ) → n < 2 ^ 8 → take (position_or_len (λ b. b == 44) bytes.now) bytes.now ≡ decimal n
        → result ≡ n }
{
    u8_in(&bytes[..comma_at(bytes)])
}

/// The mask that a field is.
pub(crate) fn mask_in(word: &[u8]) -> u16
    ensures { (mask : ℕ) → IsMask mask → word.now ≡ mask_text mask → result ≡ mask }
{
    let mut mask = Mask::empty();
    let mut rest = word;
    while !rest.is_empty() {
        mask = with_number(mask, first_number(rest));
        rest = behind_field(rest, comma_at(rest));
    }
    mask.bits()
}
