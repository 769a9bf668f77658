ghost use Rattle.std.specs.Prelude.{◌≡◌, ◌≤◌, ◌↔◌, ◌++◌, All, IfOk, IsTrue, MatchOption, OnOk, false, length, string_bytes, true};
ghost use Rattle.dr_quote.specs.Quote.{can_be_shown, is_clear, is_hidden, is_plain, is_within, message_text, quoted};

use dr_entry::{MAX_MESSAGE_LENGTH, Message};
use dr_text::push_hex_bytes;
use std::alloc::{AllocError, Global};
use std::str::{from_utf8, from_utf8_unchecked};

/// Appends a message, in quotes where it can be shown so, and else in hexadecimal.
///
/// # Errors
///
/// Want of memory alone.
pub fn push_message(alloc: Global, out: &mut String, message: &Message) -> Result<(), AllocError>
    ensures { OnOk result (string_bytes out.new ≡ string_bytes out.old ++ message_text message.now) }
{
    let bytes = message.bytes();
    if are_plain(bytes) {
        push_plain(out, bytes)
    } else {
        push_other(alloc, out, bytes)
    }
}

/// Whether all these bytes stand in quotes as they are.
fn are_plain(bytes: &[u8]) -> bool
    ensures { IsTrue result ↔ All (λ byte. is_plain byte ≡ true) bytes.now }
{
    bytes.iter().all(|byte| is_plain(*byte))
}

fn is_plain(byte: u8) -> bool
    ensures { result ≡ is_plain byte }
{
    byte >= b' ' && byte <= b'~' && byte != b'"' && byte != b'\\'
}

/// Appends bytes that stand in quotes as they are.
fn push_plain(out: &mut String, bytes: &[u8]) -> Result<(), AllocError>
    requires { All (λ byte. is_plain byte ≡ true) bytes.now }
    ensures { OnOk result (string_bytes out.new ≡ string_bytes out.old ++ message_text bytes.now) }
{
    out.push_str("\"")?;
    out.push_str(unsafe { from_utf8_unchecked(bytes) })?;
    out.push_str("\"")
}

/// Appends any other bytes, in quotes where they can be shown so, and else in hexadecimal.
fn push_other(alloc: Global, out: &mut String, bytes: &[u8]) -> Result<(), AllocError>
    requires { length bytes.now ≤ MAX_MESSAGE_LENGTH }
    ensures { OnOk result (string_bytes out.new ≡ string_bytes out.old ++ message_text bytes.now) }
{
    let quoted = quoted(alloc, bytes)?;
    match shown(&quoted) {
        Some(text) => out.push_str(text),
        None => push_hex_bytes(out, bytes),
    }
}

/// The text that these bytes are, where it can be shown.
fn shown(bytes: &[u8]) -> Option<&str>
    ensures { MatchOption result (can_be_shown bytes.now ≡ false)
        (λ text. (text.now ≡ bytes.now) × (can_be_shown bytes.now ≡ true)) }
{
    let Ok(text) = from_utf8(bytes) else {
        return None;
    };
    if is_clear(text) { Some(text) } else { None }
}

/// These bytes in quotes, with a backslash before each quote and each backslash.
fn quoted(alloc: Global, bytes: &[u8]) -> Result<Vec<u8>, AllocError>
    ensures { IfOk result (λ v. v.items ≡ quoted bytes.now) }
{
    let mut text = Vec::new(alloc);
    text.push(b'"')?;
    for byte in bytes {
        if matches!(*byte, b'"' | b'\\') {
            text.push(b'\\')?;
        }
        text.push(*byte)?;
    }
    text.push(b'"')?;
    Ok(text)
}

/// Whether each character of a text can be seen.
fn is_clear(text: &str) -> bool
    ensures { result ≡ is_clear text.now }
{
    !text.chars().any(is_hidden)
}

/// Whether a character can't be seen, or isn't what it looks like: a control character, one that has no width or
/// turns the direction of others, or a blank other than that of ASCII.
fn is_hidden(c: char) -> bool
    ensures { result ≡ is_hidden c }
{
    let code = c as u32;
    code <= 0x1f
        || is_within(code, 0x7f, 0xa0)
        || is_within(code, 0xad, 0xad)
        || is_within(code, 0x61c, 0x61c)
        || is_within(code, 0x180e, 0x180e)
        || is_within(code, 0x2000, 0x200f)
        || is_within(code, 0x2028, 0x202f)
        || is_within(code, 0x205f, 0x206f)
        || is_within(code, 0x3000, 0x3000)
        || is_within(code, 0xfeff, 0xfeff)
        || is_within(code, 0xe0000, 0xe0fff)
}

fn is_within(code: u32, low: u32, high: u32) -> bool
    ensures { result ≡ is_within low high code }
{
    low <= code && code <= high
}
