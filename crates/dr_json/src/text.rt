ghost use Rattle.std.specs.{List.flat_map, Str.is_utf8};
ghost use Rattle.std.specs.Prelude.{◌≡◌, ◌≤◌, ◌++◌, IfOk, MatchOption, OnOk, false, length, string_bytes, true};
ghost use Rattle.dr_text.specs.Report.{hex_text};
ghost use Rattle.dr_json.specs.Json.{comma_before, json_text, shown_text};

use dr_entry::{MAX_MESSAGE_LENGTH, Message};
use dr_text::push_hex_bytes;
use serde_json::Value;
use std::alloc::{AllocError, Global};
use std::str::from_utf8;

/// Appends a message as a JSON string.
///
/// # Errors
///
/// Want of memory alone.
pub fn push_text(alloc: Global, out: &mut String, message: &Message) -> Result<(), AllocError>
    ensures { OnOk result (string_bytes out.new ≡ string_bytes out.old ++ json_text message.now) }
{
    let json = Value::String(shown(alloc, message)?).to_string(alloc)?;
    out.push_str(json.as_str())
}

/// The text that a message is, or its bytes in hexadecimal, where they are no text.
fn shown(alloc: Global, message: &Message) -> Result<String, AllocError>
    ensures { IfOk result (λ text. string_bytes text ≡ shown_text message.now) }
{
    let bytes = message.bytes();
    match text_in(bytes) {
        Some(text) => String::from_str(alloc, text),
        None => digits_of(alloc, bytes),
    }
}

/// The text that these bytes are, where they are one.
fn text_in(bytes: &[u8]) -> Option<&str>
    ensures { MatchOption result (is_utf8 bytes.now ≡ false)
        (λ text. (text.now ≡ bytes.now) × (is_utf8 bytes.now ≡ true)) }
{
    match from_utf8(bytes) {
        Ok(text) => Some(text),
        Err(_) => None,
    }
}

/// These bytes in hexadecimal.
fn digits_of(alloc: Global, bytes: &[u8]) -> Result<String, AllocError>
    requires { length bytes.now ≤ MAX_MESSAGE_LENGTH }
    ensures { IfOk result (λ digits. string_bytes digits ≡ flat_map hex_text bytes.now) }
{
    let mut digits = String::new(alloc);
    push_hex_bytes(&mut digits, bytes)?;
    Ok(digits)
}

/// Appends the comma before an element of a list with this number.
///
/// # Errors
///
/// Want of memory alone.
pub fn push_comma(out: &mut String, number: usize) -> Result<(), AllocError>
    ensures { OnOk result (string_bytes out.new ≡ string_bytes out.old ++ comma_before number) }
{
    if number == 0 {
        return Ok(());
    }
    out.push_str(", ")
}
