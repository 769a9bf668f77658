use crate::explaining::hints::{first_misfit, hint_at};
use crate::explaining::repeats::{place_of, string_end};
use crate::explaining::shown::push_shown;
use serde_json::Error;
use std::alloc::AllocError;
use std::fmt::Write;
use std::str;

/// By these bytes a text begins that some editors mark as UTF-8.
const BYTE_ORDER_MARK: [u8; 3] = [0xef, 0xbb, 0xbf];

/// So deep arrays and objects may stand in one another.
const MOST_NESTED: usize = 127;

/// Appends where a text is no JSON, or why it isn't read, and what is most likely wrong there.
pub(crate) fn push_syntax(out: &mut String, bytes: &[u8], error: &Error) -> Result<(), AllocError> {
    if bytes.iter().all(|byte| byte.is_ascii_whitespace()) {
        return out.push_str("the text is empty\n");
    }
    if bytes.starts_with(&BYTE_ORDER_MARK) {
        return out.push_str("the text begins with a byte order mark, which JSON has not\n");
    }
    let fault = (error.line(), error.column());
    let at = offset_of(bytes, fault).unwrap_or(bytes.len());
    if error.is_eof() {
        return push_at(out, bytes, fault, at, "the text ends before its value does");
    }
    if let Some(deep) = too_deep(bytes) {
        let place = place_of(bytes, deep);
        if place <= fault {
            return push_at(out, bytes, place, deep, "this is nested deeper than 127");
        }
    }
    if let Some(half) = half_a_pair(bytes, at) {
        let what = "half a surrogate pair is no character";
        return push_at(out, bytes, place_of(bytes, half), half, what);
    }
    // The reader tells of a bracket that closes another one than is open only behind it.
    match first_misfit(bytes) {
        Some(misfit) if misfit < at => push_fault(out, bytes, place_of(bytes, misfit), misfit),
        _ => push_fault(out, bytes, fault, at),
    }
}

/// Appends that a text is no JSON at a line and a byte in it, before which so many stand in the text, and what is most
/// likely wrong there.
fn push_fault(
    out: &mut String,
    text: &[u8],
    place: (usize, usize),
    at: usize,
) -> Result<(), AllocError> {
    push_at(out, text, place, at, "what stands here is no JSON in UTF-8")?;
    match hint_at(text, at) {
        Some(hint) => writeln!(out, "{hint}"),
        None => Ok(()),
    }
}

/// Appends what is to be said of a line and a byte in it, and shows that byte, before which so many stand in the text.
fn push_at(
    out: &mut String,
    text: &[u8],
    place: (usize, usize),
    at: usize,
    what: &str,
) -> Result<(), AllocError> {
    let (line, byte) = place;
    writeln!(out, "line {line}, byte {byte}: {what}")?;
    push_shown(out, text, at)
}

/// Where the first array or object begins that is nested deeper than may be.
fn too_deep(text: &[u8]) -> Option<usize> {
    let mut depth = 0usize;
    let mut at = 0;
    while at < text.len() {
        match text[at] {
            b'{' | b'[' if depth == MOST_NESTED => return Some(at),
            b'{' | b'[' => depth = depth.saturating_add(1),
            b'}' | b']' => depth = depth.saturating_sub(1),
            b'"' => at = string_end(text, at + 1),
            _ => {}
        }
        at += 1;
    }
    None
}

/// Where an escape stands that is half a surrogate pair, in the string that begins at this place.
fn half_a_pair(text: &[u8], quote: usize) -> Option<usize> {
    if text.get(quote) != Some(&b'"') {
        return None;
    }
    lone_half(text, quote)
}

/// How many bytes stand before a place of the text.
fn offset_of(text: &[u8], place: (usize, usize)) -> Option<usize> {
    let (line, byte) = place;
    let mut lines = 1usize;
    for (at, other) in text.iter().enumerate() {
        if lines == line {
            return Some(at.saturating_add(byte).saturating_sub(1));
        }
        if *other == b'\n' {
            lines = lines.saturating_add(1);
        }
    }
    None
}

/// Where the first escape stands behind this quote that is half a surrogate pair, without the other half,
/// unless the string ends before.
fn lone_half(text: &[u8], quote: usize) -> Option<usize> {
    let mut at = quote.saturating_add(1);
    while at < text.len() && text[at] != b'"' {
        let next = text.len().min(at.saturating_add(6));
        match (unit_at(text, at), unit_at(text, next)) {
            (Some(0xd800..=0xdbff), Some(0xdc00..=0xdfff)) => at = next,
            (Some(0xd800..=0xdfff), _) => return Some(at),
            _ if text[at] == b'\\' => at = text.len().min(at.saturating_add(1)),
            _ => {}
        }
        at = at.saturating_add(1);
    }
    None
}

/// The number that an escape has in hexadecimal, where one begins here.
fn unit_at(text: &[u8], at: usize) -> Option<u16> {
    let digits = text.get(at..)?.strip_prefix(b"\\u")?.get(..4)?;
    u16::from_str_radix(str::from_utf8(digits).ok()?, 16).ok()
}
