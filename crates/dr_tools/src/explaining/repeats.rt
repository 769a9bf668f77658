ghost use Rattle.std.specs.Prelude.{◌<◌, ◌≤◌, length, IfSome};

use std::alloc::{AllocError, Global};
use std::fmt::Write;

/// The keys of a script and of its faults.
const KEYS: [&str; 12] = [
    "members", "window", "turns", "patience", "ages", "messages", "faults", "schedule", "age",
    "member", "crash", "suspect",
];

/// A key that stands twice in one object.
#[derive(Clone, Copy)]
struct Repeat {
    key: &'static str,
    /// Where the second one begins.
    at: usize,
}

/// Appends the first key of a JSON text that stands twice in one object.
pub(crate) fn push_repeat(alloc: Global, out: &mut String, text: &[u8]) -> Result<(), AllocError> {
    let Some(repeat) = first_repeat(alloc, text)? else {
        return Ok(());
    };
    let key = repeat.key;
    let (line, column) = place_of(text, repeat.at);
    writeln!(
        out,
        "{key:?} stands twice in one object, again at line {line}, byte {column}: the last one counts"
    )
}

/// The line and the byte in the line of a place, both counted from 1.
pub(crate) fn place_of(text: &[u8], at: usize) -> (usize, usize) {
    let before = &text[..at.min(text.len())];
    let lines = before.iter().filter(|byte| **byte == b'\n').count();
    let column = before
        .iter()
        .rev()
        .take_while(|byte| **byte != b'\n')
        .count();
    (lines.saturating_add(1), column.saturating_add(1))
}

/// The first key of a JSON text that stands twice in one object, where both are written without escapes.
fn first_repeat(alloc: Global, text: &[u8]) -> Result<Option<Repeat>, AllocError> {
    // For each object and each array that is open, the keys that it has so far, as a mask.
    let mut open: Vec<u16> = Vec::new(alloc);
    let mut at = 0;
    while at < text.len() {
        match text[at] {
            b'{' | b'[' => open.push(0)?,
            b'}' | b']' => {
                open.pop();
            }
            b'"' => {
                let end = string_end(text, at + 1);
                if let (Some(key), Some(keys)) = (key_at(text, at, end), open.last_mut()) {
                    if *keys >> key & 1 == 1 {
                        return Ok(Some(Repeat { key: KEYS[key], at }));
                    }
                    *keys |= 1 << key;
                }
                at = end;
            }
            _ => {}
        }
        at += 1;
    }
    Ok(None)
}

/// Where the string ends that begins at `from`: the place of its closing quote, or the end of the text.
pub(crate) fn string_end(text: &[u8], from: usize) -> usize
    requires { from ≤ length text.now }
    ensures { (from ≤ result) × (result ≤ length text.now) }
{
    let mut at = from;
    while at < text.len() && text[at] != b'"' {
        at += if text[at] == b'\\' { 2 } else { 1 };
    }
    at.min(text.len())
}

/// Which key the string between these quotes is, where a colon stands behind it.
fn key_at(text: &[u8], quote: usize, end: usize) -> Option<usize>
    requires { (quote < end) × (end ≤ length text.now) }
    ensures { IfSome result (λ key. key < 12) }
{
    let behind = text[end..]
        .iter()
        .skip(1)
        .find(|byte| !byte.is_ascii_whitespace());
    if behind != Some(&b':') {
        return None;
    }
    let name = &text[quote + 1..end];
    KEYS.iter().position(|key| key.as_bytes() == name)
}
