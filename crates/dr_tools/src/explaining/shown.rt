//! Shows a byte of a text in its line.
use std::alloc::AllocError;

/// So many bytes of a line are shown at most before the one that is meant, and so many behind it.
const AROUND: usize = 60;

/// Appends the line of the byte at this place, and below it a caret under that byte; nothing, where the line is empty.
/// A longer line is cut round the byte.
pub(crate) fn push_shown(out: &mut String, text: &[u8], at: usize) -> Result<(), AllocError> {
    let (before, behind) = text.split_at(at.min(text.len()));
    let (before, behind) = (last_line(before), first_line(behind));
    if before.is_empty() && behind.is_empty() {
        return Ok(());
    }
    let from = before.len().saturating_sub(AROUND);
    let to = behind.len().min(AROUND + 1);
    out.push_str(if from > 0 { "  .." } else { "  " })?;
    push_visible(out, &before[from..])?;
    push_visible(out, &behind[..to])?;
    out.push_str(if to < behind.len() { "..\n" } else { "\n" })?;
    out.push_str(if from > 0 { "    " } else { "  " })?;
    for _ in &before[from..] {
        out.push_str(" ")?;
    }
    out.push_str("^\n")
}

/// What stands behind the last line feed.
fn last_line(text: &[u8]) -> &[u8] {
    let bytes = text.iter().rev();
    let count = bytes.take_while(|byte| **byte != b'\n').count();
    &text[text.len().saturating_sub(count)..]
}

/// What stands before the first line feed.
fn first_line(text: &[u8]) -> &[u8] {
    let count = text.iter().take_while(|byte| **byte != b'\n').count();
    &text[..count.min(text.len())]
}

/// Appends these bytes, each as one character, so that a caret finds its place: a question mark for one that ASCII
/// doesn't print, and a blank for one that is blank.
fn push_visible(out: &mut String, bytes: &[u8]) -> Result<(), AllocError> {
    for byte in bytes {
        out.push(match byte {
            b' '..=b'~' => char::from(*byte),
            byte if byte.is_ascii_whitespace() => ' ',
            _ => '?',
        })?;
    }
    Ok(())
}
