//! The words beside the marks of a picture.
use dr_entry::Message;
use dr_quote::push_message;
use dr_seeing::{Change, push_counts};
use std::alloc::{AllocError, Global};
use std::fmt::Write;

/// So many bytes of a long message are shown at most.
const SHOWN: usize = 10;

/// How many bytes of a long message are shown where there is so much room for a label.
pub(crate) fn shown_in(width: u32) -> usize {
    let count = width / 13 * 2;
    count.saturating_sub(4).max(1).min(SHOWN as u32) as usize
}

/// The label of a message. Of a long one so many bytes are shown, and half as many in hexadecimal.
pub(crate) fn label_of(
    alloc: Global,
    message: &Message,
    shown: usize,
) -> Result<String, AllocError> {
    let label = label_of_front(alloc, message.bytes(), shown)?;
    if label.as_str().starts_with('"') {
        return Ok(label);
    }
    label_of_front(alloc, message.bytes(), shown / 2)
}

/// The label of a message, by the front of it, where it has more bytes than fit with two points behind them.
fn label_of_front(alloc: Global, bytes: &[u8], shown: usize) -> Result<String, AllocError> {
    let front = front_of(bytes, shown);
    let mut label = String::new(alloc);
    if let Some(message) = Message::of(front) {
        push_message(alloc, &mut label, &message)?;
    }
    if front.len() < bytes.len() {
        label.push_str("..")?;
    }
    Ok(label)
}

/// The front of a message that is shown: none of its characters, which have four bytes at most, is cut.
fn front_of(bytes: &[u8], shown: usize) -> &[u8] {
    if bytes.len() <= shown.saturating_add(2) {
        return bytes;
    }
    let end = uncut(bytes, uncut(bytes, uncut(bytes, shown)));
    &bytes[..end.min(bytes.len())]
}

/// One byte less, where a character goes on with the next byte.
fn uncut(bytes: &[u8], end: usize) -> usize {
    match bytes.get(end) {
        Some(0x80..=0xbf) => end.saturating_sub(1),
        _ => end,
    }
}

/// The width that a label takes, by a generous guess at that of its characters.
pub(crate) fn width_of(label: &str) -> u32 {
    let count = label.chars().count().min(100) as u32;
    count * 13 / 2
}

/// A text as the language of pictures spells it.
pub(crate) fn escaped(alloc: Global, text: &str) -> Result<String, AllocError> {
    let mut out = String::new(alloc);
    for c in text.chars() {
        match c {
            '&' => out.push_str("&amp;")?,
            '<' => out.push_str("&lt;")?,
            '>' => out.push_str("&gt;")?,
            _ => out.push(c)?,
        }
    }
    Ok(out)
}

/// Appends the members of a mask, three and more behind one another as the first and the last of them.
pub(crate) fn push_ranges(out: &mut String, mask: u16) -> Result<(), AllocError> {
    let mut first = None;
    let mut comma = "";
    for member in 0..17u8 {
        let is_in = member < 16 && (mask >> member) % 2 == 1;
        match (is_in, first) {
            (true, None) => first = Some(member),
            (false, Some(from)) => {
                out.push_str(comma)?;
                push_range(out, from, member.saturating_sub(1))?;
                comma = ",";
                first = None;
            }
            _ => {}
        }
    }
    Ok(())
}

fn push_range(out: &mut String, from: u8, to: u8) -> Result<(), AllocError> {
    match to.saturating_sub(from) {
        0 => write!(out, "{from}"),
        1 => write!(out, "{from},{to}"),
        _ => write!(out, "{from}-{to}"),
    }
}

/// Appends who leaves, and who joins.
pub(crate) fn push_names(out: &mut String, change: &Change) -> Result<(), AllocError> {
    let leavers = change.leavers;
    let newcomers = change.newcomers;
    if leavers != 0 {
        push_those(out, leavers, " leaves", " leave")?;
    }
    if leavers != 0 && newcomers != 0 {
        out.push_str(", ")?;
    }
    if newcomers != 0 {
        push_those(out, newcomers, " joins", " join")?;
    }
    Ok(())
}

/// Appends these members, with a word behind one of them and another one behind several.
fn push_those(out: &mut String, names: u16, one: &str, several: &str) -> Result<(), AllocError> {
    push_ranges(out, names)?;
    out.push_str(if names.is_power_of_two() {
        one
    } else {
        several
    })
}

/// Appends how many items of each of the first `members` members are still delivered.
pub(crate) fn push_trim(out: &mut String, trim: &[u32], members: usize) -> Result<(), AllocError> {
    out.push_str("items")?;
    push_counts(out, " ", members, trim)
}
