//! Entries by lines.
use anyhow::anyhow;
use dr_entry::{Entry, Message};
use std::alloc::Global;

/// The entry that a line applies, where it applies one.
pub(crate) fn entry_of(alloc: Global, line: &str) -> anyhow::Result<Option<Entry>> {
    let (name, rest) = line.split_once(' ').unwrap_or((line, ""));
    let mut bytes = Vec::new(alloc);
    match name {
        "put" => {
            let (key, value) = rest.split_once(' ').unwrap_or((rest, ""));
            push_key(&mut bytes, b'P', key)?;
            bytes.extend_from_slice(value.as_bytes())?;
        }
        "remove" => push_key(&mut bytes, b'D', rest)?,
        "bytes" => {
            for number in rest.split_ascii_whitespace() {
                bytes.push(number.parse()?)?;
            }
        }
        "view" => {
            return Ok(Some(Entry::View {
                age: 0,
                number: 0,
                members: 1,
            }));
        }
        _ => return Ok(None),
    }
    match Message::of(bytes.as_slice()) {
        Some(bytes) => Ok(Some(Entry::Msg {
            sender: 0,
            index: 0,
            bytes,
        })),
        None => Err(anyhow!("a message has at most 64 bytes")),
    }
}

/// Appends the head of a command: its letter, how long its key is, and the key.
fn push_key(bytes: &mut Vec<u8>, letter: u8, key: &str) -> anyhow::Result<()> {
    bytes.push(letter)?;
    bytes.push(u8::try_from(key.len())?)?;
    bytes.extend_from_slice(key.as_bytes())?;
    Ok(())
}
