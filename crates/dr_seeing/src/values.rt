//! The texts of values, of items and of words.
ghost use Rattle.std.specs.{List.flat_map, Prelude.{◌≡◌, ◌<◌, ◌≤◌, ◌++◌, OnOk, length, string_bytes, take, codes}};
ghost use Rattle.dr_text.specs.Report.{message_text};
ghost use Rattle.dr_seeing.specs.Lines.{item_text, leavers_text, value_text, with_number};

use dr_entry::{Item, MAX_MESSAGE_LENGTH, Value};
use dr_replica::Replica;
use dr_text::{push_hex_bytes, push_mask};
use std::alloc::AllocError;
use std::fmt::Write;

/// Appends a value, by its numbers of members of the roster.
pub(crate) fn push_value(out: &mut String, members: u8, value: &Value) -> Result<(), AllocError>
    ensures { OnOk result
        (string_bytes out.new ≡ string_bytes out.old ++ value_text members value.now) }
{
    out.push_str("leavers ")?;
    push_leavers(out, value.leavers)?;
    out.push_str(" trim")?;
    push_trim(out, first(value.trim.as_slice(), usize::from(members)))
}

fn push_leavers(out: &mut String, mask: u16) -> Result<(), AllocError>
    ensures { OnOk result (string_bytes out.new ≡ string_bytes out.old ++ leavers_text mask) }
{
    if mask == 0 {
        out.push_str("-")
    } else {
        push_mask(out, mask)
    }
}

/// The first `count` numbers, or all of them.
fn first(numbers: &[u32], count: usize) -> &[u32]
    ensures { result.now ≡ take count numbers.now }
{
    &numbers[..count.min(numbers.len())]
}

/// Appends each of these numbers, with a blank before it.
fn push_trim(out: &mut String, numbers: &[u32]) -> Result<(), AllocError>
    ensures { OnOk result (string_bytes out.new
        ≡ string_bytes out.old ++ flat_map (with_number (codes " ")) numbers.now) }
{
    for number in numbers {
        write!(out, " {number}")?;
    }
    Ok(())
}

/// Appends an item of a sender that a replica delivers.
pub(crate) fn push_item(
    out: &mut String,
    replica: &Replica,
    sender: u8,
    item: &Item,
) -> Result<(), AllocError>
    requires { sender < replica.now.roster }
    ensures { OnOk result
        (string_bytes out.new ≡ string_bytes out.old ++ item_text replica.now sender item.now) }
{
    match item {
        Item::Null => out.push_str("null"),
        Item::Text(message) => {
            let index = replica.messages_from(sender);
            write!(out, "msg {sender} {index} ")?;
            push_message(out, message.bytes())
        }
    }
}

/// Appends the bytes of a message in hexadecimal, or a dash where there are none.
pub(crate) fn push_message(out: &mut String, bytes: &[u8]) -> Result<(), AllocError>
    requires { length bytes.now ≤ MAX_MESSAGE_LENGTH }
    ensures { OnOk result (string_bytes out.new ≡ string_bytes out.old ++ message_text bytes.now) }
{
    if bytes.is_empty() {
        out.push_str("-")
    } else {
        push_hex_bytes(out, bytes)
    }
}
