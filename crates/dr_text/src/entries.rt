ghost use Rattle.std.specs.{Fmt.decimal, List.{concat, flat_map}};
ghost use Rattle.std.specs.Prelude.{◌≡◌, ◌<◌, ◌≤◌, ◌++◌, OnOk, string_bytes, codes, if◌then◌else◌, length, [], ◌∷◌};
ghost use Rattle.dr_entry.specs.declared.entry.Entry.{Entry};
ghost use Rattle.dr_history.specs.Members.{has};
ghost use Rattle.dr_text.specs.Report.{entry_text, message_text, hex_text, mask_text};

use crate::digits::{push_decimal, push_hex_bytes};
use dr_entry::{Entry, MAX_MESSAGE_LENGTH, Message};
use std::alloc::AllocError;
use std::fmt::Write;

/// Appends a line for each entry.
pub(crate) fn push_entries(out: &mut String, entries: &[Entry]) -> Result<(), AllocError>
    ensures { OnOk result
        (string_bytes out.new ≡ string_bytes out.old ++ flat_map entry_text entries.now) }
{
    for entry in entries {
        push_entry(out, entry)?;
    }
    Ok(())
}

/// Appends the line of an entry.
///
/// # Errors
///
/// Want of memory alone.
pub fn push_entry(out: &mut String, entry: &Entry) -> Result<(), AllocError>
    ensures { OnOk result (string_bytes out.new ≡ string_bytes out.old ++ entry_text entry.now) }
{
    match entry {
        Entry::View {
            age,
            number,
            members,
        } => push_view(out, *age, *number, *members),
        Entry::Msg {
            sender,
            index,
            bytes,
        } => push_msg(out, *sender, *index, bytes),
    }
}

fn push_view(out: &mut String, age: u16, number: u8, members: u16) -> Result<(), AllocError>
    ensures { OnOk result
        (string_bytes out.new ≡ string_bytes out.old ++ entry_text (Entry.View age number members)) }
{
    write!(out, "  view {age} {number} ")?;
    push_mask(out, members)?;
    out.push_str("\n")
}

fn push_msg(out: &mut String, sender: u8, index: u32, bytes: &Message) -> Result<(), AllocError>
    ensures { OnOk result
        (string_bytes out.new ≡ string_bytes out.old ++ entry_text (Entry.Msg sender index bytes.now)) }
{
    push_place(out, sender, index)?;
    push_message(out, bytes.bytes())?;
    out.push_str("\n")
}

/// Appends what stands before the bytes of a message.
fn push_place(out: &mut String, sender: u8, index: u32) -> Result<(), AllocError>
    ensures { OnOk result (string_bytes out.new ≡ string_bytes out.old ++ concat
        (codes "  msg " ∷ decimal sender ∷ codes " " ∷ decimal index ∷ codes " " ∷ [])) }
{
    out.push_str("  msg ")?;
    push_decimal(out, u64::from(sender))?;
    out.push_str(" ")?;
    push_decimal(out, u64::from(index))?;
    out.push_str(" ")
}

/// Appends the bytes of a message in hexadecimal, or a dash where there are none.
fn push_message(out: &mut String, bytes: &[u8]) -> Result<(), AllocError>
    requires { length bytes.now ≤ MAX_MESSAGE_LENGTH }
    ensures { OnOk result (string_bytes out.new ≡ string_bytes out.old ++ message_text bytes.now) }
{
    if bytes.is_empty() {
        out.push_str("-")
    } else {
        push_hex_bytes(out, bytes)
    }
}

/// Appends the members of a mask, ascending, with commas between them.
///
/// # Errors
///
/// Want of memory alone.
#[tactic(auto, unfolding(dr_history::specs::Members::members_of, dr_history::specs::Members::members_below))]
pub fn push_mask(out: &mut String, mask: u16) -> Result<(), AllocError>
    ensures { OnOk result (string_bytes out.new ≡ string_bytes out.old ++ mask_text mask) }
{
    let mut first = true;
    for number in 0..16u8 {
        if is_member(mask, number) {
            push_number(out, first, number)?;
            first = false;
        }
    }
    Ok(())
}

fn is_member(mask: u16, number: u8) -> bool
    requires { number < 16 }
    ensures { result ≡ has mask number }
{
    (mask >> number) % 2 == 1
}

/// Appends a number, with a comma before it where it is not the first.
///
/// # Errors
///
/// Want of memory alone.
pub fn push_number(out: &mut String, first: bool, number: u8) -> Result<(), AllocError>
    ensures { OnOk result (string_bytes out.new
        ≡ string_bytes out.old ++ (if first then [] else codes ",") ++ decimal number) }
{
    if first {
        write!(out, "{number}")
    } else {
        write!(out, ",{number}")
    }
}
