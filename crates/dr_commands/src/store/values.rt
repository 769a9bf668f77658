ghost use Rattle.std.specs.Prelude.{◌≡◌, ◌<◌, ◌++◌, ◌^◌, ◌≤◌, IfSome, OnOk, codes, length, option_map, string_bytes};
ghost use Rattle.dr_entry.specs.declared.limits.TheConstants.{MAX_MEMBERS, MAX_MESSAGE_LENGTH};
ghost use Rattle.dr_commands.specs.StoreLines.{last_values_text, value_line, value_text, values_text};

use dr_entry::{AgeEnd, Entry, MemberEnd};
use dr_store::Store;
use dr_text::push_hex_bytes;
use std::alloc::{AllocError, Global};
use std::fmt::Write;

/// Appends what the store of each member of the last age says of a key at a version, a line for each.
pub(crate) fn push_values(
    out: &mut String,
    alloc: Global,
    ages: &[AgeEnd],
    key: &[u8],
    version: u64,
) -> Result<(), AllocError>
    ensures { OnOk result (string_bytes out.new
        ≡ string_bytes out.old ++ last_values_text key.now version ages.now) }
{
    match ages {
        [] => Ok(()),
        [.., age] => push_members(out, alloc, age.members.as_slice(), key, version),
    }
}

/// Appends the lines of these members.
fn push_members(
    out: &mut String,
    alloc: Global,
    members: &[MemberEnd],
    key: &[u8],
    version: u64,
) -> Result<(), AllocError>
    ensures { OnOk result (string_bytes out.new
        ≡ string_bytes out.old ++ values_text key.now version members.now) }
{
    for (number, member) in members.iter().enumerate() {
        push_line(out, alloc, number, member.history.as_slice(), key, version)?;
    }
    Ok(())
}

/// Appends the line of a member with this number and history.
fn push_line(
    out: &mut String,
    alloc: Global,
    number: usize,
    history: &[Entry],
    key: &[u8],
    version: u64,
) -> Result<(), AllocError>
    ensures { OnOk result (string_bytes out.new
        ≡ string_bytes out.old ++ value_line key.now version number history.now) }
{
    let store = Store::of(alloc, history)?;
    let come = store.version();
    write!(out, "member {number} version {come} ")?;
    match store.get_at(key, version) {
        Ok(value) => push_value(out, value)?,
        Err(_) => out.push_str("ahead")?,
    }
    out.push_str("\n")
}

/// Appends a value: in hexadecimal, or a dash where it is empty, or that there is none.
fn push_value(out: &mut String, value: Option<&[u8]>) -> Result<(), AllocError>
    requires { IfSome value (λ bytes. length bytes.now ≤ MAX_MESSAGE_LENGTH) }
    ensures { OnOk result (string_bytes out.new
        ≡ string_bytes out.old
        ++ (codes "value " ++ value_text (option_map (λ bytes. bytes.now) value.entry))) }
{
    out.push_str("value ")?;
    match value {
        None => out.push_str("none"),
        Some([]) => out.push_str("-"),
        Some(bytes) => push_hex_bytes(out, bytes),
    }
}
