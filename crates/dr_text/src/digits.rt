ghost use Rattle.std.specs.{Fmt.{decimal, digit_glyph}, List.flat_map};
ghost use Rattle.std.specs.Prelude.{◌≡◌, ◌<◌, ◌≤◌, ◌++◌, false, OnOk, string_bytes, length, ◌*◌, IsAscii};
ghost use Rattle.dr_text.specs.Report.{hex_text};

use dr_entry::MAX_MESSAGE_LENGTH;
use itoa::Buffer;
use std::alloc::AllocError;

/// Appends a number in decimal.
pub(crate) fn push_decimal(out: &mut String, number: u64) -> Result<(), AllocError>
    ensures { OnOk result (string_bytes out.new ≡ string_bytes out.old ++ decimal number) }
{
    let mut buffer = Buffer::new();
    out.push_str(buffer.format(number))
}

/// Appends the bytes of a message in hexadecimal.
///
/// # Errors
///
/// Want of memory alone.
pub fn push_hex_bytes(out: &mut String, bytes: &[u8]) -> Result<(), AllocError>
    requires { length bytes.now ≤ MAX_MESSAGE_LENGTH }
    ensures { OnOk result
        (string_bytes out.new ≡ string_bytes out.old ++ flat_map hex_text bytes.now) }
{
    let mut room = [0u8; 2 * MAX_MESSAGE_LENGTH];
    let digits = &mut room[..2 * bytes.len()];
    write_hex(bytes, digits);
    out.push_str(unsafe { std::str::from_utf8_unchecked(digits) })
}

/// Writes the bytes in hexadecimal. Written as a loop over numbers, with no table, so that the built program takes
/// 16 bytes at once.
fn write_hex(bytes: &[u8], into: &mut [u8])
    requires { length into.old ≡ 2 * length bytes.now }
    ensures text { into.new ≡ flat_map hex_text bytes.now }
    ensures ascii { IsAscii into.new }
{
    for i in 0..bytes.len() {
        let byte = bytes[i];
        into[2 * i] = digit(byte / 16);
        into[2 * i + 1] = digit(byte % 16);
    }
}

/// A digit in lower-case hexadecimal.
#[inline(always)]
fn digit(number: u8) -> u8
    requires { number < 16 }
    ensures { result ≡ digit_glyph false number }
{
    if number < 10 {
        b'0' + number
    } else {
        b'a' - 10 + number
    }
}
