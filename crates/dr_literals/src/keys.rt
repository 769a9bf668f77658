ghost use Rattle.std.specs.Prelude.{◌≡◌, ◌<◌, ◌∷◌, [], IfSome, Some, option_map};
ghost use Rattle.dr_literals.specs.Literals.{hex_byte, hex_digit, key_word};

use arrayvec::ArrayVec;
use dr_entry::Message;

/// The most bytes of a key.
const MAX_KEY: usize = 62;

/// The key that a word writes in hexadecimal, with digits of lower case.
pub fn key_word(word: &str) -> Option<Message>
    ensures { result ≡ key_word word.now }
{
    let mut left = word.as_bytes();
    if left.len() < 2 || left.len() > 2 * MAX_KEY {
        return None;
    }
    let mut key: ArrayVec<u8, MAX_KEY> = ArrayVec::new();
    while left.len() > 1 {
        let (pair, rest) = left.split_at(2);
        let byte = hex_byte(pair[0], pair[1])?;
        key.push(byte);
        left = rest;
    }
    if !left.is_empty() {
        return None;
    }
    Message::of(key.as_slice())
}

/// The byte that two hexadecimal digits write.
fn hex_byte(high: u8, low: u8) -> Option<u8>
    ensures { option_map (λ byte. byte ∷ []) result ≡ hex_byte (hex_digit high) (hex_digit low) (Some []) }
{
    let high = hex_digit(high)?;
    let low = hex_digit(low)?;
    Some(16 * high + low)
}

/// The value of a hexadecimal digit, of lower case.
fn hex_digit(digit: u8) -> Option<u8>
    ensures value { result ≡ hex_digit digit }
    ensures bound { IfSome result (λ x. x < 16) }
{
    match digit {
        b'0'..=b'9' => Some(digit - b'0'),
        b'a'..=b'f' => Some(digit - b'a' + 10),
        _ => None,
    }
}
