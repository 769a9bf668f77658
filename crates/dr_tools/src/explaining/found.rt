use crate::explaining::repeats::string_end;
use serde_json::Value;
use std::str::from_utf8;

/// A value that was found in a text, and where it begins there. Nothing, where there is none.
#[derive(Clone, Copy)]
pub(crate) struct Found<'a> {
    pub value: Option<&'a Value>,
    text: &'a [u8],
    at: Option<usize>,
}

impl<'a> Found<'a> {
    /// The value of a whole text.
    pub(crate) fn whole(text: &'a [u8], value: &'a Value) -> Found<'a> {
        Found {
            value: Some(value),
            text,
            at: Some(0),
        }
    }

    /// The value at a path within it.
    pub(crate) fn at_path(self, path: &str) -> Found<'a> {
        let mut found = self;
        for name in path.split('/') {
            if !name.is_empty() {
                found = found.part(name);
            }
        }
        found
    }

    /// Its value under this key, or its element with the number that the name writes.
    pub(crate) fn part(self, name: &str) -> Found<'a> {
        match number_of(name) {
            Some(number) => self.nth(number),
            None => Found {
                value: self.value.and_then(|value| value.get(name)),
                text: self.text,
                at: place_of_key(self.text, self.at, name),
            },
        }
    }

    /// Its element with this number.
    pub(crate) fn nth(self, number: usize) -> Found<'a> {
        Found {
            value: self.value.and_then(|value| value.get(number)),
            text: self.text,
            at: place_of_element(self.text, self.at, number),
        }
    }

    /// A number as it is written.
    pub(crate) fn written(self) -> Option<&'a str> {
        let rest = self.text.get(self.at?..)?;
        let blanks = rest
            .iter()
            .take_while(|byte| byte.is_ascii_whitespace())
            .count();
        let rest = rest.get(blanks..)?;
        let length = rest.iter().take_while(|byte| is_of_number(**byte)).count();
        from_utf8(rest.get(..length)?).ok()
    }
}

/// The number that a name writes, if it is one.
fn number_of(name: &str) -> Option<usize> {
    usize::from_str_radix(name, 10).ok()
}

/// Whether a byte can stand in a number.
fn is_of_number(byte: u8) -> bool {
    byte.is_ascii_digit() || matches!(byte, b'-' | b'+' | b'.' | b'e' | b'E')
}

/// Where the element with this number begins, of the array that begins here.
fn place_of_element(text: &[u8], from: Option<usize>, number: usize) -> Option<usize> {
    let (mut depth, mut commas) = (0usize, 0usize);
    let mut at = from?;
    while at < text.len() {
        match text[at] {
            b'{' | b'[' => depth = depth.saturating_add(1),
            b'}' | b']' => depth = depth.saturating_sub(1),
            b',' if depth == 1 => commas = commas.saturating_add(1),
            b'"' => at = string_end(text, at + 1),
            _ => {}
        }
        at = at.saturating_add(1);
        if depth == 1 && commas == number {
            return Some(at);
        }
    }
    None
}

/// Where the value under this key begins, of the object that begins here; the last one, where the key stands
/// twice.
fn place_of_key(text: &[u8], from: Option<usize>, key: &str) -> Option<usize> {
    let mut found = None;
    let mut depth = 0usize;
    let mut at = from?;
    while at < text.len() {
        match text[at] {
            b'{' | b'[' => depth = depth.saturating_add(1),
            b'}' | b']' if depth <= 1 => return found,
            b'}' | b']' => depth = depth.saturating_sub(1),
            b'"' => {
                let end = string_end(text, at + 1);
                if depth == 1 && text.get(at + 1..end) == Some(key.as_bytes()) {
                    found = behind_colon(text, end).or(found);
                }
                at = end;
            }
            _ => {}
        }
        at = at.saturating_add(1);
    }
    found
}

/// What stands behind the colon of a key whose closing quote is here.
fn behind_colon(text: &[u8], quote: usize) -> Option<usize> {
    let from = quote.saturating_add(1);
    let rest = text.get(from..)?;
    let blanks = rest
        .iter()
        .take_while(|byte| byte.is_ascii_whitespace())
        .count();
    if rest.get(blanks) == Some(&b':') {
        Some(from.saturating_add(blanks).saturating_add(1))
    } else {
        None
    }
}
