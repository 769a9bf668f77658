//! What is most likely wrong where a text is no JSON.
ghost use Rattle.std.specs.Prelude.{◌<◌, length};

use crate::explaining::repeats::string_end;

/// Quotes that some languages and editors have in place of the double one.
const OTHER_QUOTES: [&str; 6] = ["'", "`", "\u{2018}", "\u{2019}", "\u{201c}", "\u{201d}"];

/// What stands before a place up to which a text is JSON. A byte is 0 where there is none.
#[derive(Clone, Copy)]
struct Before {
    /// The last byte that isn't blank; of a string its quote.
    last: u8,
    /// The last bracket, comma or colon.
    mark: u8,
    /// How many arrays and objects are open.
    depth: usize,
    /// Which of the innermost 128 of them are objects: the lowest bit is that of the innermost.
    objects: u128,
}

impl Before {
    /// What stands before the first byte.
    fn first() -> Before {
        Before {
            last: 0,
            mark: 0,
            depth: 0,
            objects: 0,
        }
    }

    /// What stands before the end of this text.
    fn end_of(text: &[u8]) -> Before {
        let mut before = Before::first();
        let mut at = 0;
        while at < text.len() {
            at = before.step(text, at);
        }
        before
    }

    /// Takes note of what stands at this place, a string or a byte, and answers the place behind it.
    fn step(&mut self, text: &[u8], at: usize) -> usize
        requires { at < length text.now }
        ensures { at < result }
    {
        let byte = text[at];
        self.note(byte);
        let end = if byte == b'"' {
            string_end(text, at + 1)
        } else {
            at
        };
        end + 1
    }

    /// Takes note of a byte that stands behind it, of a string the quote.
    fn note(&mut self, byte: u8) {
        match byte {
            b'{' | b'[' => {
                self.depth = self.depth.saturating_add(1);
                self.objects = self.objects << 1 | u128::from(byte == b'{');
            }
            b'}' | b']' => {
                self.depth = self.depth.saturating_sub(1);
                self.objects >>= 1;
            }
            _ => {}
        }
        if matches!(byte, b'{' | b'[' | b'}' | b']' | b',' | b':') {
            self.mark = byte;
        }
        if !byte.is_ascii_whitespace() {
            self.last = byte;
        }
    }

    /// Whether what was opened last and is open is an object.
    fn is_in_object(self) -> bool {
        self.depth > 0 && self.objects & 1 == 1
    }

    /// Whether it is an array.
    fn is_in_array(self) -> bool {
        self.depth > 0 && self.objects & 1 == 0
    }

    /// Whether a value may end with the last byte.
    fn ends_value(self) -> bool {
        self.last.is_ascii_alphanumeric() || matches!(self.last, b'"' | b']' | b'}')
    }

    /// Whether what stands behind the last mark is a key.
    fn is_for_key(self) -> bool {
        self.is_in_object() && matches!(self.mark, b'{' | b',')
    }

    /// Whether this is a bracket that closes another one than is open.
    fn is_misfit(self, byte: u8) -> bool {
        byte == b']' && self.is_in_object() || byte == b'}' && self.is_in_array()
    }

    /// What is missing between a value that ends here and what stands behind it.
    fn missing(self) -> &'static str {
        if self.depth == 0 {
            "nothing may stand behind the whole value"
        } else if self.is_for_key() {
            "a colon is missing before this"
        } else {
            "a comma is missing before this"
        }
    }
}

/// Where a bracket first closes another one than is open.
pub(crate) fn first_misfit(text: &[u8]) -> Option<usize> {
    let mut before = Before::first();
    let mut at = 0;
    while at < text.len() {
        if before.is_misfit(text[at]) {
            return Some(at);
        }
        at = before.step(text, at);
    }
    None
}

/// What is most likely wrong at the byte at which a text is no JSON, where that can be told.
pub(crate) fn hint_at(text: &[u8], at: usize) -> Option<&'static str> {
    let byte = *text.get(at)?;
    let before = Before::end_of(text.get(..at)?);
    match byte {
        _ if is_other_quote(text, at) => Some("keys and texts stand in double quotes"),
        0x80.. => None,
        b'/' | b'#' => Some("JSON has no comments"),
        b']' if before.last == b',' => Some("no comma before ]"),
        b'}' if before.last == b',' => Some("no comma before }"),
        b']' if before.is_in_object() => Some("a { is still open"),
        b'}' if before.is_in_array() => Some("a [ is still open"),
        b',' if !before.ends_value() => {
            Some("one comma too many, or a value is missing before it")
        }
        _ if before.depth == 0 && before.ends_value() => Some(before.missing()),
        b':' if before.is_for_key() && before.last != b'"' => Some("a key stands in double quotes"),
        _ if !begins_value(byte) => None,
        _ if before.ends_value() => Some(before.missing()),
        b'"' if is_broken(text, at) => Some("this text doesn't end in its line"),
        b'a'..=b'z' | b'A'..=b'Z' if before.is_for_key() => Some("a key stands in double quotes"),
        _ => None,
    }
}

/// Whether a quote stands here that is none of JSON.
fn is_other_quote(text: &[u8], at: usize) -> bool {
    let rest = text.get(at..).unwrap_or(&[]);
    OTHER_QUOTES
        .iter()
        .any(|quote| rest.starts_with(quote.as_bytes()))
}

/// Whether a value may begin with this byte.
fn begins_value(byte: u8) -> bool {
    byte.is_ascii_alphanumeric() || matches!(byte, b'"' | b'[' | b'{' | b'-')
}

/// Whether a line ends in the string whose quote is here.
fn is_broken(text: &[u8], quote: usize) -> bool {
    let Some(rest) = text.get(quote..) else {
        return false;
    };
    rest.iter()
        .skip(1)
        .take_while(|byte| **byte != b'"')
        .any(|byte| *byte == b'\n')
}
