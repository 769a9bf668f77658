ghost use Rattle.std.specs.Prelude.{◌≡◌, map, option_map, string_bytes};
ghost use Rattle.dr_literals.specs.Options.{behind, if_last, late_named, members_in, option_members, option_of, value_in, value_word};

use crate::masks::mask_word;
use dr_words::Mask;

/// Who is late by these words, which are `--late` with its members, or none: nobody then.
pub fn late_named(words: &[String]) -> Option<Mask>
    ensures { result ≡ late_named (map string_bytes words.now) }
{
    match option_members("--late", words) {
        Some((late, rest)) => if_last(late, rest),
        None => None,
    }
}

/// What was found, where no word is left behind it.
fn if_last(found: Mask, words: &[String]) -> Option<Mask>
    ensures { result ≡ if_last found (map string_bytes words.now) }
{
    match words {
        [] => Some(found),
        [_, ..] => None,
    }
}

/// The members that the option with this name lists, if the words begin with one, and the words behind it.
pub fn option_members<'a>(name: &str, words: &'a [String]) -> Option<(Mask, &'a [String])>
    ensures { option_map (λ found. (found.0, map string_bytes found.1.now)) result
        ≡ option_members name.now (map string_bytes words.now) }
{
    let (list, rest) = option_of(name, words)?;
    let mask = members_in(list)?;
    Some((mask, rest))
}

/// The members of a list, and nobody where there is none.
fn members_in(list: Option<&str>) -> Option<Mask>
    ensures { result ≡ members_in (option_map (λ l. l.now) list.entry) }
{
    match list {
        Some(list) => mask_word(list),
        None => Some(Mask::empty()),
    }
}

/// The value of the option with this name, if the words begin with one, and the words behind it. Nothing
/// where the option has no value.
pub fn option_of<'a>(name: &str, words: &'a [String]) -> Option<(Option<&'a str>, &'a [String])>
    ensures { option_map
        (λ found. (option_map (λ value. value.now) found.0, map string_bytes found.1.now)) result
        ≡ option_of name.now (map string_bytes words.now) }
{
    match words {
        [word, value, rest @ ..] if word.as_str() == name => {
            Some((Some(value_word(value.as_str())?), rest))
        }
        [word, rest @ ..] => match value_in(name, word.as_str()) {
            Some(value) => Some((Some(value), rest)),
            None => Some((None, words)),
        },
        [] => Some((None, words)),
    }
}

/// The value that a word of its own is: one that is not empty and does not begin with a dash.
pub fn value_word(word: &str) -> Option<&str>
    ensures { option_map (λ value. value.now) result ≡ value_word word.now }
{
    (!word.is_empty() && !word.starts_with('-')).then_some(word)
}

/// What stands in a word behind the name and `=`, where that is something.
fn value_in<'a>(name: &str, word: &'a str) -> Option<&'a str>
    ensures { option_map (λ value. value.now) result ≡ value_in name.now word.now }
{
    let value = behind("=", behind(name, word)?)?;
    (!value.is_empty()).then_some(value)
}

/// What stands behind this front of a word, where the word begins with it.
fn behind<'a>(front: &str, word: &'a str) -> Option<&'a str>
    ensures { option_map (λ rest. rest.now) result ≡ behind front.now word.now }
{
    word.strip_prefix(front)
}
