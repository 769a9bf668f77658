ghost use Rattle.std.specs.Prelude.{◌≡◌, map, option_map, string_bytes};
ghost use Rattle.dr_tools.specs.SummaryWords.{asked_of, wording_at};

use dr_literals::late_named;
use dr_words::Mask;

/// In which way a run is summed up.
#[derive(Clone, Copy, Debug, PartialEq, Eq)]
pub(crate) enum Wording {
    /// For people: a table for each age.
    People,
    /// For programs: a JSON object.
    Programs,
}

/// What is to be summed up: in which way, and a run in which these members are late.
#[derive(Clone, Copy, Debug, PartialEq, Eq)]
pub(crate) struct Asked {
    pub wording: Wording,
    pub late: Mask,
}

/// What the words of a call ask for, where they are those of one.
pub(crate) fn asked_of(words: &[String]) -> Option<Asked>
    ensures { result ≡ asked_of (map string_bytes words.now) }
{
    let (wording, rest) = wording_at(words);
    let late = late_named(rest)?;
    Some(Asked { wording, late })
}

/// The wording that the words begin with, and the words behind it.
fn wording_at(words: &[String]) -> (Wording, &[String])
    ensures { (result.0, map string_bytes result.1.now) ≡ wording_at (map string_bytes words.now) }
{
    match words {
        [word, rest @ ..] if word.as_str() == "json" => (Wording::Programs, rest),
        _ => (Wording::People, words),
    }
}
