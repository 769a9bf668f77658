ghost use Rattle.std.specs.Prelude.{◌≡◌, map, option_map, string_bytes};
ghost use Rattle.dr_tools.specs.TraceWords.{asked_of, form_at, picture_at, window_of};

use dr_literals::{late_named, number_word};
use dr_words::Mask;

/// In which form a run is told.
#[derive(Clone, Copy, Debug, PartialEq, Eq)]
pub(crate) enum Form {
    /// A line for each event.
    Lines,
    /// A column for each member, and a row for each of its turns with news.
    Chart,
    /// A picture in the language SVG, of these turns.
    Picture { from: u64, to: u64 },
}

/// A picture of all turns.
const WHOLE: Form = Form::Picture {
    from: 0,
    to: u64::MAX,
};

/// What is to be told: in which form, and of a run in which these members are late.
#[derive(Clone, Copy, Debug, PartialEq, Eq)]
pub(crate) struct Asked {
    pub form: Form,
    pub late: Mask,
}

/// What the words of a call ask for, where they are those of one.
pub(crate) fn asked_of(words: &[String]) -> Option<Asked>
    ensures { result ≡ asked_of (map string_bytes words.now) }
{
    let (form, rest) = form_at(words);
    let late = late_named(rest)?;
    Some(Asked { form, late })
}

/// The form that the words begin with, and the words behind it.
fn form_at(words: &[String]) -> (Form, &[String])
    ensures { (result.0, map string_bytes result.1.now) ≡ form_at (map string_bytes words.now) }
{
    match words {
        [word, rest @ ..] if word.as_str() == "lines" => (Form::Lines, rest),
        [word, rest @ ..] if word.as_str() == "svg" => picture_at(rest),
        _ => (Form::Chart, words),
    }
}

/// The picture whose turns the words begin with, or one of all turns, and the words behind it.
fn picture_at(words: &[String]) -> (Form, &[String])
    ensures { (result.0, map string_bytes result.1.now) ≡ picture_at (map string_bytes words.now) }
{
    match words {
        [from, to, rest @ ..] => match window_of(from.as_str(), to.as_str()) {
            Some(picture) => (picture, rest),
            None => (WHOLE, words),
        },
        _ => (WHOLE, words),
    }
}

/// A picture of the turns from one to another.
fn window_of(from: &str, to: &str) -> Option<Form>
    ensures { result ≡ window_of from.now to.now }
{
    Some(Form::Picture {
        from: number_word(from)?,
        to: number_word(to)?,
    })
}
