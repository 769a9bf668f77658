ghost use Rattle.std.specs.{List.find, Prelude.{◌≡◌, bytes_eq, map, option_map, string_bytes}};
ghost use Rattle.dr_commands.specs.Words.{asked_at, asked_behind, command_of, drill_of, folder_of, live_of, play_in, play_of, play_over, played, shards_of, store_of, verb_by, verbs, with_no_more};

use crate::live::{Rounds, rounds_of};
use crate::shards::{Sharding, sharding_of};
use dr_ages::Mode;
use dr_entry::Message;
use dr_literals::{key_word, number_word, option_members, option_of};
use dr_outcome::{Folder, Play};
use dr_words::Mask;

/// What a version has to be below.
const VERSION_LIMIT: u64 = 1 << 32;

/// What the words of a call ask for.
#[derive(Debug, Drop)]
pub enum Command<'a> {
    /// To play the script on the source.
    Play(Play<'a>),
    /// To simulate the script on the source, and say what the members store under a key, at a version.
    Store { key: Message, version: u64 },
    /// To simulate the script that this number makes, and say how its members ended.
    Drill { number: u64 },
    /// To lay the script on the source out in shards, run each of them, and say what becomes of it.
    Shards(Sharding),
    /// To run the script on the source while the messages of its members are pushed, in so many rounds, and say
    /// how many were pushed and delivered.
    Live(Rounds),
    /// To judge the report that stands on the source beside its script.
    Check,
}

/// The first word of a command, which says what is to be done.
#[derive(Clone, Copy, Debug)]
pub(crate) enum Verb {
    Sim,
    Run,
    Store,
    Drill,
    Shards,
    Live,
    Check,
}

/// How each verb is written.
const VERBS: [(&str, Verb); 7] = [
    ("sim", Verb::Sim),
    ("run", Verb::Run),
    ("store", Verb::Store),
    ("drill", Verb::Drill),
    ("shards", Verb::Shards),
    ("live", Verb::Live),
    ("check", Verb::Check),
];

/// What the words ask for, where they are those of a command.
pub(crate) fn command_of(words: &[String]) -> Option<Command<'_>>
    ensures { result ≡ command_of (map string_bytes words.now) }
{
    let (word, rest) = words.split_first()?;
    asked_behind(verb_of(word.as_str())?, rest)
}

/// The verb that a word is.
fn verb_of(word: &str) -> Option<Verb>
    ensures { result ≡ verb_by verbs word.now }
{
    verb_in(&VERBS, word)
}

/// The verb that a word is, by this table.
fn verb_in(table: &[(&str, Verb)], word: &str) -> Option<Verb>
    ensures { result ≡ verb_by (map (λ row. (row.0.now, row.1)) table.now) word.now }
{
    verb_beside(table, word)
}

/// The verb of the first row that has this word.
fn verb_beside(table: &[(&str, Verb)], word: &str) -> Option<Verb>
    ensures { result ≡ option_map (λ row. row.1) (find (λ row. bytes_eq row.0.now word.now) table.now) }
{
    table.iter().find(|row| row.0 == word).map(|row| row.1)
}

/// What the words behind a verb ask for.
fn asked_behind(verb: Verb, words: &[String]) -> Option<Command<'_>>
    ensures { result ≡ asked_behind verb (map string_bytes words.now) }
{
    match verb {
        Verb::Sim => play_of(Mode::Sim, words),
        Verb::Run => play_of(Mode::Run, words),
        Verb::Store => store_of(words),
        Verb::Drill => drill_of(words),
        Verb::Shards => shards_of(words),
        Verb::Live => live_of(words),
        Verb::Check => with_no_more(Some(Command::Check), words),
    }
}

/// What the words behind a mode ask for.
fn play_of(mode: Mode, words: &[String]) -> Option<Command<'_>>
    ensures { result ≡ play_of mode (map string_bytes words.now) }
{
    let (name, rest) = option_of("--logs", words)?;
    play_in(mode, name, rest)
}

/// What they ask for by the words behind the name of a folder, if there is one.
fn play_in<'a>(mode: Mode, name: Option<&'a str>, words: &'a [String]) -> Option<Command<'a>>
    ensures { result ≡ play_in mode (option_map (λ n. n.now) name.entry) (map string_bytes words.now) }
{
    let Some(name) = name else {
        return play_over(mode, None, words);
    };
    let (folder, rest) = folder_of(name, words)?;
    play_over(mode, Some(folder), rest)
}

/// What they ask for over a folder, if there is one, by the words behind what names that.
fn play_over<'a>(mode: Mode, folder: Option<Folder<'a>>, words: &'a [String]) -> Option<Command<'a>>
    ensures { result ≡ play_over mode folder.entry (map string_bytes words.now) }
{
    let Some((late, rest)) = option_members("--late", words) else {
        return None;
    };
    with_no_more(Some(played(mode, folder, late)), rest)
}

/// To play in a mode, over the logs in a folder if there is one, with these members late.
fn played<'a>(mode: Mode, folder: Option<Folder<'a>>, late: Mask) -> Command<'a>
    ensures { result ≡ played mode folder.entry late }
{
    Command::Play(Play { mode, folder, late })
}

/// The folder of this name, but for the logs that the words behind it name as missing, and the words behind
/// these.
fn folder_of<'a>(name: &'a str, words: &'a [String]) -> Option<(Folder<'a>, &'a [String])>
    ensures { option_map (λ found. (found.0, map string_bytes found.1.now)) result
        ≡ folder_of name.now (map string_bytes words.now) }
{
    let Some((missing, rest)) = option_members("--missing", words) else {
        return None;
    };
    Some((Folder { name, missing }, rest))
}

/// What the words behind `store` ask for: a key in hexadecimal, and a version in decimal.
fn store_of(words: &[String]) -> Option<Command<'_>>
    ensures { result ≡ store_of (map string_bytes words.now) }
{
    let (key, rest) = words.split_first()?;
    let (version, rest) = rest.split_first()?;
    let asked = asked_at(key_word(key.as_str())?, number_word(version.as_str())?);
    with_no_more(asked, rest)
}

/// To ask for a key at a version, where that is in range.
fn asked_at<'a>(key: Message, version: u64) -> Option<Command<'a>>
    ensures { result ≡ asked_at key version }
{
    (version < VERSION_LIMIT).then_some(Command::Store { key, version })
}

/// What the words behind `drill` ask for: a number in decimal.
fn drill_of(words: &[String]) -> Option<Command<'_>>
    ensures { result ≡ drill_of (map string_bytes words.now) }
{
    let (number, rest) = words.split_first()?;
    let number = number_word(number.as_str())?;
    with_no_more(Some(Command::Drill { number }), rest)
}

/// What the words behind `shards` ask for.
fn shards_of(words: &[String]) -> Option<Command<'_>>
    ensures { result ≡ shards_of (map string_bytes words.now) }
{
    Some(Command::Shards(sharding_of(words)?))
}

/// What the words behind `live` ask for.
fn live_of(words: &[String]) -> Option<Command<'_>>
    ensures { result ≡ live_of (map string_bytes words.now) }
{
    Some(Command::Live(rounds_of(words)?))
}

/// What is asked, where no word is left.
fn with_no_more<'a>(asked: Option<Command<'a>>, rest: &[String]) -> Option<Command<'a>>
    ensures { result ≡ with_no_more asked.entry (map string_bytes rest.now) }
{
    match rest {
        [] => asked,
        [_, ..] => None,
    }
}
