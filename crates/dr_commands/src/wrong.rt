//! Which of a call's words is wrong, and what was wanted, in words.

use crate::words::command_of;
use dr_literals::{option_members, option_of};
use std::alloc::{AllocError, Global};
use std::fmt::Write;

/// What is said of words behind the usage line.
///
/// # Errors
///
/// Want of memory alone.
pub fn wrong_words(alloc: Global, words: &[String]) -> Result<String, AllocError> {
    let mut text = String::new(alloc);
    if command_of(words).is_some() {
        text.push_str("somebody has to take part who isn't late")?;
        return Ok(text);
    }
    match words {
        [] => text.push_str(
            "a first word was wanted, of UTF-8: sim, run, store, drill, shards, live or check",
        )?,
        [word, rest @ ..] => push_behind(&mut text, word.as_str(), rest)?,
    }
    Ok(text)
}

/// Appends what was wanted behind a first word.
fn push_behind(out: &mut String, word: &str, rest: &[String]) -> Result<(), AllocError> {
    match word {
        "sim" | "run" => push_option(out, rest),
        "store" => out.push_str(
            "behind store a key in hexadecimal was wanted, and a version below 4294967296",
        ),
        "drill" => out.push_str("behind drill a number below 18446744073709551616 was wanted"),
        "shards" => out.push_str(
            "behind shards a number from 1 to 16 was wanted, and then run or nothing",
        ),
        "live" => out.push_str("behind live a number from 0 to 15 was wanted"),
        "check" => out.push_str("behind check no word was wanted"),
        _ => write!(
            out,
            "{word:?} was not wanted: sim, run, store, drill, shards, live or check comes first"
        ),
    }
}

/// Appends which of the options of a run is wrong.
fn push_option(out: &mut String, words: &[String]) -> Result<(), AllocError> {
    let Some((folder, rest)) = option_of("--logs", words) else {
        return out.push_str("behind --logs a folder was wanted that begins with no dash");
    };
    let rest = match folder {
        Some(_) => match option_members("--missing", rest) {
            Some((_, rest)) => rest,
            None => return out.push_str(
                "behind --missing members were wanted, ascending with commas, as 0,3",
            ),
        },
        None => rest,
    };
    match option_members("--late", rest) {
        None => out.push_str("behind --late members were wanted, ascending with commas, as 0,3"),
        Some((_, [word, ..])) => write!(
            out,
            "{word:?} was not wanted there: --logs FOLDER comes first, then --missing L, then --late L"
        ),
        Some(_) => Ok(()),
    }
}
