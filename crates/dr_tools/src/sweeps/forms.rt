//! Which texts are outcomes.
ghost use Rattle.std.specs.{List.{list_all, slice_split}, Prelude.{◌≡◌, ◌==◌, IfOk, Some, false, string_bytes}};
ghost use Rattle.dr_literals.specs.Literals.{is_digit};
ghost use Rattle.dr_tools.specs.OutcomeForms.{are_ages, are_ends, behind_word, is_end, is_last, is_numbered, is_outcome, without_blanks};

use std::alloc::{AllocError, Global};

/// A text without its blanks.
pub(crate) fn without_blanks(alloc: Global, text: &str) -> Result<String, AllocError>
    ensures { IfOk result (λ out. string_bytes out ≡ without_blanks text.now) }
{
    let mut out = String::new(alloc);
    for word in text.split(' ') {
        out.push_str(word)?;
    }
    Ok(out)
}

/// Whether a line without blanks is an outcome of so many members and ages, or the last line of a run.
pub(crate) fn is_outcome(members: u8, ages: u8, line: &str) -> bool
    ensures { result ≡ is_outcome members ages line.now }
{
    match line.split_once(':') {
        Some((ends, last)) => are_ages(members, ages, ends) && is_last(last),
        None => is_last(line),
    }
}

/// Whether a text tells how so many members end in each of so many ages.
fn are_ages(members: u8, ages: u8, text: &str) -> bool
    ensures { result ≡ are_ages members ages (slice_split (λ byte. byte == 124) text.now) }
{
    let mut left = ages;
    for age in text.split('|') {
        if left == 0 {
            return false;
        }
        if !are_ends(members, age) {
            return false;
        }
        left -= 1;
    }
    left == 0
}

/// Whether a text tells how so many members end in an age.
fn are_ends(members: u8, text: &str) -> bool
    ensures { result
        ≡ are_ends (Some (false, members)) (slice_split (λ byte. byte == 44) text.now) }
{
    let mut state = (false, members);
    for word in text.split(',') {
        match behind_word(state, word) {
            Some(next) => state = next,
            None => return false,
        }
    }
    state.1 == 0
}

/// Behind a word that may stand there: whether members of a list may follow, and how many members are left whose ends
/// do. Before it they are these.
fn behind_word(state: (bool, u8), word: &str) -> Option<(bool, u8)>
    ensures { result ≡ behind_word state.0 state.1 word.now }
{
    let (lists, left) = state;
    if is_numbered("", word) {
        return if lists { Some((lists, left)) } else { None };
    }
    if 0 < left && is_end(word) {
        Some((is_numbered("nomajority", word), left - 1))
    } else {
        None
    }
}

/// Whether a word tells how a member ends.
fn is_end(word: &str) -> bool
    ensures { result ≡ is_end word.now }
{
    word == "done"
        || word == "crashed"
        || is_numbered("spent", word)
        || is_numbered("suspected", word)
        || is_numbered("excluded", word)
        || is_numbered("nomajority", word)
}

/// Whether a word is this one with a number behind it.
fn is_numbered(front: &str, word: &str) -> bool
    ensures { result ≡ is_numbered front.now word.now }
{
    let (front, word) = (front.as_bytes(), word.as_bytes());
    if word.len() <= front.len() {
        return false;
    }
    let (head, digits) = word.split_at(front.len());
    if head != front {
        return false;
    }
    are_digits(digits)
}

fn are_digits(bytes: &[u8]) -> bool
    ensures { result ≡ list_all is_digit bytes.now }
{
    bytes.iter().all(|byte| byte.is_ascii_digit())
}

/// Whether a line without blanks is the last one of a run.
fn is_last(line: &str) -> bool
    ensures { result ≡ is_last line.now }
{
    line == "ok\n" || line == "unfinished\n" || line == "nomajority\n"
}
