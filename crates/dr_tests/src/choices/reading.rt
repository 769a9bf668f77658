//! Reads logs.
ghost use Rattle.std.specs.Prelude.{◌≡◌, IfOk, length, vec_len};

use anyhow::anyhow;
use dr_entry::{AgeVote, Entry, MAX_MEMBERS, Message, Seq, Value, Vote};
use dr_quorum::BorrowedLists;
use dr_restart::LogLists;
use std::alloc::Global;

/// The logs of the first members, but those of the missing.
pub(crate) fn lists_of(
    alloc: Global,
    members: u8,
    logs: &[String],
    missing: &str,
) -> anyhow::Result<Vec<Option<LogLists>>>
    ensures { IfOk result (λ lists. vec_len lists ≡ members) }
{
    let mut lists = Vec::new(alloc);
    for m in 0..members {
        lists.push(list_of(alloc, m, logs, missing)?)?;
    }
    Ok(lists)
}

/// The logs as they are handed in.
pub(crate) fn borrowed(
    alloc: Global,
    lists: &[Option<LogLists>],
) -> anyhow::Result<Vec<Option<BorrowedLists<'_>>>>
    ensures { IfOk result (λ borrowed. vec_len borrowed ≡ length lists.now) }
{
    let mut all = Vec::with_capacity(alloc, lists.len())?;
    for list in lists {
        all.push(borrowed_at(list))?;
    }
    Ok(all)
}

fn borrowed_at(list: &Option<LogLists>) -> Option<BorrowedLists<'_>> {
    match list {
        Some(log) => Some(BorrowedLists::new(
            log.entries.as_slice(),
            log.votes.as_slice(),
            log.age_votes.as_slice(),
        )),
        None => None,
    }
}

/// The log of a member, unless it is missing.
fn list_of(
    alloc: Global,
    member: u8,
    logs: &[String],
    missing: &str,
) -> anyhow::Result<Option<LogLists>> {
    let name = format!(in alloc; "{member}")?;
    if missing.contains(name.as_str()) {
        return Ok(None);
    }
    for log in logs {
        if let Some(words) = log.as_str().strip_prefix(name.as_str()) {
            return Ok(Some(log_of(alloc, words)?));
        }
    }
    Ok(Some(log_of(alloc, "")?))
}

/// The log on which these words stand.
fn log_of(alloc: Global, words: &str) -> anyhow::Result<LogLists> {
    let mut entries = Vec::new(alloc);
    let mut votes = Vec::new(alloc);
    let mut age_votes = Vec::new(alloc);
    for word in words.split_whitespace() {
        if let Some(view) = word.strip_prefix('v') {
            entries.push(view_of(view)?)?;
        } else if let Some(message) = word.strip_prefix('m') {
            entries.push(message_of(message)?)?;
        } else if let Some(vote) = word.strip_prefix('b') {
            votes.push(vote_of(vote)?)?;
        } else if let Some(vote) = word.strip_prefix('a') {
            age_votes.push(age_vote_of(vote)?)?;
        } else {
            return Err(anyhow!("{word} is nothing on a log"));
        }
    }
    Ok(LogLists {
        entries: Seq::of(entries),
        votes: Seq::of(votes),
        age_votes: Seq::of(age_votes),
    })
}

fn view_of(word: &str) -> anyhow::Result<Entry> {
    let mut parts = word.split('.');
    Ok(Entry::View {
        age: parts.next().unwrap_or("").parse()?,
        number: parts.next().unwrap_or("").parse()?,
        members: mask_of(parts.next().unwrap_or(""))?,
    })
}

fn message_of(word: &str) -> anyhow::Result<Entry> {
    let mut parts = word.split('.');
    let sender = parts.next().unwrap_or("").parse()?;
    let index = parts.next().unwrap_or("").parse()?;
    let text = parts.next().unwrap_or("");
    match Message::of(text.as_bytes()) {
        Some(bytes) => Ok(Entry::Msg {
            sender,
            index,
            bytes,
        }),
        None => Err(anyhow!("{text} is no message")),
    }
}

fn vote_of(word: &str) -> anyhow::Result<Vote> {
    let mut parts = word.split('.');
    Ok(Vote {
        age: parts.next().unwrap_or("").parse()?,
        view: parts.next().unwrap_or("").parse()?,
        ballot: parts.next().unwrap_or("").parse()?,
        members: parts.next().unwrap_or("").parse()?,
        value: Value {
            leavers: mask_of(parts.next().unwrap_or(""))?,
            trim: [0; MAX_MEMBERS],
        },
    })
}

fn age_vote_of(word: &str) -> anyhow::Result<AgeVote> {
    let mut parts = word.split('.');
    Ok(AgeVote {
        age: parts.next().unwrap_or("").parse()?,
        members: mask_of(parts.next().unwrap_or(""))?,
    })
}

/// The mask of members that are listed as digits.
pub(crate) fn mask_of(digits: &str) -> anyhow::Result<u16> {
    let mut mask = 0;
    for digit in digits.bytes() {
        if !digit.is_ascii_digit() {
            return Err(anyhow!("{digits} are no members"));
        }
        mask |= 1 << (digit - b'0');
    }
    Ok(mask)
}
