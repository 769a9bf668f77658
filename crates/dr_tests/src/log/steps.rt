//! What is done with a log, by words.
ghost use Rattle.std.specs.Prelude.{◌<◌, IfOk, IfSome};
ghost use Rattle.dr_entry.specs.Spelling.{IsValid, IsValidEntry};

use anyhow::anyhow;
use dr_disk::MemoryDisk;
use dr_entry::{Entry, Record, decode};
use dr_log::{Log, LogFault};
use dr_log_bytes::may_follow;
use std::alloc::{AllocError, Global};
use std::fmt::Write;
use std::str::SplitWhitespace;

/// Mounts the log on a disk, does what words ask for, and appends what the log answers and what is on it. The disk
/// is given back.
pub(crate) fn done_on(
    alloc: Global,
    disk: MemoryDisk,
    limit: u64,
    words: SplitWhitespace<'_>,
    out: &mut String,
) -> anyhow::Result<MemoryDisk> {
    match Log::mount(alloc, disk, limit.max(9)) {
        Ok(mut log) => {
            do_all(alloc, &mut log, words, out)?;
            push_log(out, &log)?;
            Ok(log.unmount())
        }
        Err(fault) => {
            write!(out, " {:?}", fault.why)?;
            Ok(fault.disk)
        }
    }
}

fn do_all(
    alloc: Global,
    log: &mut Log<MemoryDisk>,
    words: SplitWhitespace<'_>,
    out: &mut String,
) -> anyhow::Result<()> {
    for word in words {
        let (word, count) = word.split_once('*').unwrap_or((word, "1"));
        let count = count.parse()?;
        log.reserve(count, count)?;
        let mut answer = Ok(());
        for _ in 0..count {
            answer = take(alloc, log, word)?;
        }
        write!(out, " {answer:?} {}", log.len())?;
    }
    Ok(())
}

/// Does what a word asks for, and answers what the log does.
#[tactic(auto, using(dr_log::proofs::Growing::one_kind))]
fn take(
    alloc: Global,
    log: &mut Log<MemoryDisk>,
    word: &str,
) -> anyhow::Result<Result<(), LogFault>> {
    log.reserve(3, 1)?;
    if log.failed() {
        return Ok(Err(LogFault::DiskFault));
    }
    if let Some((age, members)) = vote_of(word) {
        return Ok(log.vote_age(age, members));
    }
    if let Some((first, rest)) = word.split_once('+') {
        let (second, last) = rest.split_once('+').unwrap_or((rest, ""));
        let first = [entry_of(alloc, first)?, entry_of(alloc, second)?];
        return Ok(log.append_entries(&first, &entry_of(alloc, last)?));
    }
    let record = record_of(alloc, word)?;
    if !may_follow(log.is_newer(), log.entries().len(), &record) {
        return Err(anyhow!("{word} may not stand there"));
    }
    Ok(log.append(&record))
}

/// The age and the members, of whom there are some, of a word that votes for an age.
fn vote_of(word: &str) -> Option<(u16, u16)>
    ensures { IfSome result (λ vote. 0 < vote.1) }
{
    let (age, members) = vote_words(word)?;
    let age = number_of(age)?;
    let members = number_of(members)?;
    if members == 0 {
        return None;
    }
    Some((age, members))
}

/// The words for the age and the members of a word that votes for an age.
fn vote_words(word: &str) -> Option<(&str, &str)> {
    word.strip_prefix("vote=")?.split_once(',')
}

/// The number that a word spells.
fn number_of(word: &str) -> Option<u16> {
    word.parse().ok()
}

/// The entry that a word spells.
fn entry_of(alloc: Global, word: &str) -> anyhow::Result<Entry>
    ensures { IfOk result IsValidEntry }
{
    match record_of(alloc, word)? {
        Record::Entry(entry) => Ok(entry),
        _ => Err(anyhow!("{word} is no entry")),
    }
}

/// The record that a word spells.
fn record_of(alloc: Global, word: &str) -> anyhow::Result<Record>
    ensures { IfOk result IsValid }
{
    let bytes = hex::decode(alloc, word)?;
    match decode(bytes.as_slice()) {
        Ok((record, len)) if len == bytes.len() => Ok(record),
        Ok(_) => Err(anyhow!("{word} is more than a record")),
        Err(fault) => Err(anyhow!("{fault}")),
    }
}

/// Appends what is on a log. Of equal entries that stand behind one another one is printed.
fn push_log(out: &mut String, log: &Log<MemoryDisk>) -> Result<(), AllocError> {
    let format = if log.is_newer() { 2 } else { 1 };
    let state = if log.failed() { ", failed" } else { "" };
    let count = log.entries().len();
    write!(
        out,
        "\n  format {format}{state}, length {}, entries {count}",
        log.len()
    )?;
    let mut last = None;
    for entry in log.entries() {
        if last != Some(entry) {
            write!(out, " {entry:?}")?;
        }
        last = Some(entry);
    }
    write!(
        out,
        ", votes {:?}, age votes {:?}",
        log.votes(),
        log.age_votes()
    )
}
