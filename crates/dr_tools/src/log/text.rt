ghost use Rattle.std.specs.{Fmt.decimal, List.concat};
ghost use Rattle.std.specs.Prelude.{◌≡◌, ◌+◌, ◌^◌, ◌<◌, ◌++◌, ◌∷◌, [], IfOk, OnOk, codes, string_bytes};
ghost use Rattle.dr_entry.specs.Spelling.{Fits, IsValid};
ghost use Rattle.dr_text.specs.Report.{entry_text};
ghost use Rattle.dr_tools.specs.LogText.{IsSaid, IsTold, age_vote_text, closed_line, cut_text, damaged_line, format_behind, number_behind, record_text};

use crate::log::votes::push_vote;
use dr_entry::{AgeVote, Entry, Record};
use dr_intake::{Answer, DONE, LOGS_REFUSED};
use dr_log_bytes::{Block, FIRST_GATE, block_at, format_of, may_follow};
use dr_text::{Last, push_entry, push_mask};
use std::alloc::{AllocError, Global};
use std::fmt::Write;

/// The most bytes that a log has.
pub(crate) const LONGEST_LOG: usize = 2_147_483_648;

/// A file that is no longer is a log that is being made.
const EMPTY: usize = 9;

/// What is said of these bytes: that they are too many for a log, or what they are.
pub(crate) fn answer_for(alloc: Global, bytes: &[u8]) -> Result<Answer, AllocError>
    ensures { IfOk result (λ log. IsSaid bytes.now (string_bytes log.text) log.status) }
{
    if bytes.len() > LONGEST_LOG {
        return Answer::of_line(alloc, &Last::TooLong);
    }
    log_text(alloc, bytes)
}

/// What is printed of a log of these bytes: a line for each record, and one for its end.
#[tactic(auto, using(crate::proofs::LogLines::begun_printed, crate::proofs::LogLines::next_printed))]
fn log_text(alloc: Global, bytes: &[u8]) -> Result<Answer, AllocError>
    ensures { IfOk result (λ log. IsTold bytes.now (string_bytes log.text) log.status) }
{
    let mut text = String::new(alloc);
    if bytes.len() <= EMPTY {
        text.push_str("empty\n")?;
        return Ok(Answer { text, status: DONE });
    }
    let Some(format) = format_of(bytes) else {
        return damaged(text, 0);
    };
    let mut at = FIRST_GATE;
    let mut number = 0;
    let mut newer = format;
    loop {
        match block_at(bytes, at) {
            Block::Record(record, len) => {
                if !may_follow(newer, number, &record) {
                    return damaged(text, at);
                }
                push_record(&mut text, at + 1, number, &record)?;
                number = number_behind(number, &record);
                newer = format_behind(newer, &record);
                at += 1 + len;
            }
            Block::Closed => return closed(text, at, bytes.len() - (at + 1)),
            Block::Broken => return damaged(text, at),
        }
    }
}

/// The text with the line of a closed gate behind it, behind which so many bytes stand.
fn closed(text: String, at: usize, rest: usize) -> Result<Answer, AllocError>
    ensures text { IfOk result
        (λ log. string_bytes log.text ≡ string_bytes text ++ closed_line at rest) }
    ensures status { IfOk result (λ log. log.status ≡ 0) }
{
    let mut text = text;
    if rest == 0 {
        writeln!(text, "closed at {at}")?;
    } else {
        writeln!(text, "closed at {at}, bytes behind it: {rest}")?;
    }
    Ok(Answer { text, status: DONE })
}

/// The text with the line of damage behind it.
fn damaged(text: String, at: usize) -> Result<Answer, AllocError>
    ensures text { IfOk result (λ log. string_bytes log.text ≡ string_bytes text ++ damaged_line at) }
    ensures status { IfOk result (λ log. log.status ≡ 7) }
{
    let mut text = text;
    writeln!(text, "damaged at {at}")?;
    Ok(Answer {
        text,
        status: LOGS_REFUSED,
    })
}

/// Appends the line of a record at this place, before which so many entries stand.
fn push_record(out: &mut String, at: usize, number: usize, r: &Record) -> Result<(), AllocError>
    requires valid { IsValid r.now }
    requires fits { Fits r.now }
    ensures { OnOk result
        (string_bytes out.new ≡ string_bytes out.old ++ (decimal at ++ record_text number r.now)) }
{
    write!(out, "{at}")?;
    match r {
        Record::Entry(entry) => push_numbered(out, number, entry),
        Record::Vote(vote) => push_vote(out, vote),
        Record::AgeVote(vote) => push_age_vote(out, vote),
        Record::Cut { keep } => push_cut(out, *keep),
        Record::Upgrade => out.push_str(" upgrade\n"),
    }
}

fn push_age_vote(out: &mut String, vote: &AgeVote) -> Result<(), AllocError>
    ensures { OnOk result (string_bytes out.new ≡ string_bytes out.old ++ age_vote_text vote.now) }
{
    let age = vote.age;
    write!(out, " age vote  age {age} members ")?;
    push_mask(out, vote.members)?;
    out.push_str("\n")
}

fn push_cut(out: &mut String, keep: u32) -> Result<(), AllocError>
    ensures { OnOk result (string_bytes out.new ≡ string_bytes out.old ++ cut_text keep) }
{
    writeln!(out, " cut   keeps {keep}")
}

fn push_numbered(out: &mut String, number: usize, entry: &Entry) -> Result<(), AllocError>
    ensures { OnOk result (string_bytes out.new ≡ string_bytes out.old
        ++ concat (codes " entry " ∷ decimal number ∷ entry_text entry.now ∷ [])) }
{
    write!(out, " entry {number}")?;
    push_entry(out, entry)
}

/// How many entries stand before what is behind a record.
fn number_behind(number: usize, r: &Record) -> usize
    requires { number + 1 < 2 ^ 64 }
    ensures { result ≡ number_behind number r.now }
{
    match r {
        Record::Entry(_) => number + 1,
        Record::Cut { keep } => *keep as usize,
        Record::Vote(_) | Record::AgeVote(_) | Record::Upgrade => number,
    }
}

/// Whether what is behind a record is of the newer format.
fn format_behind(newer: bool, r: &Record) -> bool
    ensures { result ≡ format_behind newer r.now }
{
    match r {
        Record::Upgrade => true,
        Record::Entry(_) | Record::Vote(_) | Record::AgeVote(_) | Record::Cut { .. } => newer,
    }
}
