//! Reads a line of a report's text: the fields are read, the line is printed anew, and compared.
//!
//! So only one direction has to be shown of each field.
ghost use Rattle.std.specs.Prelude.{◌≡◌, ◌↔◌, ◌+◌, ◌<◌, ◌≤◌, length, codes, slice_index, ◌^◌, ◌++◌, ℕ, IsTrue, IfOk, IfSome, OnOk, Some, List, string_bytes};
ghost use Rattle.dr_entry.specs.declared.{end.End.End as EndOf, entry.Entry.TheVariants.{View, Msg}};
ghost use Rattle.dr_text.specs.{Report.{entry_text, last_text}, declared.last.Last.TheVariants.NoQuorum};
ghost use Rattle.dr_check.specs.{Fields.end_fields, declared.line.Line.Line as LineOf};
ghost use Rattle.dr_check.specs.Lasts.{IsLastLine, IsPlainLast, TellsDamaged, TellsDisagreement, TellsDiskFault, TellsForeign, TellsLogFull, TellsOfLogs, TellsRosterQuorum, TellsViewQuorum};
ghost use Rattle.dr_check.specs.Lines.{BeginsAs, EndFits, EntryFits, IsLineText, absent_text, age_start_text, present_text};
ghost use Rattle.dr_check.specs.declared.line.Line.TheVariants.{Age, Present, Absent, Entry as EntryLine, Last as LastLine};

use crate::ends::{EndKind, fits_end};
use crate::fields::{field, mask_in, message_in, u8_in, u16_in, u32_in, u64_in};
use crate::line::Line;
use dr_entry::{End, Entry};
use dr_text::{Last, push_end, push_entry, push_last};
use std::alloc::{AllocError, Global};
use std::fmt::Write;

/// A line, where this is its text.
fn chosen(text: &str, bytes: &[u8], line: Line) -> Option<Line>
    ensures some { IfSome result (λ l. (l ≡ line) × (text.now ≡ bytes.now)) }
    ensures yes { text.now ≡ bytes.now → result ≡ Some line }
{
    (text.as_bytes() == bytes).then_some(line)
}

/// The text of the line of an age.
fn age_text_of(alloc: Global, age: u16, start: u64) -> Result<String, AllocError>
    ensures { IfOk result (λ text. string_bytes text ≡ age_start_text age start) }
{
    let mut text = String::new(alloc);
    writeln!(text, "age {age} start {start}")?;
    Ok(text)
}

/// The line of an age.
fn read_age(alloc: Global, bytes: &[u8]) -> Result<Option<Line>, AllocError>
    ensures some { IfOk result (λ line. IfSome line (λ l. IsLineText l bytes.now)) }
    ensures only { (age start : ℕ) → IsLineText (Age age start) bytes.now
        → IfOk result (λ line. line ≡ Some (Age age start)) }
{
    let age = u16_in(field(bytes, 1));
    let start = u64_in(field(bytes, 3));
    let text = age_text_of(alloc, age, start)?;
    Ok(chosen(text.as_str(), bytes, Line::Age { age, start }))
}

/// The text of the line of a member that was absent.
fn absent_text_of(alloc: Global, member: u8) -> Result<String, AllocError>
    ensures { IfOk result (λ text. string_bytes text ≡ absent_text member) }
{
    let mut text = String::new(alloc);
    writeln!(text, "member {member} absent")?;
    Ok(text)
}

/// The line of a member that was absent.
fn read_absent(alloc: Global, bytes: &[u8]) -> Result<Option<Line>, AllocError>
    ensures some { IfOk result (λ line. IfSome line (λ l. IsLineText l bytes.now)) }
    ensures only { (member : ℕ) → IsLineText (Absent member) bytes.now
        → IfOk result (λ line. line ≡ Some (Absent member)) }
{
    let member = u8_in(field(bytes, 1));
    if member >= 16 {
        return Ok(None);
    }
    let text = absent_text_of(alloc, member)?;
    Ok(chosen(text.as_str(), bytes, Line::Absent { member }))
}

/// The end that the line of a member tells, and the field behind it.
fn end_of(bytes: &[u8]) -> (End, usize)
    ensures end { (member : ℕ) (e : EndOf) (history logged durable : ℕ) → member < 16 → EndFits e
        → history < 2 ^ 64 → logged < 2 ^ 64 → durable < 2 ^ 64
        → bytes.now ≡ present_text member e history logged durable
        → (result.0 ≡ e) × (result.1 ≡ 2 + length (end_fields e)) }
    ensures small { result.1 ≤ 4 }
{
    let kind = EndKind::of(field(bytes, 2));
    (kind.with_number(field(bytes, 3)), 2 + kind.width())
}

/// The text of the line of a member that took part.
fn present_text_of(
    alloc: Global,
    member: u8,
    end: End,
    history: u64,
    logged: u64,
    durable: u64,
) -> Result<String, AllocError>
    ensures { IfOk result (λ text. string_bytes text
        ≡ present_text member end history logged durable) }
{
    let mut text = String::new(alloc);
    write!(text, "member {member} ")?;
    push_end(&mut text, end)?;
    writeln!(text, " history {history} logged {logged} durable {durable}")?;
    Ok(text)
}

/// The line of a member that took part.
fn read_present(alloc: Global, bytes: &[u8]) -> Result<Option<Line>, AllocError>
    ensures some { IfOk result (λ line. IfSome line (λ l. IsLineText l bytes.now)) }
    ensures only { (member history logged durable : ℕ)
        → IsLineText (Present member history logged durable) bytes.now
        → IfOk result (λ line. line ≡ Some (Present member history logged durable)) }
{
    let member = u8_in(field(bytes, 1));
    let (end, behind) = end_of(bytes);
    if member >= 16 {
        return Ok(None);
    }
    if !fits_end(end) {
        return Ok(None);
    }
    let history = u64_in(field(bytes, behind + 1));
    let logged = u64_in(field(bytes, behind + 3));
    let durable = u64_in(field(bytes, behind + 5));
    let text = present_text_of(alloc, member, end, history, logged, durable)?;
    let line = Line::Present {
        member,
        history,
        logged,
        durable,
    };
    Ok(chosen(text.as_str(), bytes, line))
}

/// The text of the line of an entry.
fn entry_text_of(alloc: Global, entry: &Entry) -> Result<String, AllocError>
    ensures { IfOk result (λ text. string_bytes text ≡ entry_text entry.now) }
{
    let mut text = String::new(alloc);
    push_entry(&mut text, entry)?;
    Ok(text)
}

/// The line of an entry, where it is this one.
fn entry_if_spelled(alloc: Global, bytes: &[u8], entry: Entry) -> Result<Option<Line>, AllocError>
    ensures some { EntryFits entry → IfOk result (λ line. IfSome line (λ l. IsLineText l bytes.now)) }
    ensures only { IsLineText (EntryLine entry) bytes.now
        → IfOk result (λ line. line ≡ Some (EntryLine entry)) }
{
    let text = entry_text_of(alloc, &entry)?;
    Ok(chosen(text.as_str(), bytes, Line::Entry(entry)))
}

/// The line of a View.
fn read_view(alloc: Global, bytes: &[u8]) -> Result<Option<Line>, AllocError>
    ensures some { IfOk result (λ line. IfSome line (λ l. IsLineText l bytes.now)) }
    ensures only { (age number members : ℕ) → IsLineText (EntryLine (View age number members)) bytes.now
        → IfOk result (λ line. line ≡ Some (EntryLine (View age number members))) }
{
    let age = u16_in(field(bytes, 3));
    let number = u8_in(field(bytes, 4));
    let members = mask_in(field(bytes, 5));
    if members == 0 {
        return Ok(None);
    }
    let view = Entry::View {
        age,
        number,
        members,
    };
    entry_if_spelled(alloc, bytes, view)
}

/// The line of a message.
fn read_message(alloc: Global, bytes: &[u8]) -> Result<Option<Line>, AllocError>
    ensures some { IfOk result (λ line. IfSome line (λ l. IsLineText l bytes.now)) }
    ensures only { (sender index : ℕ) (body : List ℕ)
        → IsLineText (EntryLine (Msg sender index body)) bytes.now
        → IfOk result (λ line. line ≡ Some (EntryLine (Msg sender index body))) }
{
    let sender = u8_in(field(bytes, 3));
    let index = u32_in(field(bytes, 4));
    let body = message_in(alloc, field(bytes, 5))?;
    if sender >= 16 {
        return Ok(None);
    }
    let message = Entry::Msg {
        sender,
        index,
        bytes: body,
    };
    entry_if_spelled(alloc, bytes, message)
}

/// Whether bytes are this last line.
fn is_text(alloc: Global, bytes: &[u8], last: &Last) -> Result<bool, AllocError>
    ensures { IfOk result (λ yes. IsTrue yes ↔ (last_text last.now ≡ bytes.now)) }
{
    let mut text = String::new(alloc);
    push_last(&mut text, last)?;
    Ok(text.as_str().as_bytes() == bytes)
}

/// Whether bytes are this last line, and its member has a number of one.
fn is_text_of(alloc: Global, bytes: &[u8], member: u8, last: &Last) -> Result<bool, AllocError>
    ensures { IfOk result (λ yes. IsTrue yes ↔ ((member < 16) × (last_text last.now ≡ bytes.now))) }
{
    Ok(member < 16 && is_text(alloc, bytes, last)?)
}

/// Whether bytes tell of a fault of a disk.
fn is_disk_fault(alloc: Global, bytes: &[u8]) -> Result<bool, AllocError>
    ensures { IfOk result (λ yes. IsTrue yes ↔ TellsDiskFault bytes.now) }
{
    let member = u8_in(field(bytes, 4));
    is_text_of(alloc, bytes, member, &Last::DiskFault { member })
}

/// Whether bytes tell of a full log.
fn is_log_full(alloc: Global, bytes: &[u8]) -> Result<bool, AllocError>
    ensures { IfOk result (λ yes. IsTrue yes ↔ TellsLogFull bytes.now) }
{
    let member = u8_in(field(bytes, 5));
    is_text_of(alloc, bytes, member, &Last::LogFull { member })
}

/// Whether bytes tell of a damaged log.
fn is_damaged(alloc: Global, bytes: &[u8]) -> Result<bool, AllocError>
    ensures { IfOk result (λ yes. IsTrue yes ↔ TellsDamaged bytes.now) }
{
    let member = u8_in(field(bytes, 5));
    let at = u64_in(field(bytes, 7));
    is_text_of(alloc, bytes, member, &Last::Damaged { member, at })
}

/// Whether bytes tell of a foreign log.
fn is_foreign(alloc: Global, bytes: &[u8]) -> Result<bool, AllocError>
    ensures { IfOk result (λ yes. IsTrue yes ↔ TellsForeign bytes.now) }
{
    let member = u8_in(field(bytes, 5));
    let place = u64_in(field(bytes, 8));
    is_text_of(alloc, bytes, member, &Last::Foreign { member, place })
}

/// Whether bytes tell of logs that disagree.
fn is_disagreement(alloc: Global, bytes: &[u8]) -> Result<bool, AllocError>
    ensures { IfOk result (λ yes. IsTrue yes ↔ TellsDisagreement bytes.now) }
{
    let a = u8_in(field(bytes, 4));
    let b = u8_in(field(bytes, 6));
    let place = u64_in(field(bytes, 10));
    if a >= 16 {
        return Ok(false);
    }
    is_text_of(alloc, bytes, b, &Last::Disagree { a, b, place })
}

/// Writes that logs are wanting.
fn push_quorum(out: &mut String, view: Option<u8>, have: u64, need: u64) -> Result<(), AllocError>
    ensures { OnOk result
        (string_bytes out.new ≡ string_bytes out.old ++ last_text (NoQuorum view have need)) }
{
    match view {
        None => writeln!(out, "refused: quorum of roster has {have} of {need}"),
        Some(view) => writeln!(out, "refused: quorum of view {view} has {have} of {need}"),
    }
}

/// Whether bytes tell that so many logs are wanting.
fn is_quorum(
    alloc: Global,
    bytes: &[u8],
    view: Option<u8>,
    have: u64,
    need: u64,
) -> Result<bool, AllocError>
    ensures { IfOk result (λ yes. IsTrue yes ↔ (last_text (NoQuorum view have need) ≡ bytes.now)) }
{
    let mut text = String::new(alloc);
    push_quorum(&mut text, view, have, need)?;
    Ok(text.as_str().as_bytes() == bytes)
}

/// Whether bytes tell that logs of the roster are wanting.
fn is_roster_quorum(alloc: Global, bytes: &[u8]) -> Result<bool, AllocError>
    ensures { IfOk result (λ yes. IsTrue yes ↔ TellsRosterQuorum bytes.now) }
{
    let have = u64_in(field(bytes, 5));
    let need = u64_in(field(bytes, 7));
    is_quorum(alloc, bytes, None, have, need)
}

/// Whether bytes tell that logs of a view are wanting.
fn is_view_quorum(alloc: Global, bytes: &[u8]) -> Result<bool, AllocError>
    ensures { IfOk result (λ yes. IsTrue yes ↔ TellsViewQuorum bytes.now) }
{
    let view = u8_in(field(bytes, 4));
    let have = u64_in(field(bytes, 6));
    let need = u64_in(field(bytes, 8));
    is_quorum(alloc, bytes, Some(view), have, need)
}

/// Whether bytes are a last line without numbers.
fn is_plain(alloc: Global, bytes: &[u8]) -> Result<bool, AllocError>
    ensures { IfOk result (λ yes. IsTrue yes ↔ IsPlainLast bytes.now) }
{
    Ok(
        is_text(alloc, bytes, &Last::Done)?
            || is_text(alloc, bytes, &Last::AgesUsedUp)?
            || is_text(alloc, bytes, &Last::Unfinished)?
            || is_text(alloc, bytes, &Last::NoMajority)?,
    )
}

/// Whether bytes tell of a log that is not one of this script, or of logs that are wanting.
#[tactic(auto, unfolding(crate::specs::Lasts::TellsOfLogs))]
fn is_of_logs(alloc: Global, bytes: &[u8]) -> Result<bool, AllocError>
    ensures { IfOk result (λ yes. IsTrue yes ↔ TellsOfLogs bytes.now) }
{
    Ok(
        is_damaged(alloc, bytes)?
            || is_foreign(alloc, bytes)?
            || is_disagreement(alloc, bytes)?
            || is_roster_quorum(alloc, bytes)?
            || is_view_quorum(alloc, bytes)?,
    )
}

/// Whether bytes are a last line behind ages.
fn is_last(alloc: Global, bytes: &[u8]) -> Result<bool, AllocError>
    ensures { IfOk result (λ yes. IsTrue yes ↔ IsLastLine bytes.now) }
{
    Ok(
        is_plain(alloc, bytes)?
            || is_disk_fault(alloc, bytes)?
            || is_log_full(alloc, bytes)?
            || is_of_logs(alloc, bytes)?,
    )
}

/// The byte at a place; 0 behind the end.
fn byte_at(bytes: &[u8], k: usize) -> u8
    ensures { result ≡ slice_index bytes.now k }
{
    bytes.get(k).copied().unwrap_or(0)
}

/// Whether a word is the one of an absent member.
fn is_absent(word: &[u8]) -> bool
    ensures { IsTrue result ↔ (word.now ≡ codes "absent") }
{
    word == b"absent".as_slice()
}

/// The line of a member.
fn read_member(alloc: Global, bytes: &[u8]) -> Result<Option<Line>, AllocError>
    ensures some { IfOk result (λ line. IfSome line (λ l. IsLineText l bytes.now)) }
    ensures only { (l : LineOf) → BeginsAs bytes.now (codes "m") → IsLineText l bytes.now
        → IfOk result (λ line. line ≡ Some l) }
{
    if is_absent(field(bytes, 2)) {
        read_absent(alloc, bytes)
    } else {
        read_present(alloc, bytes)
    }
}

/// The line of an entry.
fn read_entry(alloc: Global, bytes: &[u8]) -> Result<Option<Line>, AllocError>
    ensures some { IfOk result (λ line. IfSome line (λ l. IsLineText l bytes.now)) }
    ensures only { (l : LineOf) → BeginsAs bytes.now (codes " ") → IsLineText l bytes.now
        → IfOk result (λ line. line ≡ Some l) }
{
    if byte_at(bytes, 2) == b'v' {
        read_view(alloc, bytes)
    } else {
        read_message(alloc, bytes)
    }
}

/// The last line.
fn read_last(alloc: Global, bytes: &[u8]) -> Result<Option<Line>, AllocError>
    ensures some { IfOk result (λ line. IfSome line (λ l. IsLineText l bytes.now)) }
    ensures only { IsLineText LastLine bytes.now → IfOk result (λ line. line ≡ Some LastLine) }
{
    Ok(is_last(alloc, bytes)?.then_some(Line::Last))
}

/// The line that bytes are, if they are one.
pub(crate) fn read_line(alloc: Global, bytes: &[u8]) -> Result<Option<Line>, AllocError>
    ensures some { IfOk result (λ line. IfSome line (λ l. IsLineText l bytes.now)) }
    ensures only { (l : LineOf) → IsLineText l bytes.now → IfOk result (λ line. line ≡ Some l) }
{
    let first = byte_at(bytes, 0);
    if first == b'a' {
        return read_age(alloc, bytes);
    }
    if first == b'm' {
        return read_member(alloc, bytes);
    }
    if first == b' ' {
        return read_entry(alloc, bytes);
    }
    read_last(alloc, bytes)
}
