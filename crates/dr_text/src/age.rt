ghost use Rattle.std.specs.List.{flat_map};
ghost use Rattle.std.specs.Prelude.{◌≡◌, ℕ, ◌≤◌, ◌++◌, All, IfOk, OnOk, OnErr, drop, length, string_bytes};
ghost use Rattle.dr_text.specs.Pieces.{pieces_text};
ghost use Rattle.dr_text.specs.Report.{age_head, age_text, entry_text, members_text, member_line, member_text};

use crate::ends::{is_absent, push_end};
use crate::entries::push_entries;
use crate::pieces::{Piece, PiecedText};
use crate::printed::{Printed, behind};
use dr_entry::{AgeEnd, Entry, MemberEnd};
use std::alloc::{AllocError, Global};
use std::fmt::Write;

/// The text of an age. The members' histories are mostly alike, so the lines of the longest are made
/// once, and stand for each member as far as its own are the same.
pub(crate) fn text_of(alloc: Global, age: &AgeEnd) -> Result<PiecedText, AllocError>
    ensures { IfOk result (λ text. text ≡ age_text age.now) }
{
    let members = age.members.as_slice();
    let start = age.start.as_slice().len();
    let printed = Printed::of(alloc, longest(members, start))?;
    let mut pieces = Vec::new(alloc);
    pieces.push(Piece {
        own: head_of(alloc, age)?,
        count: 0,
    })?;
    push_members(alloc, &mut pieces, start, &printed, members)?;
    Ok(PiecedText::of(printed.into_text(), pieces))
}

/// The line of an age, and the entries that it started with.
fn head_of(alloc: Global, age: &AgeEnd) -> Result<String, AllocError>
    ensures { IfOk result (λ head. string_bytes head ≡ age_head age.now) }
{
    let start = age.start.as_slice();
    let number = age.age;
    let count = start.len();
    let mut head = String::new(alloc);
    writeln!(head, "age {number} start {count}")?;
    push_entries(&mut head, start)?;
    Ok(head)
}

/// The longest list of entries that a member has after the first `start`, empty where none has any.
fn longest(members: &[MemberEnd], start: usize) -> &[Entry]
    ensures { All (λ m. length (drop start m.history) ≤ length result.now) members.now }
{
    let mut longest: &[Entry] = &[];
    for member in members {
        let own = own_entries(member, start);
        if own.len() > longest.len() {
            longest = own;
        }
    }
    longest
}

/// What the member's history has after its first `start` entries.
fn own_entries(member: &MemberEnd, start: usize) -> &[Entry]
    ensures { result.now ≡ drop start member.now.history }
{
    let history = member.history.as_slice();
    behind(history, start.min(history.len()))
}

/// Appends the members of an age that started with `start` entries, ascending.
fn push_members(
    alloc: Global,
    pieces: &mut Vec<Piece>,
    start: usize,
    printed: &Printed<'_>,
    members: &[MemberEnd],
) -> Result<(), AllocError>
    ensures { OnOk result (pieces_text (string_bytes printed.now.text) pieces.new.items
        ≡ pieces_text (string_bytes printed.now.text) pieces.old.items
        ++ members_text start members.now) }
{
    for (number, member) in members.iter().enumerate() {
        push_member(alloc, pieces, start, number, printed, member)?;
    }
    Ok(())
}

/// Appends the member numbered `number` of an age that started with `start` entries.
fn push_member(
    alloc: Global,
    pieces: &mut Vec<Piece>,
    start: usize,
    number: usize,
    printed: &Printed<'_>,
    member: &MemberEnd,
) -> Result<(), AllocError>
    ensures { OnOk result (pieces_text (string_bytes printed.now.text) pieces.new.items
        ≡ pieces_text (string_bytes printed.now.text) pieces.old.items
        ++ member_text start number member.now) }
{
    let entries = own_entries(member, start);
    let same = printed.count_same(entries);
    pieces.push(Piece {
        own: line_of(alloc, number, member)?,
        count: printed.end_of(same),
    })?;
    pieces.push(Piece {
        own: lines_of(alloc, behind(entries, same))?,
        count: 0,
    })?;
    Ok(())
}

/// The line of a member.
fn line_of(alloc: Global, number: usize, member: &MemberEnd) -> Result<String, AllocError>
    ensures { IfOk result (λ line. string_bytes line ≡ member_line number member.now) }
{
    let mut line = String::new(alloc);
    push_member_line(&mut line, number, member)?;
    Ok(line)
}

/// Appends the line of a member with this number: how it ended, without its entries.
///
/// # Errors
///
/// Want of memory alone.
pub fn push_member_line(
    out: &mut String,
    number: usize,
    member: &MemberEnd,
) -> Result<(), AllocError>
    ensures { OnOk result (string_bytes out.new
        ≡ string_bytes out.old ++ member_line number member.now) }
{
    let count = member.history.as_slice().len();
    let logged = member.logged;
    let durable = member.durable;
    write!(out, "member {number} ")?;
    push_end(out, member.end)?;
    if is_absent(member.end) {
        return out.push_str("\n");
    }
    writeln!(out, " history {count} logged {logged} durable {durable}")
}

/// The lines of these entries.
fn lines_of(alloc: Global, entries: &[Entry]) -> Result<String, AllocError>
    ensures { IfOk result (λ lines. string_bytes lines ≡ flat_map entry_text entries.now) }
{
    let mut lines = String::new(alloc);
    push_entries(&mut lines, entries)?;
    Ok(lines)
}
