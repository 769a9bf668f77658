ghost use Rattle.std.specs.{List.{enumerate_from, flat_map}, Prelude.{◌≡◌, ◌++◌, OnOk, string_bytes}};
ghost use Rattle.dr_entry.specs.declared.end.MemberEnd.{MemberEnd as MemberEndOf};
ghost use Rattle.dr_summary.specs.Notes.{end_line, ends_text};
ghost use Rattle.dr_summary.specs.Table.{age_line, end_name, ends_row, name_text, names_row};

use crate::columns::{push_blanks, push_margin};
use dr_entry::{AgeEnd, End, MemberEnd};
use dr_text::push_end;
use itoa::Buffer;
use std::alloc::AllocError;
use std::fmt::Write;

/// How many characters the number of a member takes at least, over its column.
const NUMBER_WIDTH: usize = 5;

/// Appends the lines above the rows of an age: its number, the names of the members, and how they ended.
pub(crate) fn push_head(out: &mut String, age: &AgeEnd) -> Result<(), AllocError>
    ensures { OnOk result (string_bytes out.new ≡ string_bytes out.old
        ++ (age_line age.now ++ (names_row age.now.members ++ ends_row age.now.members))) }
{
    push_age_line(out, age)?;
    push_names_row(out, age.members.as_slice())?;
    push_ends_row(out, age.members.as_slice())
}

#[tactic(auto, unfolding(crate::specs::Table::age_line))]
fn push_age_line(out: &mut String, age: &AgeEnd) -> Result<(), AllocError>
    ensures { OnOk result (string_bytes out.new ≡ string_bytes out.old ++ age_line age.now) }
{
    let number = age.age;
    let start = age.start.as_slice().len();
    writeln!(out, "age {number} start {start}")
}

#[tactic(auto, unfolding(crate::specs::Table::names_row))]
fn push_names_row(out: &mut String, members: &[MemberEnd]) -> Result<(), AllocError>
    ensures { OnOk result (string_bytes out.new ≡ string_bytes out.old ++ names_row members.now) }
{
    push_margin(out)?;
    push_names(out, members)?;
    out.push_str("\n")
}

#[tactic(auto, unfolding(crate::specs::Table::ends_row))]
fn push_ends_row(out: &mut String, members: &[MemberEnd]) -> Result<(), AllocError>
    ensures { OnOk result (string_bytes out.new ≡ string_bytes out.old ++ ends_row members.now) }
{
    push_margin(out)?;
    push_end_names(out, members)?;
    out.push_str("\n")
}

fn push_names(out: &mut String, members: &[MemberEnd]) -> Result<(), AllocError>
    ensures { OnOk result (string_bytes out.new ≡ string_bytes out.old
        ++ flat_map (λ t. name_text t.0) (enumerate_from 0 members.now)) }
{
    for (number, _) in members.iter().enumerate() {
        push_name(out, number)?;
    }
    Ok(())
}

/// Appends the name of a member over its column.
fn push_name(out: &mut String, number: usize) -> Result<(), AllocError>
    ensures { OnOk result (string_bytes out.new ≡ string_bytes out.old ++ name_text number) }
{
    let mut buffer = Buffer::new();
    let digits = buffer.format(number as u64);
    push_blanks(out, NUMBER_WIDTH.saturating_sub(digits.len()))?;
    out.push_str("member ")?;
    out.push_str(digits)
}

fn push_end_names(out: &mut String, members: &[MemberEnd]) -> Result<(), AllocError>
    ensures { OnOk result (string_bytes out.new ≡ string_bytes out.old
        ++ flat_map (λ (m : MemberEndOf). end_name m.end) members.now) }
{
    for member in members {
        out.push_str(end_name(member.end))?;
    }
    Ok(())
}

/// How a member ended, below its name.
fn end_name(end: End) -> &'static str
    ensures { result.now ≡ end_name end }
{
    match end {
        End::Done => "        done",
        End::Crashed => "     crashed",
        End::Suspected { .. } => "   suspected",
        End::Excluded { .. } => "    excluded",
        End::NoMajority { .. } => "  nomajority",
        End::DiskFault => "   diskfault",
        End::LogFull { .. } => "     logfull",
        End::Spent { .. } => "       spent",
        End::Absent => "      absent",
    }
}

/// Appends how each member ended, and in which turn of at most `limit`.
pub(crate) fn push_ends(
    out: &mut String,
    limit: u32,
    members: &[MemberEnd],
) -> Result<(), AllocError>
    ensures { OnOk result
        (string_bytes out.new ≡ string_bytes out.old ++ ends_text limit members.now) }
{
    for (number, member) in members.iter().enumerate() {
        push_end_line(out, limit, number, member)?;
    }
    Ok(())
}

fn push_end_line(
    out: &mut String,
    limit: u32,
    number: usize,
    member: &MemberEnd,
) -> Result<(), AllocError>
    ensures { OnOk result
        (string_bytes out.new ≡ string_bytes out.old ++ end_line limit number member.now) }
{
    let turns = member.turns;
    write!(out, "member {number} ended as ")?;
    push_end(out, member.end)?;
    writeln!(out, " in turn {turns} of {limit}")
}
