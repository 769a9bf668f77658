ghost use Rattle.std.specs.{List.flat_map, Prelude.{◌≡◌, ◌++◌, [], OnOk, string_bytes}};
ghost use Rattle.dr_commands.specs.DrillLines.{drilled_text, end_lines, last_view_or, view_line};

use dr_entry::{AgeEnd, Entry, MemberEnd};
use dr_summary::longest;
use dr_text::{push_mask, push_member_line};
use std::alloc::AllocError;
use std::fmt::Write;

/// Appends the lines of these ages.
pub(crate) fn push_ages(out: &mut String, ages: &[AgeEnd]) -> Result<(), AllocError>
    ensures { OnOk result
        (string_bytes out.new ≡ string_bytes out.old ++ flat_map drilled_text ages.now) }
{
    for age in ages {
        push_drilled(out, age)?;
    }
    Ok(())
}

/// Appends the lines of an age: how its members ended, and the last View of the longest history.
fn push_drilled(out: &mut String, age: &AgeEnd) -> Result<(), AllocError>
    ensures { OnOk result (string_bytes out.new ≡ string_bytes out.old ++ drilled_text age.now) }
{
    push_end_lines(out, age.members.as_slice())?;
    push_last_view(out, longest(age.members.as_slice()))
}

/// Appends the lines of these members.
fn push_end_lines(out: &mut String, members: &[MemberEnd]) -> Result<(), AllocError>
    ensures { OnOk result (string_bytes out.new ≡ string_bytes out.old ++ end_lines members.now) }
{
    for (number, member) in members.iter().enumerate() {
        push_member_line(out, number, member)?;
    }
    Ok(())
}

/// Appends the line of the last View of a history, where it has one.
fn push_last_view(out: &mut String, history: &[Entry]) -> Result<(), AllocError>
    ensures { OnOk result (string_bytes out.new
        ≡ string_bytes out.old ++ last_view_or [] history.now) }
{
    let mut last = None;
    for entry in history {
        if let Entry::View {
            age,
            number,
            members,
        } = entry
        {
            last = Some((*age, *number, *members));
        }
    }
    match last {
        Some((age, number, members)) => push_view_line(out, age, number, members),
        None => Ok(()),
    }
}

/// Appends the line of a View.
fn push_view_line(out: &mut String, age: u16, number: u8, members: u16) -> Result<(), AllocError>
    ensures { OnOk result (string_bytes out.new
        ≡ string_bytes out.old ++ view_line age number members) }
{
    write!(out, "last view {age} {number} ")?;
    push_mask(out, members)?;
    out.push_str("\n")
}
