//! How a run ended, as a line.
ghost use Rattle.std.specs.Prelude.{◌≡◌, ◌++◌, OnOk, string_bytes};
ghost use Rattle.dr_tools.specs.Outcomes.{age_ending, ages_endings, bar_before, member_ending, members_endings, outcome_line};

use dr_entry::{AgeEnd, MemberEnd};
use dr_json::push_comma;
use dr_text::{Last, push_end, push_last};
use std::alloc::AllocError;

/// Appends how a run ended: the ends of its members, age by age, and its last line.
pub(crate) fn push_outcome(out: &mut String, ages: &[AgeEnd], last: &Last) -> Result<(), AllocError>
    ensures { OnOk result
        (string_bytes out.new ≡ string_bytes out.old ++ outcome_line ages.now last.now) }
{
    push_ages(out, ages)?;
    out.push_str(": ")?;
    push_last(out, last)
}

fn push_ages(out: &mut String, ages: &[AgeEnd]) -> Result<(), AllocError>
    ensures { OnOk result (string_bytes out.new ≡ string_bytes out.old ++ ages_endings ages.now) }
{
    for (nth, age) in ages.iter().enumerate() {
        push_age(out, nth, age)?;
    }
    Ok(())
}

/// Appends how the members of the age with this number ended.
fn push_age(out: &mut String, nth: usize, age: &AgeEnd) -> Result<(), AllocError>
    ensures { OnOk result (string_bytes out.new ≡ string_bytes out.old ++ age_ending nth age.now) }
{
    push_bar(out, nth)?;
    push_members(out, age.members.as_slice())
}

/// Appends the bar before all ages but the first.
fn push_bar(out: &mut String, nth: usize) -> Result<(), AllocError>
    ensures { OnOk result (string_bytes out.new ≡ string_bytes out.old ++ bar_before nth) }
{
    if nth == 0 {
        return Ok(());
    }
    out.push_str(" | ")
}

fn push_members(out: &mut String, members: &[MemberEnd]) -> Result<(), AllocError>
    ensures { OnOk result
        (string_bytes out.new ≡ string_bytes out.old ++ members_endings members.now) }
{
    for (number, member) in members.iter().enumerate() {
        push_member(out, number, member)?;
    }
    Ok(())
}

fn push_member(out: &mut String, number: usize, member: &MemberEnd) -> Result<(), AllocError>
    ensures { OnOk result
        (string_bytes out.new ≡ string_bytes out.old ++ member_ending number member.now) }
{
    push_comma(out, number)?;
    push_end(out, member.end)
}
