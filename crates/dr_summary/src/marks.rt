ghost use Rattle.std.specs.Prelude.{◌≡◌, ◌<◌, ◌≤◌, ◌++◌, All, IfOk, OnOk, string_bytes};
ghost use Rattle.dr_summary.specs.{Marks.{AreMarks, IsMarkUntil}, Table.{mark_text, marks_text}};

use dr_entry::MemberEnd;
use std::alloc::{AllocError, Global};

/// The marks of a row, and the last row from it on that has the same ones.
#[derive(Drop)]
pub(crate) struct Marks {
    pub(crate) text: String,
    pub(crate) last: usize,
}

/// Makes of marks that hold from this row on, if at all, those of this row.
pub(crate) fn renew(
    alloc: Global,
    marks: &mut Marks,
    members: &[MemberEnd],
    number: usize,
) -> Result<(), AllocError>
    requires { AreMarks members.now number marks.old.last (string_bytes marks.old.text) }
    ensures from { OnOk result (number ≤ marks.new.last) }
    ensures marks { OnOk result
        (AreMarks members.now number marks.new.last (string_bytes marks.new.text)) }
{
    if number > marks.last {
        *marks = marks_of(alloc, members, number)?;
    }
    Ok(())
}

/// The marks of the row with this number.
pub(crate) fn marks_of(
    alloc: Global,
    members: &[MemberEnd],
    number: usize,
) -> Result<Marks, AllocError>
    ensures from { IfOk result (λ m. number ≤ m.last) }
    ensures marks { IfOk result (λ m. AreMarks members.now number m.last (string_bytes m.text)) }
{
    let mut text = String::new(alloc);
    push_marks(&mut text, members, number)?;
    Ok(Marks {
        text,
        last: last_alike(members, number),
    })
}

/// Appends how far each member has come with the entry of this number.
fn push_marks(out: &mut String, members: &[MemberEnd], number: usize) -> Result<(), AllocError>
    ensures { OnOk result
        (string_bytes out.new ≡ string_bytes out.old ++ marks_text members.now number) }
{
    for member in members {
        out.push_str(mark_of(member, number))?;
    }
    Ok(())
}

/// How far a member has come with the entry of this number.
fn mark_of(member: &MemberEnd, number: usize) -> &str
    ensures { result.now ≡ mark_text number member.now }
{
    if (number as u64) < member.durable {
        "     durable"
    } else if (number as u64) < member.logged {
        "      logged"
    } else if number < member.history.as_slice().len() {
        "   delivered"
    } else {
        "           ."
    }
}

/// The last row from this one on up to which each member's mark stays as it is.
fn last_alike(members: &[MemberEnd], number: usize) -> usize
    ensures from { number ≤ result }
    ensures same { All (IsMarkUntil number result) members.now }
{
    let mut last = usize::MAX;
    for member in members {
        last = last.min(last_with_mark(member, number));
    }
    last
}

/// The last row from this one on up to which a member's mark stays as it is.
fn last_with_mark(member: &MemberEnd, number: usize) -> usize
    ensures from { number ≤ result }
    ensures same { IsMarkUntil number result member.now }
{
    let durable = last_before(member.durable as usize, number);
    let logged = last_before(member.logged as usize, number);
    let delivered = last_before(member.history.as_slice().len(), number);
    durable.min(logged).min(delivered)
}

/// The last number before the limit, or where this one is none of these the last of all.
fn last_before(limit: usize, number: usize) -> usize
    ensures from { number ≤ result }
    ensures before { number < limit → result < limit }
{
    if number < limit {
        limit - 1
    } else {
        usize::MAX
    }
}
