//! Logs that differ.

ghost use Rattle.std.specs.Prelude.{◌<◌, IfSome, length};

use crate::survey::Survey;
use dr_entry::Entry;
use dr_text::push_entry;
use std::alloc::AllocError;
use std::fmt::Write;

/// Appends of each two logs that differ the first two entries that do.
pub(crate) fn push_differences(out: &mut String, surveys: &[Survey]) -> Result<(), AllocError> {
    for b in 0..surveys.len() {
        for a in 0..b {
            push_difference(out, a, b, entries_of(&surveys[a]), entries_of(&surveys[b]))?;
        }
    }
    Ok(())
}

/// The entries of a log; none where there is no log.
pub(crate) fn entries_of(survey: &Survey) -> &[Entry] {
    match survey {
        Survey::Log { content, .. } => content.entries.as_slice(),
        _ => &[],
    }
}

fn push_difference(
    out: &mut String,
    a: usize,
    b: usize,
    one: &[Entry],
    other: &[Entry],
) -> Result<(), AllocError> {
    let Some(place) = first_apart(one, other) else {
        return Ok(());
    };
    writeln!(
        out,
        "member-{a}.log and member-{b}.log disagree at entry {place}:"
    )?;
    push_entry(out, &one[place])?;
    push_entry(out, &other[place])
}

/// The first place at which both have an entry, and differ.
fn first_apart(one: &[Entry], other: &[Entry]) -> Option<usize>
    ensures in_one { IfSome result (λ place. place < length one.now) }
    ensures in_other { IfSome result (λ place. place < length other.now) }
{
    for place in 0..one.len().min(other.len()) {
        if one[place] != other[place] {
            return Some(place);
        }
    }
    None
}
