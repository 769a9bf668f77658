//! What is worth a look before the next run over a folder.

ghost use Rattle.std.specs.Prelude.{◌≤◌, length};

use crate::checking::FolderCheck;
use crate::differences::entries_of;
use crate::survey::Survey;
use dr_entry::Entry;
use dr_history::view_of;
use std::alloc::{AllocError, Global};
use std::fmt::Write;

/// A line for each log that the next run would cut back, and one where a log alone has the last age.
///
/// # Errors
///
/// Want of memory alone.
pub fn warnings_of(alloc: Global, check: &FolderCheck) -> Result<String, AllocError> {
    let mut text = String::new(alloc);
    if let Ok(start) = &check.next {
        push_cuts(&mut text, start.entries.as_slice(), &check.surveys)?;
    }
    push_alone(&mut text, &check.surveys)?;
    Ok(text)
}

/// Appends which logs have entries that a start lacks.
fn push_cuts(out: &mut String, start: &[Entry], surveys: &[Survey]) -> Result<(), AllocError> {
    for (number, survey) in surveys.iter().enumerate() {
        let entries = entries_of(survey);
        let kept = common(entries, start);
        let count = entries.len();
        if kept < count {
            writeln!(
                out,
                "the next run cuts member-{number}.log back from {count} entries to {kept}: look first whether the \
                 others are right"
            )?;
        }
    }
    Ok(())
}

/// With how many entries both begin.
fn common(one: &[Entry], other: &[Entry]) -> usize
    ensures { result ≤ length one.now }
{
    let mut count = 0;
    while count < one.len() && count < other.len() && one[count] == other[count] {
        count += 1;
    }
    count
}

/// Appends which log is the only one of the last age, where others have entries too.
fn push_alone(out: &mut String, surveys: &[Survey]) -> Result<(), AllocError> {
    let mut last: Option<(usize, u16)> = None;
    let mut alone = true;
    let mut others = false;
    for (number, survey) in surveys.iter().enumerate() {
        let Some(view) = view_of(entries_of(survey)) else {
            continue
        };
        let age = view.age();
        match last {
            Some((_, greatest)) if age < greatest => others = true,
            Some((_, greatest)) if age == greatest => alone = false,
            Some(_) => {
                last = Some((number, age));
                alone = true;
                others = true;
            }
            None => last = Some((number, age)),
        }
    }
    match last {
        Some((number, age)) if alone && others => writeln!(
            out,
            "member-{number}.log alone has age {age}, and the next run begins with it: look first whether it is right"
        ),
        _ => Ok(()),
    }
}
