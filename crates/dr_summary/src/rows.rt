ghost use Rattle.std.specs.List.{concat};
ghost use Rattle.std.specs.Prelude.{◌≡◌, ◌∷◌, [], ◌+◌, ◌^◌, ◌<◌, ◌++◌, OnOk, codes, length, string_bytes};
ghost use Rattle.dr_summary.specs.Table.{in_column, label_text, rows_text};

use crate::columns::push_in_column;
use crate::labels::label_of;
use crate::marks::{marks_of, renew};
use dr_entry::{Entry, MemberEnd};
use std::alloc::{AllocError, Global};

/// Appends the rows of these entries, the first of which has this number.
pub(crate) fn push_rows(
    alloc: Global,
    out: &mut String,
    members: &[MemberEnd],
    first: usize,
    entries: &[Entry],
) -> Result<(), AllocError>
    requires { first + length entries.now < 2 ^ 64 }
    ensures { OnOk result (string_bytes out.new
        ≡ string_bytes out.old ++ rows_text members.now first entries.now) }
{
    let mut marks = marks_of(alloc, members, first)?;
    for (index, entry) in entries.iter().enumerate() {
        let number = first + index;
        renew(alloc, &mut marks, members, number)?;
        push_row(alloc, out, number, entry, marks.text.as_str())?;
    }
    Ok(())
}

/// Appends the row of an entry with this number and these marks.
fn push_row(
    alloc: Global,
    out: &mut String,
    number: usize,
    entry: &Entry,
    marks: &str,
) -> Result<(), AllocError>
    ensures { OnOk result (string_bytes out.new ≡ string_bytes out.old
        ++ concat (in_column (label_text number entry.now) ∷ marks.now ∷ codes "\n" ∷ [])) }
{
    let label = label_of(alloc, number, entry)?;
    push_in_column(out, label.as_str())?;
    out.push_str(marks)?;
    out.push_str("\n")
}
