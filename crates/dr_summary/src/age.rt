ghost use Rattle.std.specs.Prelude.{◌≡◌, ◌++◌, OnOk, drop, string_bytes};
ghost use Rattle.dr_history.specs.declared.opening.Opening.{Opening};
ghost use Rattle.dr_summary.specs.{Histories.longest, Summary.{HaveAgreed, age_text, notes_text}, Table.table_text};

use crate::ends::{push_ends, push_head};
use crate::faults::push_faults;
use crate::histories::longest;
use crate::rows::push_rows;
use crate::undelivered::push_undelivered;
use dr_entry::{AgeEnd, Entry};
use dr_script::Script;
use std::alloc::{AllocError, Global};

/// Appends the summary of age number `nth` of a run of the script, from 0. One history stands for those of all
/// members, since these agree.
///
/// # Errors
///
/// Want of memory alone.
pub fn push_age(
    alloc: Global,
    out: &mut String,
    script: &Script,
    nth: usize,
    age: &AgeEnd,
) -> Result<(), AllocError>
    requires agreed { (o : Opening) × HaveAgreed o age.now.members }
    ensures text { OnOk result
        (string_bytes out.new ≡ string_bytes out.old ++ age_text script.now nth age.now) }
{
    let history = longest(age.members.as_slice());
    push_table(alloc, out, age, history)?;
    push_notes(alloc, out, script, nth, age, history)
}

/// Appends the table of an age whose longest history is this one.
#[tactic(auto, unfolding(crate::specs::Table::table_text))]
fn push_table(
    alloc: Global,
    out: &mut String,
    age: &AgeEnd,
    history: &[Entry],
) -> Result<(), AllocError>
    requires { history.now ≡ longest age.now.members }
    ensures { OnOk result (string_bytes out.new ≡ string_bytes out.old ++ table_text age.now) }
{
    let start = age.start.as_slice().len();
    push_head(out, age)?;
    push_rows(
        alloc,
        out,
        age.members.as_slice(),
        start,
        behind(history, start),
    )
}

/// Appends the lines below it.
#[tactic(auto, unfolding(crate::specs::Summary::notes_text))]
fn push_notes(
    alloc: Global,
    out: &mut String,
    script: &Script,
    nth: usize,
    age: &AgeEnd,
    history: &[Entry],
) -> Result<(), AllocError>
    requires { history.now ≡ longest age.now.members }
    ensures { OnOk result
        (string_bytes out.new ≡ string_bytes out.old ++ notes_text script.now nth age.now) }
{
    let members = age.members.as_slice();
    push_undelivered(alloc, out, script, history)?;
    push_faults(out, script.faults.as_slice(), nth, members)?;
    push_ends(out, script.turns, members)
}

/// The entries after the first `count`.
pub(crate) fn behind(entries: &[Entry], count: usize) -> &[Entry]
    ensures { result.now ≡ drop count entries.now }
{
    &entries[count.min(entries.len())..]
}
