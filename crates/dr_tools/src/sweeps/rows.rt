//! The table of outcomes.
ghost use Rattle.std.specs.List.{flat_map};
ghost use Rattle.std.specs.Prelude.{◌≡◌, ◌<◌, ◌-◌, ◌^◌, ◌++◌, All, OnOk, bytes_eq, option_copied, position, string_bytes};
ghost use Rattle.dr_tools.specs.Rows.{crash_text, first_text, heading, outcome_row, point_text, rows_text, with_run};
ghost use Rattle.dr_tools.specs.declared.sweeps.rows.Row.{Row as RowOf};

use crate::sweeps::variants::Variants;
use dr_entry::Text;
use dr_script::{Fault, What};
use dr_summary::push_aligned;
use std::alloc::AllocError;

/// How many characters a count takes at least.
const COUNT_WIDTH: usize = 5;

/// How many characters a seed takes at least.
const SEED_WIDTH: usize = 10;

/// How many characters an age, a turn and a push take at least.
const AGE_WIDTH: usize = 9;

const TURN_WIDTH: usize = 7;

const PUSH_WIDTH: usize = 5;

/// An outcome as a line, how many runs have it, and the number of the first of these.
#[derive(Drop)]
pub(crate) struct Row {
    pub line: Text,
    pub count: u64,
    pub first: u64,
}

/// Counts the run of this number with this outcome.
pub(crate) fn count_run(rows: &mut Vec<Row>, number: u64, line: Text) -> Result<(), AllocError>
    requires { All (λ (r : RowOf). r.count < 2 ^ 64 - 1) rows.old.items }
    ensures { OnOk result (rows.new.items ≡ with_run number line rows.old.items) }
{
    match row_of(rows.as_slice(), line.as_str()) {
        Some(index) => rows[index].count += 1,
        None => rows.push(Row {
            line,
            count: 1,
            first: number,
        })?,
    }
    Ok(())
}

fn row_of(rows: &[Row], line: &str) -> Option<usize>
    ensures { result ≡ position (λ (r : RowOf). bytes_eq r.line line.now) rows.now }
{
    rows.iter().position(|row| is_row_of(row, line))
}

fn is_row_of(row: &Row, line: &str) -> bool
    ensures { result ≡ bytes_eq row.now.line line.now }
{
    row.line.as_str() == line
}

/// Appends the table of these rows of a sweep.
pub(crate) fn push_rows(
    out: &mut String,
    variants: &Variants,
    rows: &[Row],
) -> Result<(), AllocError>
    ensures { OnOk result
        (string_bytes out.new ≡ string_bytes out.old ++ rows_text variants.now rows.now) }
{
    out.push_str(heading(variants))?;
    push_each(out, variants, rows)
}

/// The line above the rows.
fn heading(variants: &Variants) -> &'static str
    ensures { result.now ≡ heading variants.now }
{
    match variants {
        Variants::Seeded(_) => " runs  first seed  outcome\n",
        Variants::Crashes(_) => " runs  first age     turn   push  outcome\n",
    }
}

fn push_each(out: &mut String, variants: &Variants, rows: &[Row]) -> Result<(), AllocError>
    ensures { OnOk result
        (string_bytes out.new ≡ string_bytes out.old ++ flat_map (outcome_row variants.now) rows.now) }
{
    for row in rows {
        push_row(out, variants, row)?;
    }
    Ok(())
}

fn push_row(out: &mut String, variants: &Variants, row: &Row) -> Result<(), AllocError>
    ensures { OnOk result
        (string_bytes out.new ≡ string_bytes out.old ++ outcome_row variants.now row.now) }
{
    push_aligned(out, COUNT_WIDTH, row.count as usize)?;
    out.push_str("  ")?;
    push_first(out, variants, row.first)?;
    out.push_str("  ")?;
    out.push_str(row.line.as_str())
}

/// Appends the first run of a row: its seed, or its crash.
fn push_first(out: &mut String, variants: &Variants, first: u64) -> Result<(), AllocError>
    ensures { OnOk result
        (string_bytes out.new ≡ string_bytes out.old ++ first_text variants.now first) }
{
    match variants {
        Variants::Seeded(_) => push_aligned(out, SEED_WIDTH, first as usize),
        Variants::Crashes(faults) => push_crash(out, faults.as_slice().get(first as usize)),
    }
}

/// Appends a crash, if there is one.
fn push_crash(out: &mut String, crash: Option<&Fault>) -> Result<(), AllocError>
    ensures { OnOk result
        (string_bytes out.new ≡ string_bytes out.old ++ crash_text (option_copied crash.entry)) }
{
    match crash {
        Some(fault) => push_what(out, fault.age, fault.what),
        None => Ok(()),
    }
}

/// Appends what happens in this age, where it is a crash.
fn push_what(out: &mut String, age: u8, what: What) -> Result<(), AllocError>
    ensures { OnOk result
        (string_bytes out.new ≡ string_bytes out.old ++ point_text age what) }
{
    match what {
        What::Crash { turn, push } => push_point(out, age, turn, push),
        What::Suspect { .. } => Ok(()),
    }
}

/// Appends the point of a crash: its age, its turn and its push.
fn push_point(out: &mut String, age: u8, turn: u32, push: u32) -> Result<(), AllocError>
    ensures { OnOk result
        (string_bytes out.new ≡ string_bytes out.old ++ point_text age (What.Crash turn push)) }
{
    push_aligned(out, AGE_WIDTH, usize::from(age))?;
    out.push_str("  ")?;
    push_aligned(out, TURN_WIDTH, turn as usize)?;
    out.push_str("  ")?;
    push_aligned(out, PUSH_WIDTH, push as usize)
}
