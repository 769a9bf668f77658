ghost use Rattle.std.specs.Prelude.{◌≡◌, ◌++◌, IfOk, OnOk, string_bytes};
ghost use Rattle.dr_progress.specs.Progress.{line_text, run_line_text, run_text};

use std::alloc::{AllocError, Global};
use std::fmt::Write;

/// Blanks the line that stands on a terminal, and goes back to where it begins. No line is longer, but of a run that
/// has ten thousand millions before it.
pub(crate) const BLANK: &str = "\r                                                           \r";

/// The line by which a run is in this turn of this age, of at most so many turns.
pub(crate) fn line_of(alloc: Global, age: u16, turn: u32, turns: u32) -> Result<String, AllocError>
    ensures { IfOk result (λ line. string_bytes line ≡ line_text age turn turns) }
{
    let mut line = String::from_str(alloc, BLANK)?;
    write!(line, "age {age}, turn {turn} of at most {turns}")?;
    Ok(line)
}

/// The line by which this one of so many runs is in this turn of this age.
pub(crate) fn run_line_of(
    alloc: Global,
    run: u64,
    runs: u64,
    age: u16,
    turn: u32,
) -> Result<String, AllocError>
    ensures { IfOk result (λ line. string_bytes line ≡ run_line_text run runs age turn) }
{
    let mut line = String::from_str(alloc, BLANK)?;
    push_run(&mut line, run, runs)?;
    write!(line, ", age {age}, turn {turn}")?;
    Ok(line)
}

/// Appends the number of a run, and of how many it is, where that is known.
fn push_run(line: &mut String, run: u64, runs: u64) -> Result<(), AllocError>
    ensures { OnOk result (string_bytes line.new ≡ string_bytes line.old ++ run_text run runs) }
{
    if runs == 0 {
        write!(line, "run {run}")
    } else {
        write!(line, "run {run} of {runs}")
    }
}
