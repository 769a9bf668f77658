//! What a check comes to.
ghost use Rattle.std.specs.Prelude.{◌⊎◌, None};
ghost use Rattle.dr_yard.specs.Yards.{YardState};
ghost use Rattle.dr_outcome.specs.Outcome.{HasDone, SaysOnly};
ghost use Rattle.dr_commands.specs.Check.{Checks, check_ends};

use crate::check::verdict::checked_line;
use dr_outcome::{Outcome, without_ages};
use std::alloc::Global;

/// Judges the report that these bytes hand in with its script. Nothing is run, and it leaves every yard as it
/// is.
pub fn check_report(alloc: Global, bytes: &[u8]) -> Outcome
    ensures { (yard : YardState) → SaysOnly None yard yard result
        ⊎ HasDone (Checks bytes.now) check_ends yard yard result }
{
    without_ages(alloc, checked_line(alloc, bytes))
}
