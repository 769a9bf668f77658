ghost use Rattle.std.specs.Prelude.{◌≡◌, ◌⊎◌, ℕ, List, None, IfOk};
ghost use Rattle.dr_yard.specs.Yards.{YardState};
ghost use Rattle.dr_outcome.specs.Outcome.{HasDone, SaysOnly};
ghost use Rattle.dr_commands.specs.{Drill.{Drills, drill_ends}, DrillLines.drill_text};

use crate::drill::lines::push_ages;
use dr_drill::make;
use dr_entry::AgeEnd;
use dr_outcome::{Outcome, simulate, without_ages};
use dr_text::LongText;
use std::alloc::{AllocError, Global};
use std::fmt::Write;
use std::thread::Threads;

/// Simulates the script that the number makes, over logs in memory, and says how its members ended. It leaves
/// every yard as it is.
pub fn run_drill<R: Threads + Sync>(rt: &R, alloc: Global, number: u64) -> Outcome
    ensures { (yard : YardState) → (bytes : List ℕ) → SaysOnly None yard yard result
        ⊎ HasDone (Drills number bytes) drill_ends yard yard result }
{
    let Ok(script) = make(alloc, number) else {
        return without_ages(alloc, None);
    };
    let outcome = simulate(rt, alloc, &script);
    match text_of(alloc, number, outcome.ages.as_slice()) {
        Ok(text) => outcome.saying(text),
        Err(_) => without_ages(alloc, None),
    }
}

/// What is said of these ages of a drill.
fn text_of(alloc: Global, number: u64, ages: &[AgeEnd]) -> Result<LongText, AllocError>
    ensures { IfOk result (λ text. text ≡ drill_text number ages.now) }
{
    let mut text = String::new(alloc);
    writeln!(text, "drill {number} members 5 messages 2000")?;
    push_ages(&mut text, ages)?;
    LongText::of(alloc, text)
}
