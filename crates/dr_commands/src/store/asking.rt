ghost use Rattle.std.specs.Prelude.{◌≡◌, ◌⊎◌, None, IfOk, string_bytes};
ghost use Rattle.dr_yard.specs.Yards.{YardState};
ghost use Rattle.dr_outcome.specs.Outcome.{HasDone, SaysOnly};
ghost use Rattle.dr_commands.specs.{Store.{Stores, store_ends}, StoreLines.last_values_text};

use crate::store::values::push_values;
use dr_entry::AgeEnd;
use dr_outcome::{Outcome, simulate_text, without_ages};
use dr_text::LongText;
use std::alloc::{AllocError, Global};
use std::thread::Threads;

/// Simulates the script that these bytes are, where they are one, over logs in memory, and says the value of a
/// key at a version in the store of each member. It leaves every yard as it is.
pub fn ask_stores<R: Threads + Sync>(
    rt: &R,
    alloc: Global,
    bytes: &[u8],
    key: &[u8],
    version: u64,
) -> Outcome
    ensures { (yard : YardState) → SaysOnly None yard yard result
        ⊎ HasDone (Stores key.now version bytes.now) store_ends yard yard result }
{
    let outcome = simulate_text(rt, alloc, bytes);
    match text_of(alloc, outcome.ages.as_slice(), key, version) {
        Ok(text) => outcome.saying(text),
        Err(_) => without_ages(alloc, None),
    }
}

/// The values in the stores of the last of these ages.
fn text_of(alloc: Global, ages: &[AgeEnd], key: &[u8], version: u64) -> Result<LongText, AllocError>
    ensures { IfOk result (λ text. text ≡ last_values_text key.now version ages.now) }
{
    let mut text = String::new(alloc);
    push_values(&mut text, alloc, ages, key, version)?;
    LongText::of(alloc, text)
}
