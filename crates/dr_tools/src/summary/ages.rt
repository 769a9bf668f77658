ghost use Rattle.std.specs.Prelude.{◌≡◌, ◌++◌, OnOk, string_bytes};
ghost use Rattle.dr_tools.specs.Summary.{AreAgreed, ages_text};

use dr_entry::AgeEnd;
use dr_script::Script;
use dr_summary::push_age;
use std::alloc::{AllocError, Global};

/// Appends the summaries of the ages of a run, each of whose members agree.
pub(crate) fn push_ages(
    alloc: Global,
    out: &mut String,
    script: &Script,
    ages: &[AgeEnd],
) -> Result<(), AllocError>
    requires { AreAgreed ages.now }
    ensures { OnOk result (string_bytes out.new ≡ string_bytes out.old ++ ages_text script.now ages.now) }
{
    for (nth, age) in ages.iter().enumerate() {
        push_age(alloc, out, script, nth, age)?;
    }
    Ok(())
}
