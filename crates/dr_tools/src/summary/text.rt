ghost use Rattle.std.specs.Prelude.{◌≡◌, IfOk, string_bytes};
ghost use Rattle.dr_script.specs.Ranges.{HasRanges};
ghost use Rattle.dr_tools.specs.{Object.summary_by, Summary.{AreAgreed, summary_text}};

use crate::summary::ages::push_ages;
use crate::summary::enough::{Enough, enough_of};
use crate::summary::object::object_of;
use crate::summary::turns::push_turns;
use crate::summary::words::Wording;
use dr_entry::AgeEnd;
use dr_script::Script;
use dr_text::{Last, push_last};
use dr_words::Mask;
use std::alloc::{AllocError, Global};

/// The summary of a run of a script in this wording: these members are late, these are its ages, each of whose
/// members agree, and its last line.
pub(crate) fn summary_by(
    alloc: Global,
    wording: Wording,
    script: &Script,
    late: Mask,
    ages: &[AgeEnd],
    last: &Last,
) -> Result<String, AllocError>
    requires ranges { HasRanges script.now }
    requires agreed { AreAgreed ages.now }
    ensures { IfOk result
        (λ text. string_bytes text ≡ summary_by wording script.now late ages.now last.now) }
{
    let enough = enough_of(script, late, ages);
    match wording {
        Wording::People => summary_of(alloc, script, enough, ages, last),
        Wording::Programs => object_of(alloc, script, enough, ages, last),
    }
}

/// The summary of a run of a script: so many turns would have been enough for it, these are its ages, each of whose
/// members agree, and its last line.
fn summary_of(
    alloc: Global,
    script: &Script,
    enough: Enough,
    ages: &[AgeEnd],
    last: &Last,
) -> Result<String, AllocError>
    requires { AreAgreed ages.now }
    ensures { IfOk result (λ text. string_bytes text ≡ summary_text script.now enough ages.now last.now) }
{
    let mut text = String::new(alloc);
    push_ages(alloc, &mut text, script, ages)?;
    push_turns(&mut text, enough)?;
    push_last(&mut text, last)?;
    Ok(text)
}
