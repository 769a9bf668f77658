ghost use Rattle.std.specs.Prelude.{◌≡◌, ◌≤◌};
ghost use Rattle.dr_entry.specs.declared.limits.TheConstants.{MAX_MEMBERS};
ghost use Rattle.dr_script.specs.Ranges.{HasRanges};
ghost use Rattle.dr_tools.specs.Summary.{enough_of, is_nobody_late, is_undisturbed};

use crate::summary::turns::{most_turns, some_spent};
use dr_complete::turns_enough;
use dr_entry::AgeEnd;
use dr_script::{Schedule, Script};
use dr_words::Mask;

/// How many turns would have been enough for a run, as far as that is known.
#[derive(Clone, Copy, Debug, PartialEq, Eq)]
pub(crate) enum Enough {
    /// As nobody has spent its own, so many for the same run.
    ForRun(u32),
    /// As it was one in lockstep without faults, so many for each such run.
    InLockstep(usize),
    /// Of other runs in which somebody has spent its own nothing is known.
    Unknown,
}

/// How many turns would have been enough for a run of the script with these ages, in which these members are late.
pub(crate) fn enough_of(script: &Script, late: Mask, ages: &[AgeEnd]) -> Enough
    requires { HasRanges script.now }
    ensures { result ≡ enough_of script.now late ages.now }
{
    if !some_spent(ages) {
        Enough::ForRun(most_turns(ages))
    } else if is_undisturbed(script, late) {
        Enough::InLockstep(turns_enough(script))
    } else {
        Enough::Unknown
    }
}

/// Whether a script is in lockstep without faults, and none of its members is late.
fn is_undisturbed(script: &Script, late: Mask) -> bool
    requires { HasRanges script.now }
    ensures { result ≡ is_undisturbed script.now late }
{
    script.faults.as_slice().is_empty()
        && is_nobody_late(script.members, late)
        && matches!(script.schedule, Schedule::Lockstep)
}

/// Whether none of so many members is late.
fn is_nobody_late(members: u8, late: Mask) -> bool
    requires some { 1 ≤ members }
    requires most { members ≤ MAX_MEMBERS }
    ensures { result ≡ is_nobody_late members late }
{
    let all = Mask::all(members);
    all.without(late).bits() == all.bits()
}
