//! Who takes part in a run.

ghost use Rattle.std.specs.Prelude.{◌≡◌};
ghost use Rattle.dr_ages.specs.Ages.{all_but, all_with};

use dr_words::Mask;

/// Who takes part in the ages of a run, and from when on. Numbers of members that are not in the roster name
/// nobody.
#[derive(Clone, Copy, Debug, PartialEq, Eq)]
pub struct Part {
    /// Those whose logs the run does without: nothing is asked of their disks, and all others take part.
    pub missing: Mask,
    /// Those of the others that are in no View 0: they wait until members wish for them.
    pub late: Mask,
}

impl Part {
    /// All members, from the first view on.
    pub fn everybody() -> Part
        ensures { result ≡ all_but 0 }
    {
        Part::with_late(Mask::empty())
    }

    /// All members, of whom these are late.
    pub fn with_late(late: Mask) -> Part
        ensures { result ≡ all_with late }
    {
        Part {
            missing: Mask::empty(),
            late,
        }
    }
}
