ghost use Rattle.std.specs.Prelude.{◌≡◌, IfOk};
ghost use Rattle.dr_machine.specs.Group.{AllPresent, IsGroup};
ghost use Rattle.dr_script.specs.Ranges.{HasGroupRanges};
ghost use Rattle.dr_restart.specs.Groups.{first_start_of, first_group_of};

use crate::copies::copy_entries;
use dr_entry::{Entry, Seq};
use dr_script::Script;
use dr_words::Mask;
use std::alloc::{AllocError, Global};

/// What an age starts with: what came out of the logs, and who takes part.
#[derive(Debug, PartialEq, Eq, Drop)]
pub struct Start {
    /// The number of the age.
    pub age: u16,
    /// The members of View 0, as a mask.
    pub members: u16,
    /// The members that take part in the age, as a mask.
    pub present: u16,
    /// The entries that every history begins with, before View 0.
    pub entries: Seq<Entry>,
}

impl Start {
    /// An equal start.
    ///
    /// # Errors
    ///
    /// Want of memory alone.
    pub fn copy(&self, alloc: Global) -> Result<Start, AllocError>
        ensures { IfOk result (λ copy. copy ≡ self.now) }
    {
        Ok(Start {
            age: self.age,
            members: self.members,
            present: self.present,
            entries: copy_entries(alloc, &self.entries)?,
        })
    }
}

/// The start of a new group: age 0, the whole roster, and no entries.
pub fn first_start(alloc: Global, script: &Script) -> Start
    requires { HasGroupRanges script.now }
    ensures start { result ≡ first_start_of script.now }
    ensures group { IsGroup (first_group_of script.now) }
    ensures present { AllPresent (first_group_of script.now) }
{
    let roster = Mask::all(script.members).bits();
    Start {
        age: 0,
        members: roster,
        present: roster,
        entries: Seq::of(Vec::new(alloc)),
    }
}
