//! The start of a group of which some members are late.
ghost use Rattle.std.specs.Prelude.{◌≡◌, ◌-◌, ◌^◌, ◌<◌};
ghost use Rattle.dr_machine.specs.Group.{IsGroup};
ghost use Rattle.dr_restart.specs.Groups.{first_start_of, group_of};
ghost use Rattle.dr_script.specs.Ranges.{HasGroupRanges};

use dr_restart::{Start, first_start};
use dr_script::Script;
use dr_words::Mask;
use std::alloc::Global;

/// The start of a new group of which the last so many members are late: they are there, and not in View 0.
pub fn start_with(alloc: Global, script: &Script, late: u8) -> Start
    requires ranges { HasGroupRanges script.now }
    requires prompt { late < script.now.members }
    ensures start { result ≡ record (first_start_of script.now) { members = 2 ^ (script.now.members - late) - 1 } }
    ensures group { IsGroup (group_of script.now result) }
{
    let mut start = first_start(alloc, script);
    start.members = Mask::all(script.members - late).bits();
    start
}
