//! A law of simulations.
ghost use Rattle.std.specs.Prelude.{ℕ};
ghost use Rattle.dr_machine.specs.Group.{IsGroup};
ghost use Rattle.dr_restart.specs.{Groups.group_of, declared.start.Start.Start};
ghost use Rattle.dr_script.specs.{Ranges.HasRanges, declared.script.Script.Script};
ghost use Rattle.dr_sim.specs.Repeated.{IsRepeated};

use dr_restart::setups_are_of_the_group;

/// Where no log ends a member, a script, a start and the number of an age leave a simulation no choice: it
/// comes to one end alone.
pub fn simulations_repeat()
    ensures { (script : Script) (start : Start) (nth : ℕ) → HasRanges script
        → IsGroup (group_of script start) → IsRepeated script start nth }
{
    setups_are_of_the_group();
}
