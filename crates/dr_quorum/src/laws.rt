//! Laws of what is chosen.
ghost use Rattle.std.specs.Prelude.{All};
ghost use Rattle.dr_entry.specs.Spelling.{IsValidEntry};
ghost use Rattle.dr_restart.specs.{Choosing.{Handed, IsChosenStart}, Groups.first_group_of};
ghost use Rattle.dr_restart.specs.declared.start.Start.{Start};
ghost use Rattle.dr_script.specs.{Ranges.HasGroupRanges, declared.script.Script.Script};

/// The entries of a start that logs make can be written on a log.
pub fn chosen_entries_are_valid()
    ensures { (script : Script) (h : Handed) (start : Start) → HasGroupRanges script
        → IsChosenStart (first_group_of script).opening h start → All IsValidEntry start.entries }
{}
