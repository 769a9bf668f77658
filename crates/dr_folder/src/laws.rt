//! That a run over disks comes to what is foretold of files with their bytes.
ghost use Rattle.std.specs.Prelude.{◌≡◌, ℕ, List, Option};
ghost use Rattle.dr_log_bytes.specs.Content.{OnLog};
ghost use Rattle.dr_opening.specs.Tries.{IsChosenOf};
ghost use Rattle.dr_restart.specs.{Groups.first_group_of, declared.start.Start.Start};
ghost use Rattle.dr_script.specs.declared.script.Script.{Script};
ghost use Rattle.dr_text.specs.declared.last.Last.TheVariants as lasts;
ghost use Rattle.dr_yard.specs.Yards.{YardState};
ghost use Rattle.dr_ages.specs.declared.stop.Stop.TheVariants as stops;
ghost use Rattle.dr_ages.specs.Refused.{AreRead, IsRefusal};
ghost use Rattle.dr_folder.specs.{Foretold.{IsBarred, IsForetold}, Held.HoldFiles, declared.file.LogFile.LogFile};

/// A law: where the disks of a yard have the bytes of files, what is foretold of these files is what the contract of
/// `run_ages` says of a run over the disks in which no log is missing and nobody is late. What the logs read as makes
/// the next age start so; and what a run over the files is refused by is what the logs on the disks are refused for,
/// which is what such a run stops by, with no age, unless memory is wanting or a disk fails before
/// (`IsRightlyRefused`, by `due`).
pub fn verdicts_are_the_runs()
    ensures start { (script : Script) (files : List LogFile) (yard : YardState) (start : Start)
        → HoldFiles yard files → IsForetold script files start
        → (contents : List (Option OnLog)) × AreRead script.members 0 yard contents
        × IsChosenOf (first_group_of script).opening contents start × (start.members ≡ start.present) }
    ensures damaged { (script : Script) (files : List LogFile) (yard : YardState) (member at : ℕ)
        → HoldFiles yard files → IsBarred script files (lasts.Damaged member at)
        → IsRefusal script 0 yard (stops.Damaged member at) }
    ensures foreign { (script : Script) (files : List LogFile) (yard : YardState) (member place : ℕ)
        → HoldFiles yard files → IsBarred script files (lasts.Foreign member place)
        → IsRefusal script 0 yard (stops.Foreign member place) }
    ensures no_quorum { (script : Script) (files : List LogFile) (yard : YardState) (view : Option ℕ)
        (have need : ℕ) → HoldFiles yard files → IsBarred script files (lasts.NoQuorum view have need)
        → IsRefusal script 0 yard (stops.NoQuorum view have need) }
    ensures disagree { (script : Script) (files : List LogFile) (yard : YardState) (a b place : ℕ)
        → HoldFiles yard files → IsBarred script files (lasts.Disagree a b place)
        → IsRefusal script 0 yard (stops.Disagree a b place) }
    ensures used_up { (script : Script) (files : List LogFile) (yard : YardState)
        → HoldFiles yard files → IsBarred script files lasts.AgesUsedUp
        → IsRefusal script 0 yard stops.AgesUsedUp }
{}
