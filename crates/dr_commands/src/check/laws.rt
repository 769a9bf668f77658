//! Laws of the reports that are printed.
ghost use Rattle.std.specs.Prelude.{◌≡◌, ◌↔◌, ℕ, List, [], ◌∷◌, Contains, Option, Some};
ghost use Rattle.dr_ages.specs.{Runs.IsRunOf, declared.{mode.Mode.Mode, part.Part.Part, stop.Stop.Stop}};
ghost use Rattle.dr_entry.specs.declared.end.AgeEnd.{AgeEnd};
ghost use Rattle.dr_intake.specs.Status.{status_of};
ghost use Rattle.dr_outcome.specs.{Last.last_of, Outcome.{Plays, outcome_text}, Playing.Playing};
ghost use Rattle.dr_outcome.specs.declared.outcome.Outcome.{Outcome as OutcomeOf};
ghost use Rattle.dr_script.specs.{Ranges.HasRanges, Reading.{Reads, reading_of}, declared.script.Script.Script};
ghost use Rattle.dr_text.specs.{Report.report_text, declared.last.Last.{Last as LastOf, TheVariants.Right}};
ghost use Rattle.dr_yard.specs.Yards.{AllTell, YardState};
ghost use Rattle.dr_commands.specs.Check.{DisksTell, HandsIn, IsChecked, IsJudgedRight, TellsVerdict};

/// The report of a run over disks that tell is right, where its last line has status 0, 8 or 9.
pub fn runs_are_right()
    ensures { (script : Script) (part : Part) (mode : Mode) (before after : YardState) (ages : List AgeEnd)
        (stop : Option Stop) (last : LastOf) → HasRanges script → AllTell script.members before
        → IsRunOf script part mode before after ages stop → last_of ages stop ≡ Some last
        → Contains (0 ∷ 8 ∷ 9 ∷ []) (status_of last) → TellsVerdict script (report_text ages last) Right }
{}

/// Whatever is printed of a script that was played over disks that tell is judged right, where its last line
/// has status 0, 8 or 9.
pub fn played_scripts_are_judged_right()
    ensures { (play : Playing) (bytes : List ℕ) (before after : YardState) (o : OutcomeOf) (last : LastOf)
        → Plays play bytes before after o → o.last ≡ Some last
        → Contains (0 ∷ 8 ∷ 9 ∷ []) (status_of last)
        → ((script : Script) → reading_of bytes ≡ Reads script → DisksTell play.folder script.members before)
        → IsJudgedRight bytes (outcome_text o last) }
{}

/// Of a text that is judged right, handed in with its script, a check says that it is, and nothing else.
pub fn checks_tell_what_is_right()
    ensures { (bytes script text : List ℕ) (last : LastOf) → HandsIn bytes script text
        → IsJudgedRight script text → IsChecked bytes last ↔ (last ≡ Right) }
{}
