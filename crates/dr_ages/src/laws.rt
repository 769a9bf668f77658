//! Laws of ages, and of the disks that they leave.
ghost use Rattle.std.specs.Prelude.{◌≡◌, ◌≢◌, ◌<◌, ℕ, false, List, [], ◌∷◌, ◌++◌, Option, Some, IsSomeAnd, slice_get, take};
ghost use Rattle.dr_play.specs.Logged.{NoneStopped};
ghost use Rattle.dr_complete.specs.Time.{HasTime};
ghost use Rattle.dr_disk.specs.{Calls.at_rest, Disk.state_of};
ghost use Rattle.dr_entry.specs.declared.{end.{AgeEnd.AgeEnd, MemberEnd.MemberEnd}, entry.Entry.Entry};
ghost use Rattle.dr_history.specs.{History.IsPrefixOf, Members.has, Soundness.IsNobodyLate};
ghost use Rattle.dr_log_bytes.specs.Content.{OnLog};
ghost use Rattle.dr_machine.specs.{Group.{AllPresent, IsGroup}, World.World};
ghost use Rattle.dr_opening.specs.Tries.{content_at};
ghost use Rattle.dr_program.specs.Program.{Program};
ghost use Rattle.dr_program_laws.specs.Ended.{AreComplete};
ghost use Rattle.dr_quorum_laws.specs.Lasting.{HoldSinceAge};
ghost use Rattle.dr_restart.specs.{Groups.group_of, declared.{lists.LogLists.LogLists, start.Start.Start}};
ghost use Rattle.dr_script.specs.{Ranges.HasRanges, declared.script.Script.Script};
ghost use Rattle.dr_sim.specs.Simulated.{IsSimulated};
ghost use Rattle.dr_yard.specs.Yards.{YardState};
ghost use Rattle.dr_ages.specs.{Ages.{IsAgeOf, NamesNobody, start_of}, Crashed.HaveCrashed};
ghost use Rattle.dr_ages.specs.{Fit.{AreChosen, AreFit, AreInStep, AreLastingOn}, Lasting.HasEndedIn, Runs.IsRunOf};
ghost use Rattle.dr_ages.specs.declared.{mode.Mode.Mode, part.Part.Part, stop.Stop.{Stop, TheVariants.OutOfMemory}};

/// In a simulated age of a script that gives its members time enough, from which nobody is absent, in which nobody
/// is late, and of which no log failed, all members are complete.
pub fn timely_ages_complete()
    ensures { (script : Script) (start : Start) (nth : ℕ) (age : AgeEnd) (over : Program)
        → IsGroup (group_of script start) → AllPresent (group_of script start)
        → IsNobodyLate (group_of script start).opening → HasRanges script
        → IsSimulated script start nth age over → HasTime script → NoneStopped age.members
        → AreComplete (group_of script start).opening age.members }
{}

/// Disks that were never written are fit for every script, and in step. And behind a crash fit disks are fit, and those
/// in step are in step, whichever of their images it leaves.
pub fn fit_disks_outlive_crashes()
    ensures begins { (script : Script) (yard : YardState)
        → ((m : ℕ) → m < script.members → IsSomeAnd (yard.told m) (λ t. state_of t ≡ at_rest []))
        → AreFit script yard × AreInStep script yard }
    ensures keeps { (script : Script) (before after : YardState) → AreFit script before
        → HaveCrashed script.members before after → AreFit script after }
    ensures in_step { (script : Script) (before after : YardState) → AreInStep script before
        → HaveCrashed script.members before after → AreInStep script after }
{}

/// What lasts on the disks of a script lasts behind each run of it, whichever logs this one misses, unless memory was
/// wanting; so does all that a member of one of its ages knew to be durable; and it lasts behind a crash, whatever
/// this leaves. There each start of a run, whichever logs that one misses, begins with what lasts. So whatever
/// somebody knew to be durable is kept through any list of runs and crashes. For the logs hold since the last age.
pub fn durable_entries_outlive_runs()
    ensures lasts { (script : Script) (part : Part) (mode : Mode) (before after : YardState) (ages : List AgeEnd)
        (stop : Option Stop) (es : List Entry) → HasRanges script → AreLastingOn script es before
        → IsRunOf script part mode before after ages stop → stop ≢ Some OutOfMemory
        → AreLastingOn script es after }
    ensures durable { (script : Script) (part : Part) (mode : Mode) (before after : YardState)
        (ages : List AgeEnd) (stop : Option Stop) (i m : ℕ) (age : AgeEnd) (e : MemberEnd) → HasRanges script
        → AreFit script before → IsRunOf script part mode before after ages stop → stop ≢ Some OutOfMemory
        → slice_get ages i ≡ Some age → slice_get age.members m ≡ Some e
        → AreLastingOn script (take e.durable e.history) after }
    ensures crashed { (script : Script) (before after : YardState) (es : List Entry)
        → AreLastingOn script es before → HaveCrashed script.members before after → AreLastingOn script es after }
    ensures begins { (script : Script) (part : Part) (mode : Mode) (mid before after : YardState)
        (ages : List AgeEnd) (stop : Option Stop) (es : List Entry) (i : ℕ) (age : AgeEnd) → HasRanges script
        → AreLastingOn script es mid → HaveCrashed script.members mid before
        → IsRunOf script part mode before after ages stop → slice_get ages i ≡ Some age
        → IsPrefixOf es age.start }
    ensures since { (script : Script) (part : Part) (mode : Mode) (before after : YardState)
        (earlier : List AgeEnd) (age : AgeEnd) (stop : Option Stop) → HasRanges script → AreFit script before
        → IsRunOf script part mode before after (earlier ++ age ∷ []) stop → stop ≢ Some OutOfMemory
        → (w : World) × HasEndedIn part age w
        × ((logs : List LogLists) → AreChosen script.members after logs
        → HoldSinceAge script (start_of script part age) w logs) }
{}

/// A run over disks that a crash has left, behind another run of the script, begins with all that any member had
/// logged in the last age of that one, where its log is missing in neither: if that one has left them in step; or if
/// it was a run over fit disks, in which memory wasn't wanting.
pub fn runs_outlive_crashes()
    ensures in_step { (script : Script) (part apart : Part) (mode other : Mode) (before mid after end : YardState)
        (earlier ages : List AgeEnd) (age next : AgeEnd) (stop ends : Option Stop) (m : ℕ) (e : MemberEnd)
        → IsRunOf script part mode before mid (earlier ++ age ∷ []) stop
        → slice_get age.members m ≡ Some e → m < script.members → has part.missing m ≡ false
        → has apart.missing m ≡ false → AreInStep script mid → HaveCrashed script.members mid after
        → IsRunOf script apart other after end (next ∷ ages) ends
        → IsPrefixOf (take e.logged e.history) next.start }
    ensures fit { (script : Script) (part apart : Part) (mode other : Mode) (before mid after end : YardState)
        (earlier ages : List AgeEnd) (age next : AgeEnd) (stop ends : Option Stop) (m : ℕ) (e : MemberEnd)
        → HasRanges script → AreFit script before → IsRunOf script part mode before mid (earlier ++ age ∷ []) stop
        → stop ≢ Some OutOfMemory → slice_get age.members m ≡ Some e → has part.missing m ≡ false
        → has apart.missing m ≡ false → HaveCrashed script.members mid after
        → IsRunOf script apart other after end (next ∷ ages) ends
        → IsPrefixOf (take e.logged e.history) next.start }
{}

/// Over disks in step of which none is missing an age starts with all that is on the logs: each is a front of its
/// start.
pub fn ages_in_step_start_with_all()
    ensures { (script : Script) (part : Part) (mode : Mode) (nth : ℕ) (before after : YardState) (age : AgeEnd)
        (m : ℕ) (c : OnLog) → HasRanges script → NamesNobody script.members part.missing → AreInStep script before
        → (is : IsAgeOf script part mode nth before after age) → content_at is.contents m ≡ Some c
        → IsPrefixOf c.entries age.start }
{}
