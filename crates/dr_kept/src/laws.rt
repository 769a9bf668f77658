//! Laws of ages that come one after the other.
ghost use Rattle.std.specs.Prelude.{◌≡◌, ◌≤◌, ◌+◌, [], ℕ, false, length, List, map, Option, slice_get, Some, take};
ghost use Rattle.dr_entry.specs.declared.entry.Entry.{Entry};
ghost use Rattle.dr_history.specs.{Agreement.accounts_of, History.IsPrefixOf, Members.has, Order.first_entries};
ghost use Rattle.dr_history.specs.{Restarting.Kept, Soundness.whole_roster};
ghost use Rattle.dr_log_bytes.specs.Content.{OnLog};
ghost use Rattle.dr_machine.specs.{Group.{IsGroup, IsPresent}, Run.IsReached, World.World};
ghost use Rattle.dr_program.specs.{Program.{Program, end_at}, Reading.world};
ghost use Rattle.dr_restart.specs.{Groups.{first_group_of, group_of}, Left.{AreLeft, IsLeftByOther}};
ghost use Rattle.dr_restart.specs.{Refusing.{IsRefusedFor, Refusal, Refusal.AgesUsedUp}, Trying.IsTry};
ghost use Rattle.dr_restart.specs.declared.{lists.{Attempt.Attempt, LogLists.LogLists}, start.Start.Start};
ghost use Rattle.dr_script.specs.{Ranges.HasGroupRanges, declared.script.Script.Script};
ghost use Rattle.dr_words.specs.Masks.{IsMajorityOf};
ghost use Rattle.dr_quorum.specs.Handing.{handed_by};
ghost use Rattle.dr_quorum_laws.specs.Holding.{AreSoundTries, HaveNoLaterVotes, HoldSince};
ghost use Rattle.dr_quorum_laws.specs.Lasting.{AreLasting, HoldSinceAge};
ghost use Rattle.dr_opening.specs.{Lists.all_as_lists, Tries.{AreAmong, IsChosenOf}};
ghost use Rattle.dr_kept.specs.{Lasting.HasLeftLogs, Leaving.{AreLeftFrom, IsAgeOfChoice}};

/// An age that began with what was chosen of some logs is one of a group, in a world that is reached, and more
/// than half of the roster is there in it. Wherever its members stop, the logs of all members of the roster are
/// such as it may leave, if those that were missing are; so they hold with no tries. And where that age was
/// opened by a try on logs that held since an earlier one, those that were missing are.
pub fn ages_leave_what_holds()
    ensures reached { (script : Script) (start : Start) (nth : ℕ) (found : List (Option OnLog)) (p : Program)
        → HasGroupRanges script → 1 ≤ script.turns → IsAgeOfChoice script start nth found p
        → IsGroup (group_of script start)
        × IsReached (group_of script start) (world (group_of script start) p)
        × IsMajorityOf start.present (whole_roster (group_of script start).opening) }
    ensures left { (script : Script) (start : Start) (nth : ℕ) (found after : List (Option OnLog)) (p : Program)
        (logs : List LogLists) → HasGroupRanges script → 1 ≤ script.turns
        → IsAgeOfChoice script start nth found p → AreLeftFrom start found p after
        → length logs ≡ script.members → AreAmong after logs
        → ((m : ℕ) (log : LogLists) → ¬ IsPresent (group_of script start) m → slice_get logs m ≡ Some log
        → IsLeftByOther (group_of script start) log)
        → AreLeft (group_of script start) (world (group_of script start) p) logs
        × HoldSince (group_of script start) (world (group_of script start) p) logs [] logs }
    ensures behind { (script : Script) (earlier : Start) (w : World) (choice before opened logs : List LogLists)
        (tries : List Attempt) (try : Attempt) (nth : ℕ) (found after : List (Option OnLog)) (p : Program)
        → HasGroupRanges script → 1 ≤ script.turns → IsGroup (group_of script earlier)
        → IsReached (group_of script earlier) w
        → IsMajorityOf earlier.present (whole_roster (group_of script earlier).opening)
        → AreLeft (group_of script earlier) w choice → HoldSince (group_of script earlier) w choice tries before
        → AreSoundTries (group_of script earlier).opening tries → HaveNoLaterVotes earlier.age before
        → IsTry (group_of script earlier).opening before opened try
        → IsAgeOfChoice script try.start nth found p → AreLeftFrom try.start found p after
        → length logs ≡ script.members → AreAmong after logs
        → ((m : ℕ) → has try.set m ≡ false → slice_get logs m ≡ slice_get opened m)
        → AreLeft (group_of script try.start) (world (group_of script try.start) p) logs
        × HoldSince (group_of script try.start) (world (group_of script try.start) p) logs [] logs }
{}

/// An age of a script that opened on logs on which entries lasted, whichever others were missing, has begun with these.
/// Wherever its members stop, the logs hold since it; the entries still last, and so does what any member of it knew to
/// be durable.
pub fn ages_keep_what_lasts()
    ensures begins { (script : Script) (start : Start) (nth : ℕ) (p : Program) (es : List Entry)
        (before logs : List LogLists) → HasLeftLogs script start nth p before logs → AreLasting script es before
        → IsPrefixOf es start.entries }
    ensures since { (script : Script) (start : Start) (nth : ℕ) (p : Program) (es : List Entry)
        (before logs : List LogLists) → HasLeftLogs script start nth p before logs → AreLasting script es before
        → HoldSinceAge script start (world (group_of script start) p) logs }
    ensures lasts { (script : Script) (start : Start) (nth : ℕ) (p : Program) (es : List Entry)
        (before logs : List LogLists) → HasLeftLogs script start nth p before logs → AreLasting script es before
        → AreLasting script es logs }
    ensures durable { (script : Script) (start : Start) (nth : ℕ) (p : Program) (es : List Entry)
        (before logs : List LogLists) (m : ℕ) → HasLeftLogs script start nth p before logs
        → AreLasting script es before → IsPresent (group_of script start) m
        → AreLasting script (take (accounts_of (map end_at p.members) m).durable
        (accounts_of (map end_at p.members) m).history) logs }
{}

/// Where the same logs are there again behind an age, the next one keeps what it has delivered durably, begins with
/// all that its histories began with, and has the next number.
pub fn kept_from_age_to_age()
    ensures kept { (script : Script) (start next : Start) (nth : ℕ) (found after : List (Option OnLog)) (p : Program)
        → HasGroupRanges script → 1 ≤ script.turns → IsAgeOfChoice script start nth found p
        → AreLeftFrom start found p after → IsChosenOf (first_group_of script).opening after next
        → Kept (group_of script start).opening (accounts_of (map end_at p.members))
        (group_of script next).opening }
    ensures begins { (script : Script) (start next : Start) (nth : ℕ) (found after : List (Option OnLog)) (p : Program)
        → HasGroupRanges script → 1 ≤ script.turns → IsAgeOfChoice script start nth found p
        → AreLeftFrom start found p after → IsChosenOf (first_group_of script).opening after next
        → IsPrefixOf (first_entries (group_of script start).opening) next.entries }
    ensures numbered { (script : Script) (start next : Start) (nth : ℕ) (found after : List (Option OnLog)) (p : Program)
        → HasGroupRanges script → 1 ≤ script.turns → IsAgeOfChoice script start nth found p
        → AreLeftFrom start found p after → IsChosenOf (first_group_of script).opening after next
        → next.age ≡ start.age + 1 }
{}

/// And what is on them then is refused only behind the last age, because no number is left.
pub fn later_ages_lack_a_number_alone()
    ensures { (script : Script) (start : Start) (nth : ℕ) (found after : List (Option OnLog)) (p : Program)
        (why : Refusal) → HasGroupRanges script → 1 ≤ script.turns → IsAgeOfChoice script start nth found p
        → AreLeftFrom start found p after
        → IsRefusedFor (first_group_of script).opening (handed_by (all_as_lists after)) why
        → (why ≡ AgesUsedUp) × (start.age ≡ 65535) }
{}
