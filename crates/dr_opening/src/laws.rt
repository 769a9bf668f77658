//! Laws of openings: wherever one stops it is a try, and tries keep what was durable.
ghost use Rattle.std.specs.Prelude.{◌≡◌, ◌++◌, ◌∷◌, ◌<◌, ◌≤◌, [], ℕ, Bool, List, Option, Some, is_some, length, true};
ghost use Rattle.dr_entry.specs.declared.entry.Entry.{Entry};
ghost use Rattle.dr_entry.specs.declared.limits.TheConstants.{MAX_MEMBERS};
ghost use Rattle.dr_history.specs.{History.IsPrefixOf, Restarting.AreAllAlong, Soundness.whole_roster};
ghost use Rattle.dr_history.specs.declared.opening.Opening.{Opening};
ghost use Rattle.dr_log.specs.Standing.{HasAllOf};
ghost use Rattle.dr_log_bytes.specs.Content.{OnLog};
ghost use Rattle.dr_machine.specs.{Group.IsGroup, Run.IsReached, World.World};
ghost use Rattle.dr_restart.specs.{Choosing.{IsChosenStart, of_set}, Left.{AreLeft, entries_on_logs}, Trying.IsTry};
ghost use Rattle.dr_restart.specs.{Groups.{first_group_of, group_of}, declared.start.Start.Start as StartOf};
ghost use Rattle.dr_restart.specs.declared.lists.{Attempt.Attempt as AttemptOf, LogLists.LogLists as LogListsOf};
ghost use Rattle.dr_words.specs.Masks.{IsMajorityOf};
ghost use Rattle.dr_quorum_laws.specs.Holding.{HoldSince, IsKeptBy, IsLongestHistory};
ghost use Rattle.dr_opening.specs.Contents.{IsRising, IsVoting, voted_for};
ghost use Rattle.dr_opening.specs.Tries.{AreAmong, HasStoppedSo, IsChosenOf, IsToldBy, content_at, try_of};

use dr_quorum_laws::{
    all_logs_give_the_longest, choices_go_by_messages, held_by_try, kept_by_majority,
};
use dr_restart::{Attempt, LogLists, Start};
use dr_script::Script;
use dr_words::Mask;

/// Wherever an opening stops, in either phase, it is a try: the one that its logs tell.
pub fn openings_are_tries()
    ensures told { (o : Opening) (contents : List (Option OnLog)) (before after : List LogListsOf)
        (try : AttemptOf) → length o.messages ≤ MAX_MEMBERS → IsChosenOf o contents try.start
        → AreAmong contents before → HasStoppedSo try.start contents before after → IsToldBy after try
        → IsTry o before after try }
    ensures some { (o : Opening) (contents : List (Option OnLog)) (before after : List LogListsOf)
        (start : StartOf) → length o.messages ≤ MAX_MEMBERS → IsChosenOf o contents start
        → AreAmong contents before → HasStoppedSo start contents before after
        → (opened : Bool) × IsTry o before after (try_of start opened) }
{}

/// No log ever loses a vote or an age vote in an opening, nor of its entries what it has in common with the start.
pub fn openings_lose_nothing_common()
    ensures voting { (start : StartOf) (first c now : OnLog) → HasAllOf first c → IsVoting start c now
        → HasAllOf first now }
    ensures rising { (start : StartOf) (first c now : OnLog) → HasAllOf first c
        → IsPrefixOf first.entries start.entries → IsRising start (voted_for start c) now → HasAllOf first now }
{}

/// Where no log is missing, and of any two of them one is a front of the other, none is cut: each is a front of the
/// start.
pub fn whole_openings_cut_nothing()
    ensures { (o : Opening) (contents : List (Option OnLog)) (lists : List LogListsOf) (start : StartOf)
        → length o.messages ≤ MAX_MEMBERS → IsChosenOf o contents start → AreAmong contents lists
        → length lists ≡ length contents
        → ((m : ℕ) → m < length contents → is_some (content_at contents m) ≡ true)
        → AreAllAlong (entries_on_logs lists)
        → (m : ℕ) (c : OnLog) → content_at contents m ≡ Some c → IsPrefixOf c.entries start.entries }
{
    all_logs_give_the_longest();
}

/// Where logs hold since an age, and an opening stops anywhere that chose its start of some of them, they hold
/// with that try more. And whatever the next start is chosen of then, it keeps what was durable. So it is however
/// often openings stop.
pub fn openings_hold(
    script: &Script,
    start: &Start,
    choice: &[LogLists],
    earlier: &[Attempt],
    before: &[LogLists],
    after: &[LogLists],
    added: &Attempt,
    tries: &[Attempt],
    handed: Mask,
)
    requires group { IsGroup (group_of script.now start.now) }
    requires majority { IsMajorityOf start.now.present
        (whole_roster (group_of script.now start.now).opening) }
    requires tries { tries.now ≡ earlier.now ++ added.now ∷ [] }
    ensures held { (w : World) (contents : List (Option OnLog)) → IsReached (group_of script.now start.now) w
        → AreLeft (group_of script.now start.now) w choice.now
        → HoldSince (group_of script.now start.now) w choice.now earlier.now before.now
        → IsChosenOf (first_group_of script.now).opening contents added.now.start
        → AreAmong contents before.now → HasStoppedSo added.now.start contents before.now after.now
        → IsToldBy after.now added.now
        → HoldSince (group_of script.now start.now) w choice.now tries.now after.now }
    ensures kept { (w : World) (contents : List (Option OnLog)) (next : StartOf)
        → IsReached (group_of script.now start.now) w
        → AreLeft (group_of script.now start.now) w choice.now
        → HoldSince (group_of script.now start.now) w choice.now earlier.now before.now
        → IsChosenOf (first_group_of script.now).opening contents added.now.start
        → AreAmong contents before.now → HasStoppedSo added.now.start contents before.now after.now
        → IsToldBy after.now added.now
        → IsChosenStart (group_of script.now start.now).opening (of_set after.now handed) next
        → (history : List Entry) × IsLongestHistory (group_of script.now start.now) w history
        × IsKeptBy (group_of script.now start.now) w history tries.now next }
{
    choices_go_by_messages();
    held_by_try(script, start, choice, earlier, before, after, added);
    kept_by_majority(script, start, choice, tries, after, handed);
}
