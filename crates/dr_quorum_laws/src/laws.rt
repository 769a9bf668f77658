//! Laws of restarts from a majority.
ghost use Rattle.std.specs.Prelude.{◌≡◌, ◌<◌, ◌≤◌, true, false, ℕ, List, [], ◌∷◌, ◌++◌, length, Some, slice_get};
ghost use Rattle.dr_entry.specs.{declared.entry.Entry.Entry, declared.record.{Value.Value, Vote.Vote}};
ghost use Rattle.dr_history.specs.{History.IsPrefixOf, Restarting.{AllStand, AreAllAlong, IsLongest, Kept}};
ghost use Rattle.dr_history.specs.{Members.has, Soundness.{Sound, whole_roster}, declared.opening.Opening.Opening};
ghost use Rattle.dr_machine.specs.{Group.{Group, IsGroup}, Run.{IsReached, accounts_in}};
ghost use Rattle.dr_machine.specs.{Votes.{HasLogged, IsOf, MajorityHas}, World.World};
ghost use Rattle.dr_restart.specs.{Choosing.{Handed, IsChosenStart, of_set}, Groups.{first_group_of, group_of}};
ghost use Rattle.dr_restart.specs.Left.{AreLeft, IsLeftByOther, entries_on_logs, votes_on_logs};
ghost use Rattle.dr_restart.specs.{Refusing.{IsRefusedFor, Refusal, Refusal.AgesUsedUp}, Trying.{IsTry, opened_by}};
ghost use Rattle.dr_restart.specs.declared.lists.{Attempt.Attempt as AttemptOf, LogLists.LogLists as LogListsOf};
ghost use Rattle.dr_restart.specs.declared.start.Start.{Start as StartOf};
ghost use Rattle.dr_script.specs.{Ranges.HasGroupRanges, declared.script.Script.Script as ScriptOf};
ghost use Rattle.dr_vote_laws.specs.Voting.{HaveVotedFor};
ghost use Rattle.dr_words.specs.Masks.{IsMajorityOf};
ghost use Rattle.dr_world_laws.specs.Views.{HasView};
ghost use Rattle.dr_quorum_laws.specs.Holding.{AreSoundTries, HaveNoLaterVotes, HoldSince, IsKeptBy, IsLongestHistory};
ghost use Rattle.dr_quorum_laws.specs.{Lasting.{AreDurableIn, AreLasting}, Returning.HaveReturned};
ghost use Rattle.dr_quorum_laws.specs.Voting.{HaveMoreAgeVotes};

use dr_restart::{Attempt, LogLists, Start};
use dr_script::Script;
use dr_words::Mask;

/// Whatever votes stops leave on the logs of a group, one more on each that may have been begun, the votes of
/// a view agree on one value: votes of one ballot are equal; once more than half of a view has votes of a
/// ballot, each vote of this ballot or a higher one has the same value; and a value that a member has
/// committed has such a majority.
pub fn votes_left_are_one()
    ensures ballot { (g : Group) (w : World) (logs : List LogListsOf) (i j : ℕ) (x y : Vote) → IsGroup g
        → IsReached g w → AreLeft g w logs → HasLogged (votes_on_logs g logs) i x
        → HasLogged (votes_on_logs g logs) j y → IsOf y x.view x.ballot → x ≡ y }
    ensures majority { (g : Group) (w : World) (logs : List LogListsOf) (i j members : ℕ) (x y : Vote)
        → IsGroup g → IsReached g w → AreLeft g w logs → HasView g w x.view members
        → HasLogged (votes_on_logs g logs) i x → HasLogged (votes_on_logs g logs) j y
        → MajorityHas (votes_on_logs g logs) members (λ z. IsOf z x.view x.ballot)
        → y.view ≡ x.view → x.ballot ≤ y.ballot → y.value ≡ x.value }
    ensures committed { (g : Group) (w : World) (logs : List LogListsOf) (m : ℕ) (v : Value) → IsGroup g
        → IsReached g w → AreLeft g w logs → w.committed m ≡ Some v
        → (ballot : ℕ) × HaveVotedFor (votes_on_logs g logs) (w.members m) (w.past.view m) ballot v }
{}

/// An age may start with what logs make, whichever are missing: its entries may stand on a log, its age is
/// above that of the last View, who is there are those that have handed in their logs, and its members are some of
/// them. With a script it makes a group.
pub fn choices_are_sound()
    ensures sound { (o : Opening) (h : Handed) (start : StartOf) → IsChosenStart o h start
        → Sound (opened_by o start) }
    ensures group { (script : ScriptOf) (h : Handed) (start : StartOf) → HasGroupRanges script
        → IsChosenStart (first_group_of script).opening h start → IsGroup (group_of script start) }
{}

/// Logs make one start at most but for who are the members of its first view, or are refused for one reason at
/// most, and never both.
pub fn choices_are_one()
    ensures start { (o : Opening) (h : Handed) (one other : StartOf) → IsChosenStart o h one
        → IsChosenStart o h other → one ≡ record other { members = one.members } }
    ensures unrefused { (o : Opening) (h : Handed) (start : StartOf) (why : Refusal)
        → IsChosenStart o h start → IsRefusedFor o h why → ⊥ }
    ensures refusal { (o : Opening) (h : Handed) (one other : Refusal) → IsRefusedFor o h one
        → IsRefusedFor o h other → one ≡ other }
{}

/// What logs make goes by the roster and the messages alone, so it is the same for each age of a script.
pub fn choices_go_by_messages()
    ensures start { (o p : Opening) (h : Handed) (start : StartOf) → o.messages ≡ p.messages
        → IsChosenStart o h start → IsChosenStart p h start }
    ensures refusal { (o p : Opening) (h : Handed) (why : Refusal) → o.messages ≡ p.messages
        → IsRefusedFor o h why → IsRefusedFor p h why }
{}

/// Where no log is missing, and of any two of them one is a front of the other, the longest is chosen.
pub fn all_logs_give_the_longest()
    ensures { (o : Opening) (logs : List LogListsOf) (set : ℕ) (start : StartOf)
        → IsChosenStart o (of_set logs set) start → ((m : ℕ) → m < length logs → has set m ≡ true)
        → AreAllAlong (entries_on_logs logs) → IsLongest (entries_on_logs logs) start.entries }
{}

/// Where no log is missing, all of their entries may stand, and of any two of them one is a front of the
/// other, they are refused only where one knows the last age.
pub fn all_logs_are_enough()
    ensures { (o : Opening) (logs : List LogListsOf) (set : ℕ) (why : Refusal) → 1 ≤ length o.messages
        → length o.messages ≤ 16 → length logs ≡ length o.messages
        → ((m : ℕ) → m < length logs → has set m ≡ true)
        → ((m : ℕ) (log : LogListsOf) → slice_get logs m ≡ Some log
        → AllStand o log.entries)
        → AreAllAlong (entries_on_logs logs) → IsRefusedFor o (of_set logs set) why → why ≡ AgesUsedUp }
{}

/// Where the logs of more than half of the roster come back, those of all members of the last age's View 0 and
/// of all whom a vote of that age names among them, all of their entries may stand, and of any two of that age one
/// is a front of the other, they are refused only where one knows the last age, whichever others are missing.
pub fn returning_logs_are_enough()
    ensures { (o : Opening) (h : Handed) (why : Refusal) → length o.messages ≤ 16 → HaveReturned o h
        → IsRefusedFor o h why → why ≡ AgesUsedUp }
{}

/// In every world that a group reaches of which more than half of the roster is there, and whatever stops
/// leave of all logs, a later age that starts with what some of them make keeps what the group has delivered
/// durably.
pub fn kept_after_choice(
    script: &Script,
    start: &Start,
    choice: &[LogLists],
    handed: Mask,
    age: u16,
)
    requires group { IsGroup (group_of script.now start.now) }
    requires majority { IsMajorityOf start.now.present
        (whole_roster (group_of script.now start.now).opening) }
    requires later { start.now.age < age }
    ensures { (w : World) (chosen next : StartOf) → IsReached (group_of script.now start.now) w
        → AreLeft (group_of script.now start.now) w choice.now
        → IsChosenStart (group_of script.now start.now).opening (of_set choice.now handed) chosen
        → next.entries ≡ chosen.entries → next.age ≡ age
        → Kept (group_of script.now start.now).opening (accounts_in w) (group_of script.now next).opening }
{}

/// The logs that stops leave of such a group hold with no tries, and what a try makes of logs that hold with
/// some tries holds with this one more.
pub fn held_by_try(
    script: &Script,
    start: &Start,
    choice: &[LogLists],
    tries: &[Attempt],
    before: &[LogLists],
    after: &[LogLists],
    added: &Attempt,
)
    requires group { IsGroup (group_of script.now start.now) }
    requires majority { IsMajorityOf start.now.present
        (whole_roster (group_of script.now start.now).opening) }
    ensures first { (w : World) → IsReached (group_of script.now start.now) w
        → AreLeft (group_of script.now start.now) w choice.now
        → HoldSince (group_of script.now start.now) w choice.now [] choice.now }
    ensures tried { (w : World) → IsReached (group_of script.now start.now) w
        → AreLeft (group_of script.now start.now) w choice.now
        → HoldSince (group_of script.now start.now) w choice.now tries.now before.now
        → IsTry (group_of script.now start.now).opening before.now after.now added.now
        → HoldSince (group_of script.now start.now) w choice.now (tries.now ++ added.now ∷ []) after.now }
{}

/// Where logs hold with some tries, and those handed in make a start, this keeps what the group has delivered
/// durably, behind it may stand Views of opened tries, and its age is above that of the group and those of
/// all opened tries. So it is after any list of tries, whatever logs are missing.
pub fn kept_by_majority(
    script: &Script,
    start: &Start,
    choice: &[LogLists],
    tries: &[Attempt],
    logs: &[LogLists],
    handed: Mask,
)
    requires group { IsGroup (group_of script.now start.now) }
    requires majority { IsMajorityOf start.now.present
        (whole_roster (group_of script.now start.now).opening) }
    ensures { (w : World) (chosen : StartOf) → IsReached (group_of script.now start.now) w
        → AreLeft (group_of script.now start.now) w choice.now
        → HoldSince (group_of script.now start.now) w choice.now tries.now logs.now
        → IsChosenStart (group_of script.now start.now).opening (of_set logs.now handed) chosen
        → (history : List Entry) × IsLongestHistory (group_of script.now start.now) w history
        × IsKeptBy (group_of script.now start.now) w history tries.now chosen }
{}

/// Logs that hold with tries have nothing foreign, so a choice is never refused for their entries; the tries
/// chose sound starts, and no log has a vote of a later age than the one that has ended; and where a further try
/// begins an age, the logs that it lacked are such as a member leaves that was not there in that age. So one age
/// that has ended follows on another, whichever logs were missing.
pub fn missing_logs_are_of_earlier_ages()
    ensures sound { (o : Opening) (before after : List LogListsOf) (tries : List AttemptOf) (try : AttemptOf)
        → AreSoundTries o tries → IsTry o before after try → AreSoundTries o (tries ++ try ∷ []) }
    ensures votes { (g : Group) (w : World) (choice : List LogListsOf) → AreLeft g w choice
        → HaveNoLaterVotes g.opening.age choice }
    ensures voted { (o : Opening) (before after : List LogListsOf) (try : AttemptOf) (age : ℕ)
        → IsTry o before after try → HaveNoLaterVotes age before → HaveNoLaterVotes age after }
    ensures stand { (g : Group) (w : World) (choice logs : List LogListsOf) (tries : List AttemptOf) (m : ℕ)
        (log : LogListsOf) → IsGroup g → IsReached g w
        → HoldSince g w choice tries logs → AreSoundTries g.opening tries → slice_get logs m ≡ Some log
        → AllStand g.opening log.entries }
    ensures others { (script : ScriptOf) (start : StartOf) (w : World) (choice before after : List LogListsOf)
        (tries : List AttemptOf) (try : AttemptOf) (m : ℕ) (log : LogListsOf)
        → IsGroup (group_of script start)
        → IsReached (group_of script start) w
        → IsMajorityOf start.present (whole_roster (group_of script start).opening)
        → AreLeft (group_of script start) w choice
        → HoldSince (group_of script start) w choice tries before
        → AreSoundTries (group_of script start).opening tries → HaveNoLaterVotes start.age before
        → IsTry (group_of script start).opening before after try → has try.set m ≡ false
        → slice_get after m ≡ Some log → IsLeftByOther (group_of script try.start) log }
{}

/// Nothing lasts on empty logs. What lasts on logs does so through any try to open an age, and the start that is
/// chosen of some of them, whichever others are missing, begins with it; then they are such as a member leaves that
/// isn't there in that age. Behind an age all lasts that some member knew to be durable, and its start is. And all
/// logs of a script, on which something lasts, are refused only where no age is left.
pub fn durable_entries_last()
    ensures empty { (script : ScriptOf) (logs : List LogListsOf) → length logs ≡ script.members
        → ((m : ℕ) (log : LogListsOf) → slice_get logs m ≡ Some log → (log.entries ≡ []) × (log.votes ≡ []))
        → AreLasting script [] logs }
    ensures tried { (script : ScriptOf) (es : List Entry) (before after : List LogListsOf) (try : AttemptOf)
        → AreLasting script es before → IsTry (first_group_of script).opening before after try
        → AreLasting script es after }
    ensures kept { (script : ScriptOf) (es : List Entry) (logs : List LogListsOf) (set : ℕ) (start : StartOf)
        → AreLasting script es logs → IsChosenStart (first_group_of script).opening (of_set logs set) start
        → IsPrefixOf es start.entries }
    ensures others { (script : ScriptOf) (es : List Entry) (logs : List LogListsOf) (set : ℕ) (start : StartOf)
        (m : ℕ) (log : LogListsOf) → AreLasting script es logs
        → IsChosenStart (first_group_of script).opening (of_set logs set) start
        → slice_get logs m ≡ Some log → IsLeftByOther (group_of script start) log }
    ensures left { (script : ScriptOf) (start : StartOf) (w : World) (es : List Entry) (logs : List LogListsOf)
        → IsGroup (group_of script start) → IsReached (group_of script start) w
        → IsMajorityOf start.present (whole_roster (group_of script start).opening)
        → AreLeft (group_of script start) w logs → AreDurableIn (group_of script start) w es
        → AreLasting script es logs }
    ensures begun { (script : ScriptOf) (start : StartOf) (w : World) (es : List Entry)
        → IsGroup (group_of script start) → IsReached (group_of script start) w
        → IsMajorityOf start.present (whole_roster (group_of script start).opening)
        → IsPrefixOf es start.entries → AreDurableIn (group_of script start) w es }
    ensures refused { (script : ScriptOf) (es : List Entry) (logs : List LogListsOf) (set : ℕ) (why : Refusal)
        → HasGroupRanges script → AreLasting script es logs → ((m : ℕ) → m < length logs → has set m ≡ true)
        → IsRefusedFor (first_group_of script).opening (of_set logs set) why → why ≡ AgesUsedUp }
{}

/// Votes for ages that come to logs, whatever they are for, take nothing away: logs hold with the same tries, and what
/// lasted lasts. So a vote for an age that never opens is no try, and of openings that overlap only those count for
/// which all have voted.
pub fn age_votes_take_nothing_away()
    ensures held { (g : Group) (w : World) (choice before after : List LogListsOf) (tries : List AttemptOf)
        → HaveMoreAgeVotes before after → HoldSince g w choice tries before → HoldSince g w choice tries after }
    ensures lasts { (script : ScriptOf) (es : List Entry) (before after : List LogListsOf)
        → HaveMoreAgeVotes before after → AreLasting script es before → AreLasting script es after }
{}
