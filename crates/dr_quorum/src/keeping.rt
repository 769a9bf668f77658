//! The laws of restarts from a majority, of the world that a list of events leads to.
//!
//! Those of `dr_quorum_laws` are of every world that is reached, however late words come; these are told of the
//! events of a group.
ghost use Rattle.std.specs.Prelude.{◌≡◌, ◌<◌, ◌++◌, [], ◌∷◌, List};
ghost use Rattle.dr_entry.specs.declared.entry.Entry.{Entry};
ghost use Rattle.dr_history.specs.{Restarting.Kept, Soundness.whole_roster};
ghost use Rattle.dr_machine.specs.{Group.IsGroup, Run.{Run, accounts_in}, World.{World, opening_world}};
ghost use Rattle.dr_restart.specs.{Choosing.{IsChosenStart, of_set}, Groups.group_of, Left.AreLeft, Trying.IsTry};
ghost use Rattle.dr_restart.specs.declared.start.Start.{Start as StartOf};
ghost use Rattle.dr_words.specs.Masks.{IsMajorityOf};
ghost use Rattle.dr_quorum_laws.specs.Holding.{HoldSince, IsKeptBy, IsLongestHistory};

use dr_machine::Event;
use dr_restart::{Attempt, LogLists, Start};
use dr_script::Script;
use dr_words::Mask;

/// After any list of events of a group of which more than half of the roster is there, and whatever stops leave of
/// all logs, a later age that starts with what some of them make keeps what the group has delivered durably.
pub fn kept_after_choice(
    script: &Script,
    start: &Start,
    events: &[Event],
    choice: &[LogLists],
    handed: Mask,
    age: u16,
)
    requires group { IsGroup (group_of script.now start.now) }
    requires majority { IsMajorityOf start.now.present
        (whole_roster (group_of script.now start.now).opening) }
    requires left { (w : World) → Run (group_of script.now start.now)
        (opening_world (group_of script.now start.now)) events.now w
        → AreLeft (group_of script.now start.now) w choice.now }
    requires later { start.now.age < age }
    ensures { (w : World) (chosen next : StartOf) → Run (group_of script.now start.now)
        (opening_world (group_of script.now start.now)) events.now w
        → IsChosenStart (group_of script.now start.now).opening (of_set choice.now handed) chosen
        → next.entries ≡ chosen.entries → next.age ≡ age
        → Kept (group_of script.now start.now).opening (accounts_in w) (group_of script.now next).opening }
{}

/// The logs that stops leave of such a group hold with no tries; and what a try makes of logs that hold with some
/// tries holds with this one more.
pub fn held_by_try(
    script: &Script,
    start: &Start,
    events: &[Event],
    choice: &[LogLists],
    tries: &[Attempt],
    before: &[LogLists],
    after: &[LogLists],
    added: &Attempt,
)
    requires group { IsGroup (group_of script.now start.now) }
    requires majority { IsMajorityOf start.now.present
        (whole_roster (group_of script.now start.now).opening) }
    requires left { (w : World) → Run (group_of script.now start.now)
        (opening_world (group_of script.now start.now)) events.now w
        → AreLeft (group_of script.now start.now) w choice.now }
    ensures first { (w : World) → Run (group_of script.now start.now)
        (opening_world (group_of script.now start.now)) events.now w
        → HoldSince (group_of script.now start.now) w choice.now [] choice.now }
    ensures tried { (w : World) → Run (group_of script.now start.now)
        (opening_world (group_of script.now start.now)) events.now w
        → HoldSince (group_of script.now start.now) w choice.now tries.now before.now
        → IsTry (group_of script.now start.now).opening before.now after.now added.now
        → HoldSince (group_of script.now start.now) w choice.now (tries.now ++ added.now ∷ []) after.now }
{}

/// Where logs hold with some tries, and those handed in make a start, this keeps what the group has delivered
/// durably, behind it may stand Views of opened tries, and its age is above that of the group and those of all
/// opened tries.
pub fn kept_by_majority(
    script: &Script,
    start: &Start,
    events: &[Event],
    choice: &[LogLists],
    tries: &[Attempt],
    logs: &[LogLists],
    handed: Mask,
)
    requires group { IsGroup (group_of script.now start.now) }
    requires majority { IsMajorityOf start.now.present
        (whole_roster (group_of script.now start.now).opening) }
    requires left { (w : World) → Run (group_of script.now start.now)
        (opening_world (group_of script.now start.now)) events.now w
        → AreLeft (group_of script.now start.now) w choice.now }
    requires held { (w : World) → Run (group_of script.now start.now)
        (opening_world (group_of script.now start.now)) events.now w
        → HoldSince (group_of script.now start.now) w choice.now tries.now logs.now }
    ensures { (w : World) (chosen : StartOf) → Run (group_of script.now start.now)
        (opening_world (group_of script.now start.now)) events.now w
        → IsChosenStart (group_of script.now start.now).opening (of_set logs.now handed) chosen
        → (history : List Entry) × IsLongestHistory (group_of script.now start.now) w history
        × IsKeptBy (group_of script.now start.now) w history tries.now chosen }
{}
