//! The law of what doors leave.
ghost use Rattle.std.specs.Prelude.{◌≡◌, ◌<◌, ◌≤◌, ℕ, Contains, List, Some, take, true};
ghost use Rattle.dr_calls.specs.Wire.{HaveCome, IsOpened, IsRunSince, Voted, Wire, logs_in};
ghost use Rattle.dr_door.specs.{Apart.Apart, Lone.Lone};
ghost use Rattle.dr_door_logs.specs.Leaving.{AreAgesOfDoors, IsAgeOfDoors};
ghost use Rattle.dr_entry.specs.declared.entry.Entry.{Entry};
ghost use Rattle.dr_history.specs.{History.IsPrefixOf, Members.has};
ghost use Rattle.dr_program.specs.Presence.{present_at};
ghost use Rattle.dr_quorum_laws.specs.Lasting.{AreLasting};
ghost use Rattle.dr_restart.specs.Groups.{first_group_of};
ghost use Rattle.dr_script.specs.{Ranges.HasGroupRanges, declared.script.Script.Script};

/// Calls open ages over a wire, however these openings overlap, and doors run in each age in which somebody has begun.
/// Then each such age has come, and has left what stands on the logs of its members, wherever their doors stop. So
/// what the door of a member calls durable begins each later age for whose call all have voted.
pub fn doors_keep_what_lasts()
    ensures come { (script : Script) (begun w : Wire) → HasGroupRanges script → 1 ≤ script.turns
        → IsRunSince (first_group_of script).opening begun w → AreAgesOfDoors script w → HaveCome script w }
    ensures durable { (script : Script) (es : List Entry) (begun w : Wire) (v u : Voted) (a : Apart) (m : ℕ) (d : Lone)
        → HasGroupRanges script → 1 ≤ script.turns → IsRunSince (first_group_of script).opening begun w
        → AreAgesOfDoors script w → AreLasting script es (logs_in (first_group_of script).opening begun)
        → Contains w.votes v → Contains w.ages v.call → IsAgeOfDoors script w v a → has v.call.set m ≡ true
        → present_at a.doors m ≡ Some d → Contains w.votes u → IsOpened w u.call → v.call.age < u.call.age
        → IsPrefixOf (take d.member.replica.durable d.member.replica.history) u.start.entries }
{}
