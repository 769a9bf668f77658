//! Laws of calls.
ghost use Rattle.std.specs.Prelude.{◌≡◌, ◌⊎◌, ◌<◌, ℕ, Contains, List, true};
ghost use Rattle.dr_history.specs.{Members.has, declared.opening.Opening.Opening};
ghost use Rattle.dr_entry.specs.declared.entry.Entry.{Entry};
ghost use Rattle.dr_history.specs.History.{IsPrefixOf};
ghost use Rattle.dr_machine.specs.World.{World};
ghost use Rattle.dr_quorum_laws.specs.Lasting.{AreDurableIn, AreLasting};
ghost use Rattle.dr_restart.specs.Groups.{first_group_of, group_of};
ghost use Rattle.dr_script.specs.{Ranges.HasGroupRanges, declared.script.Script.Script};
ghost use Rattle.dr_calls.specs.Wire.{Called, HasCome, HaveCome, IsOpened, IsRunSince, Voted, Wire, logs_in};

/// However openings overlap, the calls with a member, all of whose members have voted, are one after the other, by
/// their ages: two that differ are of two ages.
pub fn calls_are_ordered()
    ensures { (o : Opening) (begun w : Wire) (one other : Called) (m n : ℕ) → IsRunSince o begun w
        → IsOpened w one → IsOpened w other → has one.set m ≡ true → has other.set n ≡ true
        → (one ≡ other) ⊎ (one.age < other.age) ⊎ (other.age < one.age) }
{}

/// However openings overlap, what lasted on the logs before them lasts on the logs, and begins what each age starts with
/// for whose call all have voted; and so does, in each later age, what somebody knew to be durable in an age that has
/// begun. In the order of their ages these calls are tries, and ages behind them.
pub fn calls_keep_what_lasts()
    ensures lasts { (script : Script) (es : List Entry) (begun w : Wire) → HasGroupRanges script
        → IsRunSince (first_group_of script).opening begun w → HaveCome script w
        → AreLasting script es (logs_in (first_group_of script).opening begun)
        → AreLasting script es (logs_in (first_group_of script).opening w) }
    ensures begins { (script : Script) (es : List Entry) (begun w : Wire) (v : Voted) → HasGroupRanges script
        → IsRunSince (first_group_of script).opening begun w → HaveCome script w
        → AreLasting script es (logs_in (first_group_of script).opening begun)
        → Contains w.votes v → IsOpened w v.call → IsPrefixOf es v.start.entries }
    ensures durable { (script : Script) (es durable : List Entry) (begun w : Wire) (v u : Voted) (world : World)
        → HasGroupRanges script → IsRunSince (first_group_of script).opening begun w → HaveCome script w
        → AreLasting script es (logs_in (first_group_of script).opening begun)
        → Contains w.votes v → Contains w.ages v.call → HasCome script w v world
        → AreDurableIn (group_of script v.start) world durable
        → Contains w.votes u → IsOpened w u.call → v.call.age < u.call.age → IsPrefixOf durable u.start.entries }
{}
