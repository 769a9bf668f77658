//! The law of seats.
ghost use Rattle.std.specs.Prelude.{◌≡◌, ◌≤◌, ◌<◌, ◌⊎◌, ℕ, List, take};
ghost use Rattle.dr_door.specs.Lone.{Lone};
ghost use Rattle.dr_entry.specs.declared.entry.Entry.{Entry};
ghost use Rattle.dr_history.specs.History.{IsPrefixOf};
ghost use Rattle.dr_quorum_laws.specs.Lasting.{AreLasting};
ghost use Rattle.dr_script.specs.{Ranges.HasGroupRanges, declared.script.Script.Script};
ghost use Rattle.dr_seat_laws.specs.Seats.{AreNew, HaveRun, RunsIn, Seats, logs_on};

/// The seats of a group run since they were new, each in its own process, which may stop at any moment; openings of
/// ages overlap as they like. What lasted on the logs lasts on the logs, and begins the history of whoever runs in an
/// age; on the log of that member are the first entries of its history, as many as it says. Of two histories of one
/// age, of any two members and at any two moments, one is a front part of the other, or both are the same. And what
/// the member of a seat called durable begins each history of a later age.
pub fn seats_keep_what_lasts()
    ensures lasts { (script : Script) (es : List Entry) (new s : Seats) → HasGroupRanges script → 1 ≤ script.turns
        → AreNew new → HaveRun script new s
        → AreLasting script es (logs_on script new) → AreLasting script es (logs_on script s) }
    ensures begins { (script : Script) (es : List Entry) (new s : Seats) (m age : ℕ) (d : Lone)
        → HasGroupRanges script → 1 ≤ script.turns → AreNew new → HaveRun script new s
        → AreLasting script es (logs_on script new) → RunsIn (s.seats m) age d
        → IsPrefixOf es d.member.replica.history }
    ensures logged { (script : Script) (new s : Seats) (m age : ℕ) (d : Lone)
        → HasGroupRanges script → 1 ≤ script.turns → AreNew new → HaveRun script new s → RunsIn (s.seats m) age d
        → (s.seats m).log.content.entries ≡ take d.member.replica.logged d.member.replica.history }
    ensures agree { (script : Script) (new s later : Seats) (m n age : ℕ) (d e : Lone)
        → HasGroupRanges script → 1 ≤ script.turns → AreNew new → HaveRun script new s → HaveRun script s later
        → RunsIn (s.seats m) age d → RunsIn (later.seats n) age e
        → IsPrefixOf d.member.replica.history e.member.replica.history
        ⊎ IsPrefixOf e.member.replica.history d.member.replica.history }
    ensures durable { (script : Script) (es : List Entry) (new s later : Seats) (m n age next : ℕ) (d e : Lone)
        → HasGroupRanges script → 1 ≤ script.turns → AreNew new → HaveRun script new s → HaveRun script s later
        → AreLasting script es (logs_on script new)
        → RunsIn (s.seats m) age d → RunsIn (later.seats n) next e → age < next
        → IsPrefixOf (take d.member.replica.durable d.member.replica.history) e.member.replica.history }
{}

/// Seats may run. The seats of a group of one member, new over empty logs, come to where that member runs in age 0.
pub fn seats_may_run()
    ensures { (script : Script) → HasGroupRanges script → 1 ≤ script.turns → script.members ≡ 1
        → (new : Seats) × (s : Seats) × (d : Lone) × AreNew new × HaveRun script new s × RunsIn (s.seats 0) 0 d }
{}
