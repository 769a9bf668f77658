//! What is certain of a program of a group, in whatever order its members take their deeds: it stays in
//! worlds that are reached, the histories of its members agree, and each member ends as it should.
//!
//! That histories agree comes from `dr_world_laws`, for every world that is reached; this crate says it of
//! the ends of a program's members. `docs/PROOFS.md` shows how.
//!
//! It says so of every list of deeds, so a schedule brings no proof but that it takes deeds. How a member
//! ended by suspicion says what an end can show: another that names it, a mask with it that is no majority,
//! or the number of the next view; no end shows a value, so that a committed one names it is a law of worlds
//! (`exclusion_ends_members`). A group in which nobody has a reason to suspect anybody (`IsCalm`,
//! `SuspectsNobody`) is one in which nobody is suspected; with a patience of three turns or more (`IsAtEase`,
//! `IsLenient`) so it is in lockstep. What a done member holds is told by script and start alone
//! (`remaining`). A history stays within what the script gives, so that each replica has the room that its steps
//! ask for (`room_is_there`). Laws of whole turns are `dr_turn_laws`: only completeness needs them.
#![tactic(auto)]

ghost use Rattle.std.specs.Prelude.{◌≡◌, ℕ, ◌<◌, ◌≤◌, All, Contains, List, [], ◌∷◌, length, map, max, slice_index, slice_set, Some, Option};
ghost use Rattle.dr_entry.specs.declared.end.End.{End};
ghost use Rattle.dr_history.specs.Agreement.{EndsAgreed};
ghost use Rattle.dr_machine.specs.{Group.{Group, IsGroup}, Run.{ComesOfEvents, IsReached, Way}};
ghost use Rattle.dr_machine.specs.declared.step.Step.TheVariants.{Look, Push};
ghost use Rattle.dr_program.specs.{Net.{IsRanOverNet, NetWay, took_nothing}, Presence.present_at};
ghost use Rattle.dr_program.specs.Program.{AllEnded, AreSetups, IsRanFrom, Move, Program, begun_program, end_at, next_sight, ok, ran, step_of};
ghost use Rattle.dr_program.specs.{Reading.{step_of_member, world}, Replica.me, Running.{Running, AsksForLetter}};
ghost use Rattle.dr_program.specs.{Schedule.{IsLockstep, IsSeeded}, Sight.MaySee, Steps.index_in};
ghost use Rattle.dr_program.specs.declared.{packet.Packet.Packet, setup.{CrashPoint.CrashPoint, Setup.Setup}};
ghost use Rattle.dr_rows.specs.Words.{own};
ghost use Rattle.dr_refine.specs.Programs.{IsProgram};
ghost use Rattle.dr_restart.specs.{Groups.group_of, Setups.{IsBegun, crashes_of}, declared.start.Start.Start};
ghost use Rattle.dr_script.specs.declared.script.Script.{Script};
ghost use Rattle.dr_program_laws.specs.{Carried.IsCarried, Causes.HasCause, Ended.HaveEnded};
ghost use Rattle.dr_program_laws.specs.Failing.{AreFailing, IsFailing};
ghost use Rattle.dr_program_laws.specs.Trusting.{AllCalm, AreAtEase, AreTrusting, NoneLeft, SuspectsNobody};

mod room;

pub use room::{histories_are_bounded, letters_fit, room_is_there};

/// Deeds keep a program: whatever deeds its members have taken, and in whatever order, it is one of its
/// group still, in a world that some events lead to. A look then finds a word that its member may see.
pub fn deeds_keep_programs()
    ensures deeds { (g : Group) (turns : ℕ) (setups : List (Option Setup)) (p : Program)
        → IsGroup g → 1 ≤ turns → AreSetups g turns setups
        → IsRanFrom (begun_program g setups) p → IsProgram g p × IsReached g (world g p) }
    ensures events { (g : Group) (turns : ℕ) (setups : List (Option Setup)) (p : Program)
        → IsGroup g → 1 ≤ turns → AreSetups g turns setups
        → IsRanFrom (begun_program g setups) p → ComesOfEvents g (world g p) }
    ensures deed { (g : Group) (p : Program) (e : Move) → IsGroup g → IsProgram g p
        → IsReached g (world g p)
        → IsProgram g (step_of p e) × IsReached g (world g (step_of p e)) }
    ensures sight { (g : Group) (p : Program) (m : ℕ) (r : Running) (i c : ℕ)
        → IsGroup g → IsProgram g p → IsReached g (world g p)
        → present_at p.members m ≡ Some r → step_of_member r ≡ Some (Look i c)
        → MaySee r (step_of_member r) (next_sight p.table r) }
{}

/// Members on different machines, between which words are on their way for however long, come more than once, or
/// never: each machine has the copy of its own member, and a word that comes stands in it where it is no smaller
/// than the one there. Whatever the members have done, and whatever has come, the program is one of its group,
/// and the worlds that it was lead to its world; so all that is certain of reached worlds is so of it. Its ends
/// agree, and its members end as they should, each with a cause. A member whose append has failed ends by that,
/// and where no setup gives a reason to suspect anybody, nobody is suspected.
pub fn nets_keep_programs()
    ensures program { (g : Group) (turns : ℕ) (setups : List (Option Setup)) (before : List Program) (p : Program)
        → IsGroup g → 1 ≤ turns → AreSetups g turns setups
        → NetWay g (begun_program g setups) before p
        → IsProgram g p × Way g (map (world g) before) (world g p) }
    ensures agree { (g : Group) (turns : ℕ) (setups : List (Option Setup)) (p : Program)
        → IsGroup g → 1 ≤ turns → AreSetups g turns setups
        → IsRanOverNet g (begun_program g setups) p → EndsAgreed g.opening (map end_at p.members) }
    ensures ends { (g : Group) (turns : ℕ) (setups : List (Option Setup)) (points : ℕ → List CrashPoint) (p : Program)
        → IsGroup g → 1 ≤ turns → AreSetups g turns setups
        → ((k : ℕ) (s : Setup) → present_at setups k ≡ Some s → s.crashes ≡ points k)
        → IsRanOverNet g (begun_program g setups) p → AllEnded p
        → HaveEnded g.opening turns points (map end_at p.members) }
    ensures causes { (g : Group) (turns : ℕ) (setups : List (Option Setup)) (p : Program) (m : ℕ) (r : Running)
        (end : End) → IsGroup g → 1 ≤ turns → AreSetups g turns setups
        → IsRanOverNet g (begun_program g setups) p → present_at p.members m ≡ Some r
        → r.replica.end ≡ Some end → HasCause g (world g p) m end }
    ensures failing { (g : Group) (turns : ℕ) (setups : List (Option Setup)) (p : Program)
        → IsGroup g → 1 ≤ turns → AreSetups g turns setups
        → IsRanOverNet g (begun_program g setups) p → AreFailing p }
    ensures trusting { (g : Group) (turns : ℕ) (setups : List (Option Setup)) (p : Program)
        → IsGroup g → 1 ≤ turns → AreSetups g turns setups → AllCalm setups
        → IsRanOverNet g (begun_program g setups) p → AreTrusting p }
{}

/// So it is told to who carries the words, and knows no worlds: a net is a list of packets, each with the place
/// that its word was pushed to. A program begins with none. Its members take their deeds; the word of a push is
/// there at once, or goes into a packet; packets are lost, doubled, and put into any order; and the word of one
/// comes to its place in the table, however late, where no greater one stands; and a member that asks for its
/// letter may find none, as it is on its way. Then it stays one of its group, in a world that is reached.
pub fn carried_words_do_no_harm()
    ensures begins { (g : Group) (p : Program) → IsGroup g → IsProgram g p → IsReached g (world g p)
        → IsCarried g p [] }
    ensures moves { (g : Group) (p : Program) (net : List Packet) (e : Move) → IsCarried g p net
        → IsCarried g (step_of p e) net }
    ensures pushes { (g : Group) (p : Program) (net : List Packet) (m : ℕ) (r : Running) (j c : ℕ)
        → IsCarried g p net → present_at p.members m ≡ Some r → step_of_member r ≡ Some (Push j c)
        → IsCarried g (record { members = (step_of p (ok m)).members; table = p.table; letters = p.letters })
        (record { index = index_in r.replica j (me r.replica) c; word = own r.replica.rows c } ∷ net) }
    ensures among { (g : Group) (p : Program) (net other : List Packet) → IsCarried g p net
        → All (Contains net) other → IsCarried g p other }
    ensures place { (g : Group) (p : Program) (net : List Packet) (packet : Packet) → IsCarried g p net
        → Contains net packet → packet.index < length p.table }
    ensures comes { (g : Group) (p : Program) (net : List Packet) (packet : Packet) → IsCarried g p net
        → Contains net packet → IsCarried g (record {
          members = p.members;
          table = slice_set p.table packet.index (max (slice_index p.table packet.index) packet.word);
          letters = p.letters;
        }) net }
    ensures misses { (g : Group) (p : Program) (net : List Packet) (m : ℕ) (r : Running)
        → IsCarried g p net → present_at p.members m ≡ Some r → AsksForLetter r
        → IsCarried g (took_nothing p m r) net }
{}

/// The program of an age begins as one of its group, in a world that is reached. Each schedule takes the
/// deeds that it names, one after the other.
pub fn ages_take_deeds()
    ensures form { (script : Script) (start : Start) (nth : ℕ) (begun : Program)
        → IsGroup (group_of script start) → length script.messages ≡ script.members → 1
        ≤ script.turns → IsBegun script start nth begun
        → IsProgram (group_of script start) begun }
    ensures reached { (script : Script) (start : Start) (nth : ℕ) (begun : Program)
        → IsGroup (group_of script start) → length script.messages ≡ script.members
        → IsBegun script start nth begun
        → IsReached (group_of script start) (world (group_of script start) begun) }
    ensures lockstep { (begun : Program) (es : List Move) (p : Program) → IsLockstep begun es p → p
        ≡ ran begun es }
    ensures seeded { (seed : ℕ) (begun : Program) (es : List Move) (p : Program)
        → IsSeeded seed begun es p → p ≡ ran begun es }
{}

/// Whenever the members of a program stop, whatever deeds they took, what they have delivered agrees.
pub fn ends_agree()
    ensures { (g : Group) (turns : ℕ) (setups : List (Option Setup)) (p : Program)
        → IsGroup g → 1 ≤ turns → AreSetups g turns setups
        → IsRanFrom (begun_program g setups) p → EndsAgreed g.opening (map end_at p.members) }
{}

/// Members that have all ended have ended as they should, each by its setup, and in the view that it was in:
/// done, with everything, or with all turns spent, or crashed where its setup says, or by a log that failed
/// or was full, or by suspicion, in no later turn than that of its crash. A late member that hasn't joined
/// has put and delivered nothing, and ends with its turns spent, or crashed. It holds whatever deeds they
/// took, and in whatever order. Whoever has ended so, also while others go on, has its cause in the world
/// that the program is: it has everything durably, another member suspects it, it is left with no majority,
/// or it has committed a value that its view has voted for, and that names it.
pub fn members_end_as_they_should()
    ensures ends { (g : Group) (turns : ℕ) (setups : List (Option Setup)) (points : ℕ → List CrashPoint) (p : Program)
        → IsGroup g → 1 ≤ turns → AreSetups g turns setups
        → ((m : ℕ) (s : Setup) → present_at setups m ≡ Some s → s.crashes ≡ points m)
        → IsRanFrom (begun_program g setups) p → AllEnded p
        → HaveEnded g.opening turns points (map end_at p.members) }
    ensures causes { (g : Group) (turns : ℕ) (setups : List (Option Setup)) (p : Program) (m : ℕ) (r : Running)
        (end : End) → IsGroup g → 1 ≤ turns → AreSetups g turns setups
        → IsRanFrom (begun_program g setups) p → present_at p.members m ≡ Some r
        → r.replica.end ≡ Some end → HasCause g (world g p) m end }
{}

/// So it is in each age of a script, with the crashes that it gives for this age.
pub fn members_end_as_their_script_says()
    ensures { (script : Script) (start : Start) (nth : ℕ) (begun p : Program)
        → IsGroup (group_of script start) → length script.messages ≡ script.members → 1
        ≤ script.turns
        → IsBegun script start nth begun → IsRanFrom begun p → AllEnded p
        → HaveEnded (group_of script start).opening script.turns (crashes_of script.faults nth)
        (map end_at p.members) }
{}

/// Where no setup gives a reason to suspect anybody, nobody is suspected, whatever deeds the members take,
/// and no member is ended by suspicion. So everybody stays in the first view, and waits without a limit.
pub fn trusting_members_suspect_nobody()
    ensures begins { (g : Group) (turns : ℕ) (setups : List (Option Setup)) → IsGroup g → AreSetups g turns setups
        → AllCalm setups → AreTrusting (begun_program g setups) }
    ensures keeps { (g : Group) (p : Program) (e : Move) → IsGroup g → IsProgram g p
        → IsReached g (world g p) → AreTrusting p → AreTrusting (step_of p e) }
    ensures ease { (p : Program) → AreTrusting p → AreAtEase p }
    ensures ends { (g : Group) (turns : ℕ) (setups : List (Option Setup)) (p : Program)
        → IsGroup g → 1 ≤ turns → AreSetups g turns setups → AllCalm setups
        → IsRanFrom (begun_program g setups) p → NoneLeft (map end_at p.members) }
    ensures script { (script : Script) (start : Start) (nth : ℕ) (begun p : Program)
        → IsGroup (group_of script start) → length script.messages ≡ script.members → 1 ≤ script.turns
        → SuspectsNobody script → IsBegun script start nth begun → IsRanFrom begun p
        → NoneLeft (map end_at p.members) }
{}

/// A member whose append fails ends by that, with its next act, and no other member ends by its log. Each
/// move keeps it so.
pub fn failed_appends_end_their_members()
    ensures ends { (g : Group) (turns : ℕ) (setups : List (Option Setup)) (p : Program) (m : ℕ) (r : Running)
        → IsGroup g → 1 ≤ turns → AreSetups g turns setups
        → IsRanFrom (begun_program g setups) p → present_at p.members m ≡ Some r → IsFailing r }
    ensures keeps { (g : Group) (p : Program) (e : Move) → IsProgram g p → AreFailing p
        → AreFailing (step_of p e) }
{}
