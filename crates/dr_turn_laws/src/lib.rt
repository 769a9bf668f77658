//! Laws of whole turns: after one a member has nothing left to do, and the table has its words.
//!
//! They are of programs of which nobody is late, and in which nobody suspects anybody; `docs/PROOFS.md` shows what
//! they are for.
#![tactic(auto)]

ghost use Rattle.std.specs.Prelude.{◌≡◌, ◌↔◌, ℕ, ◌^◌, ◌<◌, ◌≤◌, true, List, None, Some, Option};
ghost use Rattle.dr_history.specs.Soundness.{IsNobodyLate};
ghost use Rattle.dr_machine.specs.{Acts.CanTake, Group.{AllPresent, Group, IsGroup}, Guards.{IsUnwedged, MayChoose}};
ghost use Rattle.dr_machine.specs.{World.World, declared.step.Step.Step};
ghost use Rattle.dr_program.specs.{Presence.present_at, Turn.{part_of, turn_begins}, declared.setup.Setup.Setup};
ghost use Rattle.dr_program.specs.Program.{AllOk, AreSetups, Move, Program, begun_program, step_of};
ghost use Rattle.dr_program.specs.{Running.Running, Schedule.IsTurn};
ghost use Rattle.dr_turn_laws.specs.{Rested.{HasTurned, IsRested}, Steady.IsSteady, Wants.{Wants, is_work}};
ghost use Rattle.dr_program_laws.specs.Trusting.{AreAtEase, MayWait};

/// A program of a group that all of the roster are in, and in which nobody is late, begins steady, where its turns
/// are 32 bits, and each move keeps it so.
pub fn programs_are_steady()
    ensures begins { (g : Group) (turns : ℕ) (setups : List (Option Setup)) → IsGroup g → IsNobodyLate g.opening
        → 1 ≤ turns → turns < 2 ^ 32 → AllPresent g → AreSetups g turns setups → IsSteady g (begun_program g setups) }
    ensures keeps { (g : Group) (p : Program) (e : Move) → IsSteady g p → IsSteady g (step_of p e) }
{}

/// What a step asks besides that its member may choose and suspects nobody: with that, it is the guard.
pub fn what_is_asked_is_the_guard()
    ensures { (g : Group) (w : World) (m : ℕ) (s : Step) → MayChoose g w m → IsUnwedged w m
        → Wants g w m s ↔ CanTake g w m s }
{}

/// After a whole turn of a program in which nobody suspects anybody or has a reason to, and whose member
/// has not waited too long as it begins, where its appends have gone well and go well in it, the member has
/// nothing left to do, unless it has crashed: none of the steps from the receipts
/// to the mark may come, all at once; it has seen the table as it stands; and the table has its words. It
/// has ended as done exactly where it sees that all are done.
pub fn a_turn_leaves_nothing_to_do()
    ensures turned { (g : Group) (p : Program) (m : ℕ) (r : Running) (es : List Move) (q : Program)
        → IsSteady g p → AreAtEase p → present_at p.members m ≡ Some r → r.replica.end ≡ None
        → r.failed ≡ None → MayWait r
        → part_of r.place ≡ turn_begins → AllOk es → IsTurn m p es q → HasTurned g p m q }
    ensures none_may_come { (g : Group) (w : World) (m : ℕ) (s : Step) → IsRested g w m
        → is_work s ≡ true → CanTake g w m s → ⊥ }
{}
