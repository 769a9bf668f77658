//! Laws of programs.
ghost use Rattle.std.specs.Prelude.{◌≡◌, ℕ, ◌<◌, ◌≤◌, List, Option, [], ◌∷◌, ◌++◌, Some, slice_get};
ghost use Rattle.dr_program.specs.declared.place.TheConstants.{PARTS, TURN, TURN_ENDS};
ghost use Rattle.dr_program.specs.declared.setup.Setup.{Setup};
ghost use Rattle.dr_program.specs.Running.{begun_running};
ghost use Rattle.dr_program.specs.Program.{Program, Move, ran, IsSetup, AreSetups, begun_program};
ghost use Rattle.dr_program.specs.Reading.{world};
ghost use Rattle.dr_program.specs.Form.{CanBegin, IsRunningMember, IsOf};
ghost use Rattle.dr_machine.specs.{Group.{Group, IsGroup, roster}, World.opening_world};

use crate::place::Part;
use dr_machine::Act;

/// A program may take more deeds after others.
pub fn deeds_follow_one_another()
    ensures { (p : Program) (a b : List Move) → ran p (a ++ b) ≡ ran (ran p a) b }
{}

/// A program begins in the world as the age opens, with members that have their form; and each of
/// its members can begin.
pub fn programs_begin_at_the_opening()
    ensures world { (g : Group) (turns : ℕ) (setups : List (Option Setup)) → IsGroup g
        → AreSetups g turns setups
        → world g (begun_program g setups) ≡ opening_world g }
    ensures form { (g : Group) (turns m : ℕ) (s : Setup) → IsGroup g → 1 ≤ turns → m < roster g
        → IsSetup g turns m s
        → IsRunningMember (begun_running s) × IsOf g m (begun_running s).replica }
    ensures begin { (g : Group) (turns m : ℕ) (s : Setup) → IsGroup g → m < roster g
        → IsSetup g turns m s → CanBegin s }
{}

/// The law of the turn: how many parts it has, and which, by their names in their order; and with which one the
/// end of a turn begins.
pub fn turn_law()
    ensures count { PARTS ≡ 23 }
    ensures parts { TURN ≡ Part.Take ∷ Part.Look ∷ Part.Judge ∷ Part.Receive ∷ Part.Do Act.Send ∷ Part.Do Act.Null
        ∷ Part.Do Act.Deliver ∷ Part.Append ∷ Part.Do Act.Publish ∷ Part.Do Act.Report ∷ Part.Do Act.Mark
        ∷ Part.Vote ∷ Part.Do Act.Propose ∷ Part.Do Act.Accept ∷ Part.Do Act.Commit ∷ Part.Excluded
        ∷ Part.Push ∷ Part.Crash ∷ Part.Done ∷ Part.Do Act.Finish ∷ Part.Give ∷ Part.Spent ∷ Part.Do Act.Beat ∷ [] }
    ensures ends { slice_get TURN TURN_ENDS ≡ Some Part.Crash }
{}
