//! Laws that tie replicas and running members to the machine.
ghost use Rattle.std.specs.Prelude.{◌≡◌, ◌↔◌, ℕ, ◌≤◌, true, false, List, is_some, Some, None, Option};
ghost use Rattle.dr_entry.specs.declared.entry.Entry.{Entry};
ghost use Rattle.dr_machine.specs.{Acts.{CanTake, effect_of}, Effects.joins, Group.{Group, IsGroup}, Run.IsReached};
ghost use Rattle.dr_machine.specs.declared.step.Step.{Step};
ghost use Rattle.dr_program.specs.{Form.IsRunningMember, Steps.{allows, may_take, stepped_over, HasLetter, IsNoJoin}};
ghost use Rattle.dr_program.specs.{Net.FindsNone, Running.{Running, next_step}, declared.setup.Setup.Setup};
ghost use Rattle.dr_program.specs.{Presence.{present_at, with_present}, Replica.{Replica, is_inside, joined}};
ghost use Rattle.dr_program.specs.Program.{Program, Move, AreSetups, after_deed, begun_program, letter_for, next_sight, step_of};
ghost use Rattle.dr_program.specs.Reading.{Shared, letters_of, step_by, world, world_of};
ghost use Rattle.dr_refine.specs.Programs.{AreLetters, HasRoomFor, IsLetterFor, IsMember, IsProgram, stored_in};

/// A member's step may come exactly where its replica has no end and passes the test of the step, and
/// a join finds a letter, but for three ranges: it takes no more items of a member than anyone has
/// messages, delivers only where it has room for an entry, and ends its view only where it has room for
/// what this adds.
pub fn tests_are_guards()
    ensures { (g : Group) (rs : List (Option Replica)) (table : Shared) (m : ℕ) (r : Replica) (s : Step)
        → IsMember g rs table m r
        → ((may_take r s ≡ true) × HasLetter (letters_of table.letters m) s)
        ↔ (CanTake g (world_of g rs table) m s × HasRoomFor r s) }
{}

/// What a step makes of a replica and of the table is the effect of the step on the world that they
/// are; and so is what a replica makes of its letter.
pub fn steps_are_effects()
    ensures steps { (g : Group) (rs : List (Option Replica)) (table : Shared) (m : ℕ) (r : Replica) (s : Step)
        → IsMember g rs table m r → allows r s ≡ true → IsNoJoin s
        → world_of g (with_present rs m (stepped_over table.words r s)) (stored_in table r s)
        ≡ effect_of g (world_of g rs table) m s }
    ensures joins { (g : Group) (rs : List (Option Replica)) (table : Shared) (m : ℕ) (r : Replica) (letter : List Entry)
        → IsMember g rs table m r → is_inside r ≡ false → letters_of table.letters m ≡ Some letter
        → IsLetterFor r letter
        → world_of g (with_present rs m (joined r letter)) table ≡ joins (world_of g rs table) m }
{}

/// A deed of a running member is the step of its place: that may come, and the program's world after the move is
/// its effect. A member that rests changes nothing, nor does a move that is no step change the world, or a take
/// that doesn't find its letter, so a program that goes on from a reached world stays in reached ones. A program
/// begins as one of its group, and a move keeps that where it keeps the form of the member that makes it.
pub fn deeds_are_steps()
    ensures may_come { (g : Group) (p : Program) (e : Move) (r : Running) (s : Step) → IsGroup g
        → IsProgram g p → AreLetters p
        → present_at p.members e.member ≡ Some r → step_by (letter_for p e.member) r e.outcome ≡ Some s
        → CanTake g (world g p) e.member s }
    ensures happens { (g : Group) (p : Program) (e : Move) (r : Running) (s : Step) → IsGroup g
        → IsProgram g p → AreLetters p
        → present_at p.members e.member ≡ Some r → step_by (letter_for p e.member) r e.outcome ≡ Some s
        → world g (step_of p e) ≡ effect_of g (world g p) e.member s }
    ensures rests { (p : Program) (e : Move) (r : Running)
        → present_at p.members e.member ≡ Some r → is_some r.replica.end ≡ true → step_of p e ≡ p }
    ensures stays { (g : Group) (p : Program) (e : Move) (r : Running)
        → present_at p.members e.member ≡ Some r → step_by (letter_for p e.member) r e.outcome ≡ None
        → world g (step_of p e) ≡ world g p }
    ensures misses { (g : Group) (p q : Program) → FindsNone p q → world g q ≡ world g p }
    ensures reached { (g : Group) (p : Program) (e : Move) → IsGroup g → IsProgram g p → AreLetters p
        → IsReached g (world g p) → IsReached g (world g (step_of p e)) }
    ensures begins { (g : Group) (turns : ℕ) (setups : List (Option Setup)) → IsGroup g → 1 ≤ turns
        → AreSetups g turns setups
        → IsProgram g (begun_program g setups) }
    ensures keeps { (g : Group) (p : Program) (e : Move) → IsProgram g p
        → ((r : Running) → present_at p.members e.member ≡ Some r → r.replica.end ≡ None
        → IsRunningMember (after_deed (next_sight p.table r) (letter_for p e.member) e.outcome r (next_step r)))
        → IsProgram g (step_of p e) }
{}
