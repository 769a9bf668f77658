//! Room in reached worlds: a history stays within what the script gives, so each replica has the room that
//! its steps ask for.
//!
//! How long a history is comes from `dr_world_laws`; which room a step asks for says `dr_refine`.
ghost use Rattle.std.specs.Prelude.{◌≡◌, ℕ, ◌+◌, ◌*◌, ◌≤◌, ◌<◌, false, List, length, map, Option, Some};
ghost use Rattle.dr_entry.specs.declared.limits.TheConstants.{MAX_MEMBERS, MAX_MESSAGES};
ghost use Rattle.dr_entry.specs.declared.entry.Entry.{Entry};
ghost use Rattle.dr_form.specs.Letters.{IsFitting};
ghost use Rattle.dr_machine.specs.{Acts.CanTake, Group.{Group, IsGroup, banks, roster}, Run.IsReached, World.World};
ghost use Rattle.dr_machine.specs.declared.step.Step.{Step};
ghost use Rattle.dr_program.specs.{Presence.present_at, Program.{Program, letter_for}, Running.Running};
ghost use Rattle.dr_program.specs.{Reading.{Shared, world, world_of}, Replica.{Replica, greatest, is_inside}};
ghost use Rattle.dr_refine.specs.Programs.{AreLetters, HasRoomFor, IsMember, IsProgram};

/// In a reached world a member has the room that a step asks for, where its history has room for every
/// message and every View: it never waits for room.
pub fn room_is_there()
    ensures { (g : Group) (rs : List (Option Replica)) (table : Shared) (m : ℕ) (r : Replica) (s : Step)
        → IsMember g rs table m r
        → length g.opening.start + banks g + greatest r.totals * roster g < r.room
        → IsReached g (world_of g rs table) → CanTake g (world_of g rs table) m s
        → HasRoomFor r s }
{}

/// In a reached world a history has no more entries than the start, a View for each bank, and for each member
/// of the roster as many messages as the script gives any of them.
pub fn histories_are_bounded()
    ensures script { (g : Group) (w : World) (m : ℕ) → IsGroup g → IsReached g w → m < roster g
        → length (w.past.history m)
        ≤ length g.opening.start + banks g + greatest (map length g.opening.messages) * roster g }
    ensures limits { (g : Group) (w : World) (m : ℕ) → IsGroup g → IsReached g w → m < roster g
        → length (w.past.history m) ≤ length g.opening.start + 2 * MAX_MEMBERS + MAX_MESSAGES * MAX_MEMBERS }
{}

/// In a program whose world is reached each letter that a member hasn't taken yet is one that it can go on from:
/// so its deeds are steps, and what comes of them is reached. And it keeps its form by it: its history has room
/// for every message and every View.
pub fn letters_fit()
    ensures letters { (g : Group) (p : Program) → IsGroup g → IsProgram g p → IsReached g (world g p)
        → AreLetters p }
    ensures room { (g : Group) (p : Program) (m : ℕ) (r : Running) (letter : List Entry) → IsGroup g
        → IsProgram g p → IsReached g (world g p) → present_at p.members m ≡ Some r
        → is_inside r.replica ≡ false → letter_for p m ≡ Some letter → IsFitting r.replica letter }
{}
