//! Laws of sound programs.
ghost use Rattle.std.specs.Prelude.{◌≡◌, ℕ, Some};
ghost use Rattle.dr_history.specs.Soundness.{IsNobodyLate};
ghost use Rattle.dr_machine.specs.Group.{Group};
ghost use Rattle.dr_program.specs.{Presence.present_at, Program.Program, Running.{Running, next_deed}};
ghost use Rattle.dr_play.specs.Sound.{IsOfNoLetter, IsSound};

/// Where nobody is late, no member of a sound program gives a letter or takes one.
pub fn letters_are_for_late_members()
    ensures { (g : Group) (p : Program) (m : ℕ) (r : Running) → IsSound g p → IsNobodyLate g.opening
        → present_at p.members m ≡ Some r → IsOfNoLetter (next_deed r) }
{}
