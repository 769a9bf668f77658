//! Laws of members.
ghost use Rattle.std.specs.Prelude.{◌≡◌, ℕ, Some, true};
ghost use Rattle.dr_machine.specs.declared.step.Step.TheVariants.{Look};
ghost use Rattle.dr_program.specs.{Reading.step_of_member, Running.{Running, next_deed}, Sight.{IsSeenNext, MaySee}};
ghost use Rattle.dr_member.specs.Deeds.{is_look};

/// A look that is due may see a word that is in form and has grown, where it stands.
pub fn a_look_may_see_what_has_grown()
    ensures { (r : Running) (word : ℕ) → is_look (next_deed r) ≡ true
        → ((i c : ℕ) → step_of_member r ≡ Some (Look i c) → IsSeenNext r i c word)
        → MaySee r (step_of_member r) word }
{}
