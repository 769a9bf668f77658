//! Laws of runs, and of guards.
ghost use Rattle.std.specs.Prelude.{◌≡◌, ℕ, List, ◌++◌};
ghost use Rattle.dr_entry.specs.declared.record.Value.{Value};
ghost use Rattle.dr_machine.specs.{Group.Group, Guards.CanLogVote, Run.{IsReached, Run}};
ghost use Rattle.dr_machine.specs.{World.{World, opening_world}, declared.event.Event.Event};

/// A run may go on where another has ended. One from the opening leads to a world that is reached.
pub fn runs_follow_one_another()
    ensures follow { (g : Group) (w mid after : World) (a b : List Event)
        → Run g w a mid → Run g mid b after → Run g w (a ++ b) after }
    ensures reached { (g : Group) (w : World) (es : List Event) → Run g (opening_world g) es w
        → IsReached g w }
{}

/// A member that may log a vote may do so for one value: its rows determine it.
pub fn votes_are_determined()
    ensures { (g : Group) (w : World) (m : ℕ) (u v : Value)
        → CanLogVote g w m u → CanLogVote g w m v → u ≡ v }
{}
