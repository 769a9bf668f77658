ghost use Rattle.std.specs.Prelude.{◌≡◌, ℕ, ◌&&◌, not, true};
ghost use Rattle.dr_history.specs.Members.{has};
ghost use Rattle.dr_words.specs.Masks.{IsPartOf};
ghost use Rattle.dr_lead.specs.Standings.{unsuspected};

use dr_words::{Mask, Shape};

/// Where a wedged member stands in the change of its view.
#[derive(Clone, Copy, Debug, PartialEq, Eq)]
pub struct Standing {
    /// The member.
    pub me: u8,
    /// The members of the view.
    pub members: Mask,
    /// Those that it suspects or wishes for, which are others than itself, and not none.
    pub suspects: Mask,
    /// The shape of the group's table.
    pub shape: Shape,
    /// Whether every entry of its history is logged.
    pub caught_up: bool,
}

impl Standing {
    // The members of the view that it does not suspect, itself among them.
    pub(crate) fn unsuspected(&self) -> Mask
        ensures value { result ≡ unsuspected self.now }
        ensures each { (i : ℕ) → has result i
            ≡ (has self.now.members i && not (has self.now.suspects i)) }
        ensures part { IsPartOf result self.now.members }
    {
        self.members.without(self.suspects)
    }
}
