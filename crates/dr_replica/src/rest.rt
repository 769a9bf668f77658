//! What a trim has left of a view.
ghost use Rattle.std.specs.{Option.option_map, Prelude.{◌≡◌, ℕ, ◌+◌, ◌^◌, ◌<◌, ◌≤◌, IfSome, length, slice_index}};
ghost use Rattle.dr_history.specs.Members.{members_of};
ghost use Rattle.dr_order.specs.Merge.{IsNextHeld};
ghost use Rattle.dr_replica.specs.Spots.{IsSpot};
ghost use Rattle.dr_trim.specs.Trims.{trims_by_rank};

use crate::items::greatest;
use crate::spot::Spot;
use arrayvec::ArrayVec;
use dr_entry::MAX_MEMBERS;
use dr_trim::trims_by_rank;
use dr_words::Mask;

/// The places that a trim takes of a view, from one on.
#[derive(Drop)]
pub(crate) struct Rest {
    /// The trims of the members, by rank, none of which is above `most`.
    pub trims: ArrayVec<u32, MAX_MEMBERS>,
    pub most: u32,
    pub next: Spot,
    ghost most_is: { (i : ℕ) → slice_index trims.items i ≤ most },
    ghost most_fits: { most < 2 ^ 32 },
    ghost spot: { IsSpot (length trims.items) next },
}

impl Rest {
    /// Those that a trim takes of the members of a view, from a spot on.
    pub(crate) fn from(members: Mask, trim: &[u32; MAX_MEMBERS], next: Spot) -> Rest
        requires { IsSpot (length (members_of members)) next }
        ensures trims { result.trims.items ≡ trims_by_rank members trim.now }
        ensures next { result.next ≡ next }
    {
        let trims = trims_by_rank(members, trim);
        let most = greatest(trims.as_slice());
        Rest { trims, most, next }
    }

    /// Goes on to the next of them.
    pub(crate) fn take(&mut self) -> Option<Spot>
        ensures next { IsNextHeld self.old.trims.items self.old.next.place
            (option_map (λ s. s.place) result) }
        ensures spot { IfSome result (IsSpot (length self.old.trims.items)) }
        ensures behind { IfSome result (λ s. self.new.next.place ≡ s.place + 1) }
        ensures trims { self.new.trims ≡ self.old.trims }
    {
        while self.next.number < u64::from(self.most) {
            let spot = self.next;
            self.next.step(self.trims.len());
            if spot.number < u64::from(self.trims.as_slice()[spot.rank]) {
                return Some(spot);
            }
        }
        None
    }
}
