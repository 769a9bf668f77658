//! Where a member stands in the round robin of its view.
ghost use Rattle.std.specs.Prelude.{◌≡◌, ◌+◌, ◌^◌, ◌<◌};
ghost use Rattle.dr_replica.specs.Spots.{IsSpot, first_spot};

/// A place of the round robin, with the rank of its member and the number of its item, so that going
/// on to the next place takes no division.
#[derive(Clone, Copy)]
pub(crate) struct Spot {
    pub place: u64,
    pub rank: usize,
    pub number: u64,
}

impl Spot {
    /// The first place.
    pub(crate) fn first() -> Spot
        ensures { result ≡ first_spot }
    {
        Spot {
            place: 0,
            rank: 0,
            number: 0,
        }
    }

    /// Goes on to the next place, in a view of so many members.
    #[inline]
    pub(crate) fn step(&mut self, ranks: usize)
        requires spot { IsSpot ranks self.old }
        requires small { self.old.place + 1 < 2 ^ 64 }
        ensures place { self.new.place ≡ self.old.place + 1 }
        ensures spot { IsSpot ranks self.new }
    {
        self.place += 1;
        self.rank += 1;
        if self.rank == ranks {
            self.rank = 0;
            self.number += 1;
        }
    }
}
