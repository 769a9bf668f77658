//! Why logs that were handed in make no start.
use std::alloc::AllocError;

/// Why logs that were handed in make no start.
#[derive(Clone, Copy, Debug, PartialEq, Eq)]
pub enum ChooseFault {
    OutOfMemory,
    /// An entry of the log of this member may not stand behind those before it, for this script.
    Foreign {
        member: u8,
        place: u64,
    },
    /// So many logs of the roster, or of the members of this view, were handed in, and so many are needed.
    NoQuorum {
        view: Option<u8>,
        have: u8,
        need: u8,
    },
    /// The logs of these two members, both of the last age, have an entry at this place, and differ there.
    Disagree {
        a: u8,
        b: u8,
        place: u64,
    },
    /// A log knows the last age.
    AgesUsedUp,
}

impl From<AllocError> for ChooseFault {
    ghost use Rattle.std.specs.Prelude.{◌≡◌};
    ghost use Rattle.dr_quorum.specs.declared.faults.ChooseFault.TheVariants.{OutOfMemory};

    ghost from_gives = { λ _ fault. fault ≡ OutOfMemory };

    fn from(_: AllocError) -> Self {
        ChooseFault::OutOfMemory
    }
}
