use std::alloc::AllocError;
use thiserror::Error;

/// Why a roster is not laid out in shards.
#[derive(Clone, Copy, Debug, PartialEq, Eq, Error)]
pub enum LayFault {
    /// Memory was wanting.
    #[error("memory was wanting")]
    OutOfMemory,
    /// There are more shards than members.
    #[error("there are {shards} shards of {members} members")]
    NoShard { shards: u8, members: u8 },
    /// A shard has one age only.
    #[error("the script has {ages} ages")]
    ManyAges { ages: u8 },
    /// The fault at this place of the script's list is a suspicion of a member of another shard.
    #[error("fault {fault} crosses shards")]
    Crosses { fault: u16 },
}

impl From<AllocError> for LayFault {
    ghost use Rattle.std.specs.Prelude.{◌≡◌};
    ghost use Rattle.dr_shards.specs.declared.fault.LayFault.TheVariants.{OutOfMemory};

    ghost from_gives = { λ _ fault. fault ≡ OutOfMemory };

    fn from(_: AllocError) -> Self {
        LayFault::OutOfMemory
    }
}
