use std::alloc::AllocError;
use thiserror::Error;

/// Why a store does not answer at a version.
#[derive(Clone, Copy, Debug, PartialEq, Eq, Error)]
pub enum AtFault {
    /// Memory was wanting.
    #[error("memory was wanting")]
    OutOfMemory,
    /// It has come to `version` only.
    #[error("the store has come to version {version} only")]
    Ahead { version: u64 },
    /// It has forgotten all versions below `oldest`.
    #[error("the store has forgotten all versions below {oldest}")]
    Forgotten { oldest: u64 },
}

impl From<AllocError> for AtFault {
    ghost use Rattle.std.specs.Prelude.{◌≡◌};
    ghost use Rattle.dr_store.specs.declared.fault.AtFault.TheVariants.{OutOfMemory};

    ghost from_gives = { λ _ fault. fault ≡ OutOfMemory };

    fn from(_: AllocError) -> Self {
        AtFault::OutOfMemory
    }
}
