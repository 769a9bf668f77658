use crate::passage::Broken;
use dr_entry::Text;
use std::alloc::{AllocError, AllocFailed};
use thiserror::Error;

/// Why a text was not taken as a script.
#[derive(Debug, PartialEq, Eq, Error, Drop)]
pub enum ScriptFault {
    /// Memory was wanting.
    #[error("out of memory")]
    OutOfMemory,
    /// The text is longer than a script may be.
    #[error("too long")]
    TooLong,
    /// The text is not JSON.
    #[error("not json")]
    NotJson,
    /// The text breaks the rule with this number, from 1 to 14, first at the place with this path.
    #[error("rule {rule} is broken")]
    Wrong { rule: u8, path: Text },
}

impl From<AllocError> for ScriptFault {
    ghost use Rattle.std.specs.Prelude.{◌≡◌};
    ghost use Rattle.dr_script.specs.declared.refusal.ScriptFault.TheVariants.{OutOfMemory};

    ghost from_gives = { λ _ fault. fault ≡ OutOfMemory };

    fn from(_: AllocError) -> Self {
        ScriptFault::OutOfMemory
    }
}

/// Why the reading of a value stopped.
#[derive(Clone, Copy)]
pub(crate) enum Stop {
    OutOfMemory,
    Rule(Broken),
}

impl From<AllocError> for Stop {
    ghost use Rattle.std.specs.Prelude.{◌≡◌};
    ghost use Rattle.dr_script.specs.declared.refusal.Stop.TheVariants.{OutOfMemory};

    ghost from_gives = { λ _ stop. stop ≡ OutOfMemory };

    fn from(_: AllocError) -> Self {
        Stop::OutOfMemory
    }
}

impl<T: Drop> From<AllocFailed<T>> for Stop {
    ghost use Rattle.std.specs.Prelude.{◌≡◌};
    ghost use Rattle.dr_script.specs.declared.refusal.Stop.TheVariants.{OutOfMemory};

    ghost from_gives = { λ _ stop. stop ≡ OutOfMemory };

    fn from(_: AllocFailed<T>) -> Self {
        Stop::OutOfMemory
    }
}

impl From<Broken> for Stop {
    ghost use Rattle.std.specs.Prelude.{◌≡◌};
    ghost use Rattle.dr_script.specs.declared.refusal.Stop.TheVariants.{Rule};

    ghost from_gives = { λ broken stop. stop ≡ Rule broken };

    fn from(broken: Broken) -> Self {
        Stop::Rule(broken)
    }
}
