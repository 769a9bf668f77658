ghost use Rattle.std.specs.Prelude.{◌≡◌, IfOk, IsErrOf};
ghost use Rattle.dr_io.specs.Faults.{Rose};
ghost use Rattle.dr_intake.specs.Reading.{WasReadTo};

use dr_io::{Failed, Source};
use std::alloc::{AllocError, Global};

/// The most bytes that one call of a source is asked for.
const PIECE: usize = 4096;

/// Why a source was not read.
#[derive(Clone, Copy, Debug, PartialEq, Eq)]
pub enum ReadFault {
    /// Memory was wanting.
    OutOfMemory,
    /// The source failed.
    Failed,
}

impl From<AllocError> for ReadFault {
    ghost use Rattle.std.specs.Prelude.{◌≡◌};
    ghost use Rattle.dr_intake.specs.declared.reading.ReadFault.TheVariants.{OutOfMemory};

    ghost from_gives = { λ _ fault. fault ≡ OutOfMemory };

    fn from(_: AllocError) -> Self {
        ReadFault::OutOfMemory
    }
}

impl From<Failed> for ReadFault {
    ghost use Rattle.std.specs.Prelude.{◌≡◌};
    ghost use Rattle.dr_intake.specs.declared.reading.ReadFault.TheVariants.{Failed as ReadFailed};

    ghost from_gives = { λ _ fault. fault ≡ ReadFailed };

    fn from(_: Failed) -> Self {
        ReadFault::Failed
    }
}

/// Reads a source until it ends, or until `limit` bytes were read.
///
/// # Errors
///
/// Want of memory, or a fault of the source.
pub fn read_all<S: Source>(
    alloc: Global,
    source: &mut S,
    limit: usize,
) -> Result<Vec<u8>, ReadFault>
    ensures bytes { IfOk result
        (λ v. WasReadTo limit (S.left source.old) (S.left source.new) v.items) }
    ensures cause { IsErrOf result ReadFault.Failed → Rose (S.faults source.old) (S.faults source.new) }
    ensures calm { IfOk result (λ _. S.faults source.new ≡ S.faults source.old) }
    ensures wanting { IsErrOf result ReadFault.OutOfMemory
        → S.faults source.new ≡ S.faults source.old }
{
    let mut bytes = Vec::new(alloc);
    let mut buffer = [0u8; PIECE];
    while bytes.len() < limit {
        let room = (limit - bytes.len()).min(PIECE);
        let count = source.read(&mut buffer[..room])?;
        if count == 0 {
            return Ok(bytes);
        }
        bytes.extend_from_slice(&buffer[..count])?;
    }
    Ok(bytes)
}
