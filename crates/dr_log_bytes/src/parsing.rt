//! Reads a log's bytes.
ghost use Rattle.std.specs.Prelude.{◌≡◌, IfOk, Err, ℕ};
ghost use Rattle.dr_log_bytes.specs.{Grammar.{IsLogOf, IsNoLog}, declared.parsing.ParseFault.TheVariants.Damaged};

use crate::block::{Block, FIRST_GATE, block_at, format_of};
use crate::content::Content;
use std::alloc::{AllocError, Global};

/// Why bytes are no log.
#[derive(Clone, Copy, Debug, PartialEq, Eq)]
pub enum ParseFault {
    OutOfMemory,
    /// They do not begin as one, where `at` is 0, or their records break off at the gate at the place `at`.
    Damaged { at: u64 },
}

impl From<AllocError> for ParseFault {
    ghost use Rattle.std.specs.Prelude.{◌≡◌};
    ghost use Rattle.dr_log_bytes.specs.declared.parsing.ParseFault.TheVariants.{OutOfMemory};

    ghost from_gives = { λ _ why. why ≡ OutOfMemory };

    fn from(_: AllocError) -> Self {
        ParseFault::OutOfMemory
    }
}

/// Reads the records up to the first closed gate, in one pass, and answers what is on the log.
///
/// # Errors
///
/// Want of memory; or bytes that are no log.
pub fn parse(alloc: Global, bytes: &[u8]) -> Result<Content, ParseFault>
    ensures found { IfOk result (IsLogOf bytes.now) }
    ensures damaged { (at : ℕ) → result ≡ Err (Damaged at) → IsNoLog bytes.now at }
{
    let Some(newer) = format_of(bytes) else {
        return Err(ParseFault::Damaged { at: 0 });
    };
    let mut content = Content::empty(alloc, newer);
    let mut at = FIRST_GATE;
    loop {
        match block_at(bytes, at) {
            Block::Record(record, len) => {
                if !content.may_take(&record) {
                    return Err(ParseFault::Damaged { at: at as u64 });
                }
                let size = 1 + len;
                content.take(record, size as u64)?;
                at += size;
            }
            Block::Closed => return Ok(content),
            Block::Broken => return Err(ParseFault::Damaged { at: at as u64 }),
        }
    }
}
