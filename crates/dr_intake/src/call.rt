ghost use Rattle.std.specs.Prelude.{◌≡◌, ◌⊎◌, Some, IfErr, IfOk};
ghost use Rattle.dr_intake.specs.{Answer.{IsUnread, wordless}, Reading.WasRead};
ghost use Rattle.dr_intake.specs.declared.call.Unread.TheVariants.{SourceFault};

use crate::reading::{ReadFault, read_all};
use crate::script::READ_LIMIT;
use dr_io::Source;
use std::alloc::Global;

/// Why a call reads nothing.
#[derive(Clone, Copy, Debug, PartialEq, Eq)]
pub enum Unread {
    /// Its words are those of no call.
    Usage,
    /// Its source failed.
    SourceFault,
    /// Memory was wanting.
    OutOfMemory,
}

/// What the words of a call ask for, where they ask for something, and what the source has for it.
///
/// # Errors
///
/// Why nothing was read.
pub fn read_for<C: Drop, S: Source>(
    alloc: Global,
    asked: Option<C>,
    source: &mut S,
) -> Result<(C, Vec<u8>), Unread>
    ensures asked { IfOk result (λ read. asked ≡ Some read.0) }
    ensures bytes { IfOk result (λ read. WasRead (S.left source.old) (S.left source.new) read.1.items) }
    ensures calm { IfOk result (λ _. S.faults source.new ≡ S.faults source.old) }
    ensures unread { IfErr result (λ why. IsUnread asked (S.left source.old) (S.left source.new)
        (S.faults source.old) (S.faults source.new) why) }
    // No fault is hidden.
    ensures told { IfErr result
        (λ why. (S.faults source.new ≡ S.faults source.old) ⊎ (why ≡ SourceFault)) }
{
    let Some(asked) = asked else {
        return Err(Unread::Usage);
    };
    match read_all(alloc, source, READ_LIMIT) {
        Ok(bytes) => Ok((asked, bytes)),
        Err(ReadFault::Failed) => Err(Unread::SourceFault),
        Err(ReadFault::OutOfMemory) => Err(Unread::OutOfMemory),
    }
}

/// What a call asks for that takes no words: something where there are none.
pub fn wordless(words: &[String]) -> Option<()>
    ensures { result ≡ wordless words.now }
{
    if words.is_empty() { Some(()) } else { None }
}
