ghost use Rattle.std.specs.Prelude.{◌≡◌, Some, IfOk, IsErrOf};
ghost use Rattle.dr_script.specs.{Ranges.HasRanges, Reading.{Reads, reading_of}};
ghost use Rattle.dr_text.specs.declared.last.Last.{Last as LastOf};
ghost use Rattle.dr_intake.specs.Reading.{refusal_in};

use dr_script::{MAX_SCRIPT, Script, ScriptFault, read_script};
use dr_text::Last;
use std::alloc::Global;

/// The most bytes of a source that are read for a script: one more than a script may have.
pub const READ_LIMIT: usize = MAX_SCRIPT + 1;

/// The script that these bytes are.
///
/// # Errors
///
/// The last line of a run that is refused for them; none where memory was wanting.
pub fn script_or_refusal(alloc: Global, bytes: &[u8]) -> Result<Script, Option<Last>>
    ensures script { IfOk result (λ s. reading_of bytes.now ≡ Reads s) }
    ensures ranges { IfOk result (λ s. HasRanges s) }
    ensures refusal { (line : LastOf) → IsErrOf result (Some line)
        → refusal_in (reading_of bytes.now) ≡ Some line }
{
    match read_script(alloc, bytes) {
        Ok(script) => Ok(script),
        Err(ScriptFault::TooLong) => Err(Some(Last::TooLong)),
        Err(ScriptFault::NotJson) => Err(Some(Last::NotJson)),
        Err(ScriptFault::Wrong { rule, path }) => Err(Some(Last::Rule { rule, path })),
        Err(ScriptFault::OutOfMemory) => Err(None),
    }
}
