ghost use Rattle.std.specs.Prelude.{◌≡◌, ◌⊎◌};
ghost use Rattle.dr_tools.specs.LogPrinted.{Printed};

use crate::log::text::{LONGEST_LOG, answer_for};
use dr_intake::{OUT_OF_MEMORY, READ_FAULT, ReadFault, read_all, tell};
use dr_io::{Sink, Source};
use std::alloc::Global;

/// Reads the log that a source has, prints it to the sink, and answers the status: 0 for a log, 7 for one that
/// is damaged, 3 for more bytes than a log has, 4 where the source failed, 5 where the sink failed, 10 where
/// memory was wanting.
pub fn print_log<S: Source, K: Sink>(alloc: Global, source: &mut S, sink: &mut K) -> u8
    ensures printed { Printed (S.left source.old) (S.left source.new)
        (S.faults source.old) (S.faults source.new) (K.held sink.old) (K.held sink.new)
        (K.faults sink.old) (K.faults sink.new) result }
    // No fault is hidden.
    ensures read_fault_told { (S.faults source.new ≡ S.faults source.old) ⊎ (result ≡ 4) }
    ensures write_fault_told { (K.faults sink.new ≡ K.faults sink.old) ⊎ (result ≡ 5) }
{
    let bytes = match read_all(alloc, source, LONGEST_LOG + 1) {
        Ok(bytes) => bytes,
        Err(ReadFault::Failed) => return READ_FAULT,
        Err(ReadFault::OutOfMemory) => return OUT_OF_MEMORY,
    };
    tell(answer_for(alloc, &bytes), sink)
}
