ghost use Rattle.std.specs.Prelude.{◌≡◌, ◌⊎◌};
ghost use Rattle.dr_tools.specs.Judged.{Judged};

use crate::judging::verdict::{LONGEST_REPORT, answer_for};
use dr_intake::{OUT_OF_MEMORY, READ_FAULT, READ_LIMIT, ReadFault, read_all, tell};
use dr_io::{Sink, Source};
use std::alloc::Global;

/// Reads a script and the report of a run of it, each from its source, writes to the sink whether the report is right,
/// and answers the status: 0 for one that is, 13 for one that isn't, 3 where the script is refused or the text is no
/// report of it, 4 where a source failed, 5 where the sink failed, 10 where memory was wanting.
///
/// The first line is `yes`, or the first flaw of the report, as `derecho check` tells it. Where that is an entry that an
/// earlier member has otherwise, both entries stand below it, each behind its line of the report.
pub fn judge_report<S: Source, R: Source, K: Sink>(
    alloc: Global,
    script: &mut S,
    report: &mut R,
    sink: &mut K,
) -> u8
    ensures judged { Judged (S.left script.old) (S.left script.new) (R.left report.old) (R.left report.new)
        (S.faults script.old) (S.faults script.new) (R.faults report.old) (R.faults report.new)
        (K.held sink.old) (K.held sink.new) (K.faults sink.old) (K.faults sink.new) result }
    // No fault is hidden.
    ensures script_fault_told { (S.faults script.new ≡ S.faults script.old) ⊎ (result ≡ 4) }
    ensures report_fault_told { (R.faults report.new ≡ R.faults report.old) ⊎ (result ≡ 4) }
    ensures write_fault_told { (K.faults sink.new ≡ K.faults sink.old) ⊎ (result ≡ 5) }
{
    let script = match read_all(alloc, script, READ_LIMIT) {
        Ok(bytes) => bytes,
        Err(ReadFault::Failed) => return READ_FAULT,
        Err(ReadFault::OutOfMemory) => return OUT_OF_MEMORY,
    };
    let report = match read_all(alloc, report, LONGEST_REPORT + 1) {
        Ok(bytes) => bytes,
        Err(ReadFault::Failed) => return READ_FAULT,
        Err(ReadFault::OutOfMemory) => return OUT_OF_MEMORY,
    };
    tell(answer_for(alloc, &script, &report), sink)
}
