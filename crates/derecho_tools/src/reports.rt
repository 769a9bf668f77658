use crate::unread::{read_one, tell_unread};
use dr_intake::READ_FAULT;
use dr_io::{InputSource, OutputSink};
use dr_tools::judge_report;
use std::alloc::Global;
use std::fs::File;

/// How a report is judged.
pub(crate) const JUDGE_USAGE: &str = "usage: derecho_tools judge SCRIPT REPORT\n";

/// Judges the report in a file by the script in another one, and answers the status. Standard error tells of the first
/// that can't be read.
pub(crate) fn judge_files(rt: &HostRuntime, alloc: Global, script: &str, report: &str) -> u8 {
    let status = match (File::open(rt, script), File::open(rt, report)) {
        (Ok(script), Ok(report)) => judge_report(
            alloc,
            &mut InputSource::new(script),
            &mut InputSource::new(report),
            &mut OutputSink::new(rt.stdout()),
        ),
        _ => READ_FAULT,
    };
    if status == READ_FAULT {
        let unread = if read_one(rt, script).is_ok() {
            report
        } else {
            script
        };
        tell_unread(rt, unread);
    }
    status
}
