use crate::unread::tell_unread;
use dr_intake::{DONE, READ_FAULT, SCRIPT_REFUSED, USAGE, WRITE_FAULT};
use dr_io::{InputSource, OutputSink, Sink};
use dr_text::write_all;
use dr_tools::print_log;
use std::alloc::Global;
use std::fs::File;

/// How logs are printed.
pub(crate) const LOG_USAGE: &str = "usage: derecho_tools log FILE..\n";

/// Prints the logs in these files, one behind the other, and answers the first status that isn't that of a log.
/// Without a file it says on standard error how it is called.
pub(crate) fn print_logs(rt: &HostRuntime, alloc: Global, names: &[String]) -> u8 {
    if names.is_empty() {
        let _ = write_all(&mut OutputSink::new(rt.stderr()), LOG_USAGE.as_bytes());
        return USAGE;
    }
    let mut first = DONE;
    for name in names {
        let name = name.as_str();
        if names.len() > 1 {
            let _ = println!(rt; "{name:?}:");
        }
        let status = print_one(rt, alloc, name);
        if first == DONE {
            first = status;
        }
    }
    first
}

/// Prints the log in a file; where it can't be read standard error tells why.
fn print_one(rt: &HostRuntime, alloc: Global, name: &str) -> u8 {
    let mut sink = OutputSink::new(rt.stdout());
    let status = match File::open(rt, name) {
        Ok(file) if is_too_long(&file) => refuse_length(&mut sink),
        Ok(file) => print_log(alloc, &mut InputSource::new(file), &mut sink),
        Err(_) => READ_FAULT,
    };
    if status == READ_FAULT {
        tell_unread(rt, name);
    }
    status
}

/// The most bytes that a log has.
const MOST: u64 = 2_147_483_648;

/// Whether a file has more bytes than a log: then it isn't read.
fn is_too_long(file: &File) -> bool {
    match file.metadata() {
        Ok(metadata) => metadata.len() > MOST,
        Err(_) => false,
    }
}

/// Says that a file is too long, and answers the status.
fn refuse_length<K: Sink>(sink: &mut K) -> u8 {
    match write_all(sink, b"refused: too long\n") {
        Ok(()) => SCRIPT_REFUSED,
        Err(_) => WRITE_FAULT,
    }
}
