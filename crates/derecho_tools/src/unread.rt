use std::fs::File;
use std::io::{self, Read};

/// Says on standard error why a file couldn't be read.
pub(crate) fn tell_unread(rt: &HostRuntime, name: &str) {
    let _ = match read_one(rt, name) {
        Ok(_) => eprintln!(rt; "derecho_tools: {name:?} can't be read"),
        Err(error) => eprintln!(rt; "derecho_tools: {name:?} can't be read: {error}"),
    };
}

/// Reads a byte of a file: where it can't be read the error tells why.
pub(crate) fn read_one(rt: &HostRuntime, name: &str) -> io::Result<usize> {
    let mut byte = [0u8];
    File::open(rt, name)?.read(&mut byte)
}
