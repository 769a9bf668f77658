//! How the log in a file is of which nothing is known.

ghost use Rattle.std.specs.Prelude.{◌<◌, ◌≤◌, length};
ghost use Rattle.dr_yard.specs.Walks.{IsWalkIn};

use crate::file_disk::{length_of, read_from, seal_before};
use crate::seal::Seal;
use dr_log_bytes::{Block, FIRST_GATE, block_at, format_of};
use std::fs::File;
use std::hash::FoldHasher;
use std::io;

/// How many bytes of a file are looked at together. A record has fewer.
const WINDOW: usize = 16384;

/// How far the records in some bytes reach.
enum Walk {
    /// To a closed gate at this place.
    Closed(usize),
    /// So far at least: what stands behind may be a part of a record.
    Further(usize),
}

/// How a file is, if it is a log with records.
pub(crate) fn seal_of(file: &File) -> io::Result<Option<Seal>> {
    let Some(first) = first_gate(file)? else {
        return Ok(None)
    };
    match closed_gate(file, first, length_of(file)?)? {
        Some(gate) => seal_before(file, FoldHasher::default(), 0, gate),
        None => Ok(None),
    }
}

/// How many bytes of a log stand before its closed gate, where it has one: they are looked for from a gate on.
fn closed_gate(file: &File, from: u64, len: u64) -> io::Result<Option<u64>> {
    let mut window = [0; WINDOW];
    let mut at = from;
    while at < len {
        let count = read_from(file, at, &mut window)?;
        match walk_in(&window[..count]) {
            Walk::Closed(gate) => return Ok(Some(at.saturating_add(gate as u64))),
            Walk::Further(0) => return Ok(None),
            Walk::Further(more) => at = at.saturating_add(more as u64),
        }
    }
    Ok(None)
}

/// How far the records in bytes reach that begin with a gate.
fn walk_in(bytes: &[u8]) -> Walk
    ensures { IsWalkIn (length bytes.now) result }
{
    let mut at = 0;
    while at < bytes.len() {
        match block_at(bytes, at) {
            Block::Record(_, len) => at += 1 + len,
            Block::Closed => return Walk::Closed(at),
            Block::Broken => return Walk::Further(at),
        }
    }
    Walk::Further(at)
}

/// The place of the first gate of a file that begins as a log.
fn first_gate(file: &File) -> io::Result<Option<u64>> {
    let mut magic = [0; FIRST_GATE];
    let count = read_from(file, 0, &mut magic)?;
    Ok(format_of(&magic[..count]).map(|_| FIRST_GATE as u64))
}
