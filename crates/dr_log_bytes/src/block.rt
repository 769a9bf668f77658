//! Reads a log's bytes block by block.

ghost use Rattle.std.specs.Prelude.{◌≡◌, ◌≢◌, ◌≤◌, IfNone, IfSome, length, take, Bool};
ghost use Rattle.dr_log_bytes.specs.{Blocks.IsBlockAt, Grammar.magic_of};

use dr_entry::{Record, decode};

/// By these bytes a log of the older format begins, and one of the newer.
pub const MAGICS: [[u8; 8]; 2] = [*b"DERLOG01", *b"DERLOG02"];

/// A gate byte with a record behind it. Every other is closed.
pub const OPEN: u8 = 1;

/// The place of the first gate of a log.
pub const FIRST_GATE: usize = 8;

/// What stands in a log's bytes at a place where a gate should be.
#[derive(Debug, Drop)]
pub enum Block {
    /// An open gate, and behind it this record, of so many bytes.
    Record(Record, usize),
    /// A closed gate: the log ends here.
    Closed,
    /// No gate, or an open one with no record behind it.
    Broken,
}

/// Whether bytes begin as a log of the newer format, or none where they don't begin as a log at all.
pub fn format_of(bytes: &[u8]) -> Option<bool>
    ensures some { IfSome result (λ newer. take 8 bytes.now ≡ magic_of newer) }
    ensures none { IfNone result ((newer : Bool) → take 8 bytes.now ≢ magic_of newer) }
{
    if bytes.len() < 8 {
        return None;
    }
    if bytes[..8] == MAGICS[1][..] {
        return Some(true);
    }
    if bytes[..8] == MAGICS[0][..] {
        return Some(false);
    }
    None
}

/// What stands at a place of a log's bytes. Read from the first gate on, and from the end of each record, it is
/// the records of the log, in order, and then how they end.
pub fn block_at(bytes: &[u8], at: usize) -> Block
    requires { at ≤ length bytes.now }
    ensures { IsBlockAt bytes.now at result }
{
    if at == bytes.len() {
        return Block::Broken;
    }
    if bytes[at] != OPEN {
        return Block::Closed;
    }
    match decode(&bytes[at + 1..]) {
        Ok((record, len)) => Block::Record(record, len),
        Err(_) => Block::Broken,
    }
}
