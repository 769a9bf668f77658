//! Laws of how long a log is.

ghost use Rattle.std.specs.Prelude.{◌≤◌, ◌+◌, ◌*◌, List, [], All, length};
ghost use Rattle.dr_entry.specs.{Spelling.{IsValid, IsValidEntry}, declared.entry.Entry.Entry};
ghost use Rattle.dr_entry.specs.declared.record.Record.TheVariants as records;
ghost use Rattle.dr_log.specs.Standing.{log_length};
ghost use Rattle.dr_log_bytes.specs.Content.{block_length};

/// A law: the block of an entry has 72 bytes at most. So a log of entries is no longer than its first
/// nine bytes and 72 for each of them.
pub fn blocks_are_short()
    ensures block { (e : Entry) → IsValid (records.Entry e) → block_length (records.Entry e) ≤ 72 }
    ensures log { (entries : List Entry) → All IsValidEntry entries
        → log_length entries [] ≤ 9 + 72 * length entries }
{}
