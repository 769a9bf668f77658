//! Puts records behind a closed gate, and opens it once for all of them.

ghost use Rattle.std.specs.Prelude.{◌≡◌, ◌+◌, ◌*◌, ◌-◌, ◌≤◌, ◌<◌, ◌++◌, ◌∷◌, [], All, IfSome, IfOk, OnOk, OnErr, length, min, ◌^◌};
ghost use Rattle.dr_io.specs.Faults.{HasCause};
ghost use Rattle.dr_disk.specs.{Calls.{FailedWrite, Write}, Disk.{added, content_of}};
ghost use Rattle.dr_entry.specs.Spelling.{FitsEntry, IsValidEntry, entry_spelling};
ghost use Rattle.dr_log.specs.Grouping.{StopsAmong, added_all, group, opening};
ghost use Rattle.dr_log.specs.Standing.{as_records, entries_length};

use crate::making::CLOSED;
use arrayvec::ArrayVec;
use dr_disk::Disk;
use dr_entry::{Entry, RECORD_ROOM, encode_entry};
use dr_io::Failed;
use dr_log_bytes::OPEN;

/// Writes the bytes at `at`, right behind a gate, and once they are safe opens it.
pub(crate) fn put_behind<D: Disk>(disk: &mut D, at: u64, bytes: &[u8]) -> Result<(), Failed>
    requires behind { 1 ≤ at }
    requires inside { IfSome (D.told disk.old) (λ told. at ≤ length (content_of told)) }
    requires room_for_calls { 4 ≤ D.room_calls disk.old }
    requires room_for_bytes { length bytes.now + 1 ≤ D.room_bytes disk.old }
    ensures ok { OnOk result (D.told disk.new
        ≡ added_all (Write at bytes.now ∷ opening (at - 1)) (D.told disk.old)) }
    ensures err { OnErr result (StopsAmong (Write at bytes.now ∷ opening (at - 1))
        (D.told disk.old) (D.told disk.new)) }
    ensures calls_kept { D.room_calls disk.old ≤ D.room_calls disk.new + 4 }
    ensures bytes_kept { D.room_bytes disk.old ≤ D.room_bytes disk.new + (length bytes.now + 1) }
    ensures cause { HasCause (D.faults disk.old) (D.faults disk.new) result }
{
    disk.write_at(at, bytes)?;
    open_gate(disk, at - 1)
}

/// Writes entries from `at` on, right behind a gate, with an open gate behind each but the last, and once
/// they are safe opens the gate before them.
pub(crate) fn put_group<D: Disk>(
    disk: &mut D,
    at: u64,
    first: &[Entry],
    last: &Entry,
) -> Result<(), Failed>
    requires behind { 1 ≤ at }
    requires inside { IfSome (D.told disk.old) (λ told. at ≤ length (content_of told)) }
    requires valid { All IsValidEntry first.now }
    requires valid_last { IsValidEntry last.now }
    requires small { at + entries_length (first.now ++ last.now ∷ []) < 2 ^ 64 }
    requires room_for_calls { length first.now + 4 ≤ D.room_calls disk.old }
    requires room_for_bytes { 72 * (length first.now + 1) + 1 ≤ D.room_bytes disk.old }
    ensures ok { OnOk result (D.told disk.new
        ≡ added_all (group at (as_records (first.now ++ last.now ∷ []))) (D.told disk.old)) }
    ensures err { OnErr result (StopsAmong (group at (as_records (first.now ++ last.now ∷ [])))
        (D.told disk.old) (D.told disk.new)) }
    ensures calls_kept { D.room_calls disk.old ≤ D.room_calls disk.new + (length first.now + 4) }
    ensures bytes_kept { D.room_bytes disk.old ≤ D.room_bytes disk.new + (72 * (length first.now + 1) + 1) }
    ensures cause { HasCause (D.faults disk.old) (D.faults disk.new) result }
{
    let gate = at - 1;
    let mut end = at;
    for i in 0..first.len() {
        end += put_entry(disk, end, &first[i], OPEN)?;
    }
    put_entry(disk, end, last, CLOSED)?;
    open_gate(disk, gate)
}

/// Opens the gate at `gate` once all that was written is safe, and then is as safe.
fn open_gate<D: Disk>(disk: &mut D, gate: u64) -> Result<(), Failed>
    requires inside { IfSome (D.told disk.old) (λ told. gate ≤ length (content_of told)) }
    requires room_for_calls { 3 ≤ D.room_calls disk.old }
    requires room_for_byte { 1 ≤ D.room_bytes disk.old }
    ensures ok { OnOk result (D.told disk.new ≡ added_all (opening gate) (D.told disk.old)) }
    ensures err { OnErr result (StopsAmong (opening gate) (D.told disk.old) (D.told disk.new)) }
    ensures calls_kept { D.room_calls disk.old ≤ D.room_calls disk.new + 3 }
    ensures bytes_kept { D.room_bytes disk.old ≤ D.room_bytes disk.new + 1 }
    ensures cause { HasCause (D.faults disk.old) (D.faults disk.new) result }
{
    disk.sync()?;
    disk.write_at(gate, &[OPEN])?;
    disk.sync()
}

/// Writes an entry at `at`, and a gate byte behind it. Answers how many bytes these are.
fn put_entry<D: Disk>(disk: &mut D, at: u64, entry: &Entry, gate: u8) -> Result<u64, Failed>
    requires inside { IfSome (D.told disk.old) (λ told. at ≤ length (content_of told)) }
    requires valid { IsValidEntry entry.now }
    requires room_for_call { 1 ≤ D.room_calls disk.old }
    requires room_for_bytes { 72 ≤ D.room_bytes disk.old }
    ensures count { IfOk result (λ n. n ≡ 1 + length (entry_spelling entry.now)) }
    ensures ok { OnOk result (D.told disk.new
        ≡ added (Write at (entry_spelling entry.now ++ gate ∷ [])) (D.told disk.old)) }
    ensures err { OnErr result (D.told disk.new
        ≡ added (FailedWrite at (length (entry_spelling entry.now ++ gate ∷ []))) (D.told disk.old)) }
    ensures reaches { IfOk result (λ n. IfSome (D.told disk.new)
        (λ told. at + n ≤ length (content_of told))) }
    ensures calls_kept { D.room_calls disk.old ≤ D.room_calls disk.new + 1 }
    ensures bytes_kept { D.room_bytes disk.old ≤ D.room_bytes disk.new + 72 }
    ensures cause { HasCause (D.faults disk.old) (D.faults disk.new) result }
{
    let mut bytes: ArrayVec<u8, RECORD_ROOM> = ArrayVec::new();
    encode_entry(entry, &mut bytes);
    bytes.push(gate);
    disk.write_at(at, bytes.as_slice())?;
    Ok(bytes.len() as u64)
}

/// How many bytes these entries take with their gates, where that is a number of 64 bits.
pub(crate) fn size_of(first: &[Entry], last: &Entry) -> u64
    requires valid { All IsValidEntry first.now }
    requires valid_last { IsValidEntry last.now }
    ensures size { result ≡ min (entries_length (first.now ++ last.now ∷ [])) (2 ^ 64 - 1) }
    ensures fits { All FitsEntry first.now }
    ensures fits_last { FitsEntry last.now }
{
    let mut size: u64 = 0;
    for i in 0..first.len() {
        size = size.saturating_add(size_of_entry(&first[i]));
    }
    size.saturating_add(size_of_entry(last))
}

/// How many bytes an entry takes with its gate.
fn size_of_entry(entry: &Entry) -> u64
    requires valid { IsValidEntry entry.now }
    ensures size { result ≡ 1 + length (entry_spelling entry.now) }
    ensures fits { FitsEntry entry.now }
{
    let mut bytes: ArrayVec<u8, RECORD_ROOM> = ArrayVec::new();
    encode_entry(entry, &mut bytes);
    bytes.len() as u64 + 1
}
