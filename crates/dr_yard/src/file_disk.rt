//! A disk that is a file of the system.

ghost use Rattle.std.specs.Prelude.{◌≡◌, ◌≤◌, ◌%◌, length, IfOk};
ghost use Rattle.dr_io.specs.Faults.{Rose};

use crate::seal::{Breach, Seal};
use crate::sums::{PIECE, checksum_from, hash_pieces};
use crate::trouble::Reason;
use dr_disk::Disk;
use dr_io::Failed;
use dr_log_bytes::{EMPTY, OPEN};
use std::alloc::AllocError;
use std::fs::File;
use std::hash::FoldHasher;
use std::io;
use std::os::unix::fs::FileExt;

/// A file. It tells nothing of its content. Where it was sealed, its first read has to give what was sealed, and
/// fails where it doesn't.
#[derive(Drop)]
pub struct FileDisk {
    file: File,
    faults: u64,
    seal: Option<Seal>,
    /// The hasher behind the whole pieces of what is sealed, once that has been read and found right.
    right: Option<FoldHasher>,
    /// Where the furthest write has ended; 0 where there was none.
    end: u64,
    reason: Option<Reason>,
}

impl FileDisk {
    /// The disk that is this file, of which so many calls have failed.
    pub fn new(file: File, faults: u64) -> FileDisk
        ensures { result.faults ≡ faults }
    {
        FileDisk::sealed(file, faults, None)
    }

    /// The same of a file that was sealed so, if it was.
    pub(crate) fn sealed(file: File, faults: u64, seal: Option<Seal>) -> FileDisk
        ensures { result.faults ≡ faults }
    {
        FileDisk {
            file,
            faults,
            seal,
            right: None,
            end: 0,
            reason: None,
        }
    }

    /// How many calls have failed.
    pub fn faults(&self) -> u64
        ensures { result ≡ self.now.faults }
    {
        self.faults
    }

    /// Why the first call failed that did.
    pub(crate) fn reason(&self) -> Option<Reason> {
        self.reason
    }

    /// The file, which stays locked.
    pub(crate) fn into_file(self) -> File {
        self.file
    }

    /// How it is to be sealed as it is given back: as it is where all of its calls succeeded, as it was where nothing
    /// was written, and otherwise not anew.
    pub(crate) fn seal(&self) -> Option<Seal> {
        if self.end == 0 {
            return self.seal;
        }
        let (hasher, whole) = match (self.seal, self.right) {
            (Some(seal), Some(hasher)) => (hasher, whole_pieces(seal.length)),
            (Some(_), None) => return None,
            (None, _) => (FoldHasher::default(), 0),
        };
        match self.reason {
            Some(_) => None,
            // Each append ends with a closed gate.
            None => seal_before(&self.file, hasher, whole, self.end - 1).unwrap_or(None),
        }
    }

    /// Reads what the file begins with, which has to be what is sealed.
    fn read_sealed(&mut self, seal: Seal, into: &mut [u8]) -> Result<usize, Reason>
        ensures faults { self.new.faults ≡ self.old.faults }
        ensures bound { IfOk result (λ n. n ≤ length into.new) }
    {
        let length = seal.length;
        let mut hasher = FoldHasher::default();
        let whole = whole_pieces(length) as usize;
        let count = match read_hashed(&self.file, &mut hasher, whole, into) {
            Ok(count) => count,
            Err(error) => return Err(Reason::of(error.kind())),
        };
        if (count as u64) < length {
            return Err(Reason::Breached(Breach::Shorter { length }));
        }
        if checksum_from(hasher, &into[whole..length as usize]) != seal.sum {
            return Err(Reason::Breached(Breach::Changed { before: length }));
        }
        self.right = Some(hasher);
        Ok(count)
    }

    /// Counts a failed call, and keeps the reason of the first one.
    fn fault(&mut self, reason: Reason) -> Failed
        ensures later { self.old.faults ≤ self.new.faults }
        ensures rose { Rose self.old.faults self.new.faults }
    {
        self.faults = self.faults.saturating_add(1);
        if self.reason.is_none() {
            self.reason = Some(reason);
        }
        Failed
    }
}

/// How many of so many bytes are in whole pieces.
fn whole_pieces(length: u64) -> u64
    ensures bound { result ≤ length }
    ensures whole { result % 128 ≡ 0 }
{
    length / PIECE as u64 * PIECE as u64
}

/// How many bytes are read before they are hashed: so many stay near the processor.
const STEP: usize = 2048 * PIECE;

/// How many bytes are read where no buffer was handed in.
const WINDOW: usize = 128 * PIECE;

/// The checksum of a file's first bytes, by a hasher behind the first pieces of them.
fn sum_of_file(file: &File, hasher: FoldHasher, whole: u64, length: u64) -> io::Result<u64> {
    let mut hasher = hasher;
    let mut at = whole;
    let mut bytes = [0; WINDOW];
    while at < length {
        let size = (length - at).min(WINDOW as u64);
        let count = read_from(file, at, &mut bytes[..size as usize])? as u64;
        if count < size {
            return Err(io::Error::from(io::ErrorKind::UnexpectedEof));
        }
        if size < WINDOW as u64 {
            return Ok(checksum_from(hasher, &bytes[..size as usize]));
        }
        hash_pieces(&mut hasher, &bytes);
        at += size;
    }
    Ok(checksum_from(hasher, &[]))
}

/// How the log in a file is whose closed gate stands here, if it does and there are records before it. The hasher is
/// behind the first pieces.
pub(crate) fn seal_before(
    file: &File,
    hasher: FoldHasher,
    whole: u64,
    gate: u64,
) -> io::Result<Option<Seal>> {
    let mut found = [OPEN];
    read_from(file, gate, &mut found)?;
    if found[0] == OPEN || gate < EMPTY {
        return Ok(None);
    }
    Ok(Some(Seal {
        length: gate,
        sum: sum_of_file(file, hasher, whole, gate)?,
        is_open: false,
    }))
}

/// Reads the front of a file, and has a hasher take the whole pieces of its first bytes.
fn read_hashed(
    file: &File,
    hasher: &mut FoldHasher,
    whole: usize,
    into: &mut [u8],
) -> io::Result<usize>
    ensures { IfOk result (λ n. n ≤ length into.new) }
{
    let mut count = 0;
    while count < into.len() {
        let end = into.len().min(count.saturating_add(STEP));
        let more = read_from(file, count as u64, &mut into[count..end])?;
        let to_hash = (count + more).min(whole.max(count));
        hash_pieces(hasher, &into[count..to_hash]);
        count += more;
        if count < end {
            break;
        }
    }
    Ok(count)
}

pub(crate) fn length_of(file: &File) -> io::Result<u64> {
    Ok(file.metadata()?.len())
}

/// Reads until the buffer is full or the file ends.
pub(crate) fn read_from(file: &File, at: u64, into: &mut [u8]) -> io::Result<usize>
    ensures { IfOk result (λ n. n ≤ length into.new) }
{
    let mut count = 0;
    while count < into.len() {
        let more = file.read_at(&mut into[count..], at.wrapping_add(count as u64))?;
        if more == 0 {
            return Ok(count);
        }
        count += more;
    }
    Ok(count)
}

/// Writes at a place that isn't past the end. A file that proves to be shorter is a failure.
fn write_within(file: &File, at: u64, from: &[u8]) -> io::Result<()> {
    if length_of(file)? < at {
        return Err(io::Error::from(io::ErrorKind::UnexpectedEof));
    }
    file.write_all_at(from, at)
}

fn cut_to(file: &File, to: u64) -> io::Result<()> {
    if length_of(file)? > to {
        file.set_len(to)?;
    }
    Ok(())
}

impl Disk for FileDisk {
    ghost use Rattle.std.specs.Prelude.{◌^◌, None, true};

    ghost told = { λ _. None };

    ghost room_calls = { λ _. 2 ^ 64 };

    ghost room_bytes = { λ _. 2 ^ 64 };

    ghost faults = { λ disk. disk.faults };

    ghost groups = { λ _. true };

    fn wants_groups(&self) -> bool {
        true
    }

    fn reserve(&mut self, _calls: u64, _bytes: u64) -> Result<(), AllocError> {
        Ok(())
    }

    fn len(&mut self) -> Result<u64, Failed> {
        match length_of(&self.file) {
            Ok(len) => Ok(len),
            Err(error) => Err(self.fault(Reason::of(error.kind()))),
        }
    }

    fn read_at(&mut self, at: u64, into: &mut [u8]) -> Result<usize, Failed> {
        let read = match self.seal {
            Some(seal) if self.right.is_none() && at == 0 => self.read_sealed(seal, into),
            _ => read_from(&self.file, at, into).map_err(|error| Reason::of(error.kind())),
        };
        match read {
            Ok(count) => Ok(count),
            Err(reason) => Err(self.fault(reason)),
        }
    }

    fn write_at(&mut self, at: u64, from: &[u8]) -> Result<(), Failed> {
        self.end = self.end.max(at.saturating_add(from.len() as u64));
        match write_within(&self.file, at, from) {
            Ok(()) => Ok(()),
            Err(error) => Err(self.fault(Reason::of(error.kind()))),
        }
    }

    fn cut(&mut self, to: u64) -> Result<(), Failed> {
        match cut_to(&self.file, to) {
            Ok(()) => Ok(()),
            Err(error) => Err(self.fault(Reason::of(error.kind()))),
        }
    }

    fn sync(&mut self) -> Result<(), Failed> {
        match self.file.sync_all() {
            Ok(()) => Ok(()),
            Err(error) => Err(self.fault(Reason::of(error.kind()))),
        }
    }
}
