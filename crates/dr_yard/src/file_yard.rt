//! A yard whose disks are files of a folder.
//!
//! A folder that isn't there is not made: the fault is that of the first member's disk. A file that isn't
//! there is, unless its log was sealed. A path stands in an array of as many bytes as the system takes, so a
//! lend takes no memory that might be refused, and a longer one is a fault. A file is locked while it is lent
//! and until all are back, so no other run writes into it, and no other member is lent the same; where a
//! process ends, however it does, the system takes the lock back. Between two ages files are free: a run that
//! comes then goes on from sound logs, and the earlier one ends by a fault. All take files in ascending order,
//! so whoever has the first gets the others. A folder is synced where a file of it is empty, not only where it
//! was made: a run that was stopped in between may have left one whose name isn't safe.
//!
//! Logs only grow. So how one is when it is given back stays true of its first bytes: it is sealed so in the
//! files `seals` and `seals.copy`, once all are back. A seal is opened as its log is lent, and then allows more
//! bytes, as a run that is killed leaves; one that is closed doesn't. A log that wasn't written to keeps the seal
//! that it had, and one of whose calls one failed an opened one.

ghost use Rattle.std.specs.Prelude.{◌≡◌, ◌<◌, false, ℕ, IfOk, slice_index_or};
ghost use Rattle.dr_entry.specs.declared.limits.TheConstants.{MAX_MEMBERS};

use crate::file_disk::{FileDisk, length_of, read_from};
use crate::gates::seal_of;
use crate::paths::{in_folder, path_of};
use crate::seal::{Breach, Seal, Sealed};
use crate::sealing::{put_seals, sealed_in};
use crate::trouble::{Reason, Trouble};
use crate::yard::Yard;
use arrayvec::{ArrayString, ArrayVec};
use dr_entry::MAX_MEMBERS;
use dr_io::Failed;
use dr_log_bytes::OPEN;
use std::array;
use std::fs::{self, File, OpenOptions, TryLockError};
use std::io::ErrorKind;
use std::marker::Model;
use std::random::RandomSource;
use std::rt::Files;

/// The most bytes that the file of a log may have.
const MOST: u64 = 1 << 31;

/// The logs of the members in a folder: the file `member-I.log` is that of member `I`. One that is lent is locked, so
/// that nobody else is lent it. A call for a disk fails where its file can't be opened, made or locked: where there
/// is no folder, say, where the path has more than 4,096 bytes, or where another run or another member has the file;
/// where it is longer than a log may be; and where it isn't the log that was sealed, which may show as it is read.
/// Neither `lend` nor `give_back` takes memory.
#[derive(Drop)]
pub struct FileYard<R: Files<File = File> + RandomSource + Drop> {
    rt: R,
    lent: [bool; MAX_MEMBERS],
    faults: [u64; MAX_MEMBERS],
    /// Why the first call failed that did, by member.
    reasons: [Option<Reason>; MAX_MEMBERS],
    /// The folder of those that are lent.
    folder: ArrayString<4096>,
    /// The files that are back, which stay locked until all are, and how they are sealed then.
    back: [Option<File>; MAX_MEMBERS],
    seals: ArrayVec<(u8, Option<Seal>), MAX_MEMBERS>,
    /// Why seals couldn't be written.
    unsealed: Option<ErrorKind>,
}

impl<R: Files<File = File> + RandomSource + Drop> Model for FileYard<R> {
    ghost use Rattle.dr_yard.specs.Files.{FileYardState};

    ghost Value = { FileYardState };

    ghost view = { λ a. record { lent = a.lent; faults = a.faults } };
}

impl<R: Files<File = File> + RandomSource + Drop> FileYard<R> {
    /// A yard of which no file is lent.
    pub fn new(rt: R) -> FileYard<R>
        ensures { (m : ℕ) → m < MAX_MEMBERS → slice_index_or result.lent m false ≡ false }
    {
        FileYard {
            rt,
            lent: [false; MAX_MEMBERS],
            faults: [0; MAX_MEMBERS],
            reasons: [None; MAX_MEMBERS],
            folder: ArrayString::new(),
            back: array::from_fn(|_| None),
            seals: ArrayVec::new(),
            unsealed: None,
        }
    }

    /// What was wrong with the file of a member, if something was.
    pub fn trouble(&self, member: u8) -> Option<Trouble> {
        match self.reasons.get(usize::from(member)) {
            Some(Some(reason)) => Some(Trouble {
                member,
                reason: *reason,
            }),
            _ => None,
        }
    }

    /// Why logs that were given back couldn't be sealed, where they couldn't.
    pub fn unsealed(&self) -> Option<ErrorKind> {
        self.unsealed
    }

    /// Keeps why a call failed, of a member the first one.
    fn note(&mut self, member: usize, reason: Option<Reason>)
        requires { member < MAX_MEMBERS }
        ensures { self.new ≡ self.old }
    {
        if self.reasons[member].is_none() {
            self.reasons[member] = reason;
        }
    }

    /// Seals those that are back, and unlocks them.
    fn seal_all(&mut self)
        ensures { self.new ≡ self.old }
    {
        if !self.seals.is_empty() {
            let sealed = put_seals(&self.rt, self.folder.as_str(), self.seals.as_slice());
            if let Err(error) = sealed {
                self.unsealed = Some(error.kind());
            }
        }
        self.seals.clear();
        for file in &mut self.back {
            *file = None;
        }
    }

    fn none_is_lent(&self) -> bool {
        self.lent.iter().all(|lent| !*lent)
    }
}

/// The file of a member, open and locked, how long it is, and how it was sealed.
#[derive(Drop)]
struct Looked {
    file: File,
    len: u64,
    seal: Option<Seal>,
}

/// Opens the file of a member and locks it, and makes it where there is none and none was sealed. Nothing else that
/// opens it, under any name, gets a lock until it is closed.
fn open<R: Files<File = File> + RandomSource>(
    rt: &R,
    folder: &str,
    member: u8,
    faults: u64,
) -> Result<FileDisk, Reason>
    ensures { IfOk result (λ disk. disk.faults ≡ faults) }
{
    let seal = seal_in(rt, folder, member)?;
    let Looked { file, len, seal } = look(rt, folder, member, seal, seal.is_none())?;
    match seal {
        Some(seal) => open_seal(rt, folder, member, seal)?,
        // Nothing was ever written to an empty one: it may be new, and a crash would take its name with it.
        None if len == 0 => sync_folder(rt, folder)?,
        None => {}
    }
    Ok(FileDisk::sealed(file, faults, seal))
}

/// Why the log of a member wouldn't be lent now, as far as that shows without a look at its records.
pub fn reason_against<R: Files<File = File>>(rt: &R, folder: &str, member: u8) -> Option<Reason> {
    let seal = match seal_in(rt, folder, member) {
        Ok(seal) => seal,
        Err(reason) => return Some(reason),
    };
    match look(rt, folder, member, seal, false) {
        Ok(_) => None,
        Err(Reason::Breached(Breach::Gone)) if seal.is_none() => {
            match fs::metadata(rt, in_folder(folder)) {
                Ok(metadata) if metadata.is_dir() => None,
                _ => Some(Reason::NoFolder),
            }
        }
        Err(reason) => Some(reason),
    }
}

/// Opens and locks the file of a member that was sealed so, where its length and its gate are as they may be.
fn look<R: Files<File = File>>(
    rt: &R,
    folder: &str,
    member: u8,
    seal: Option<Seal>,
    create: bool,
) -> Result<Looked, Reason> {
    let file = open_file(rt, folder, member, create)?;
    match file.try_lock() {
        Ok(()) => {}
        Err(TryLockError::WouldBlock) => return Err(Reason::Locked),
        Err(TryLockError::Error(error)) => return Err(Reason::of(error.kind())),
    }
    let len = match length_of(&file) {
        Ok(len) => len,
        Err(error) => return Err(Reason::of(error.kind())),
    };
    if len > MOST {
        return Err(Reason::TooLong);
    }
    if let Some(seal) = seal {
        look_behind(&file, len, seal)?;
    }
    Ok(Looked { file, len, seal })
}

/// Looks whether a file goes on as it may behind what is sealed of it.
fn look_behind(file: &File, len: u64, seal: Seal) -> Result<(), Reason> {
    let length = seal.length;
    if len <= length {
        return Err(Reason::Breached(Breach::Shorter { length }));
    }
    let mut gate = [0];
    match read_from(file, length, &mut gate) {
        Ok(_) if gate[0] == OPEN && !seal.is_open => {
            Err(Reason::Breached(Breach::Longer { length }))
        }
        Ok(_) => Ok(()),
        Err(error) => Err(Reason::of(error.kind())),
    }
}

/// How the log of a member was sealed, if it was.
fn seal_in<R: Files<File = File>>(
    rt: &R,
    folder: &str,
    member: u8,
) -> Result<Option<Seal>, Reason> {
    match sealed_in(rt, folder, member) {
        Ok(Sealed::As(seal)) => Ok(Some(seal)),
        Ok(Sealed::Never) => Ok(None),
        Ok(Sealed::Unreadable) => Err(Reason::Breached(Breach::Unreadable)),
        Ok(Sealed::OfTwoGroups) => Err(Reason::Breached(Breach::OfTwoGroups)),
        Err(error) => Err(Reason::of(error.kind())),
    }
}

/// Opens the regular file of a member, and makes it where there is none, if that is asked for.
fn open_file<R: Files<File = File>>(
    rt: &R,
    folder: &str,
    member: u8,
    create: bool,
) -> Result<File, Reason> {
    let Some(path) = path_of(folder, member) else {
        return Err(Reason::LongPath);
    };
    let opened = OpenOptions::new()
        .read(true)
        .write(true)
        .create(create)
        .open(rt, path.as_str());
    let file = match opened {
        Ok(file) => file,
        Err(error) if error.kind() == ErrorKind::NotFound && !create => {
            return Err(Reason::Breached(Breach::Gone));
        }
        Err(error) => return Err(Reason::of(error.kind())),
    };
    match file.metadata() {
        Ok(metadata) if metadata.is_file() => Ok(file),
        Ok(_) => Err(Reason::Irregular),
        Err(error) => Err(Reason::of(error.kind())),
    }
}

/// Opens the seal of a member's log, in both copies.
fn open_seal<R: Files<File = File> + RandomSource>(
    rt: &R,
    folder: &str,
    member: u8,
    seal: Seal,
) -> Result<(), Reason> {
    let opened = Seal {
        is_open: true,
        ..seal
    };
    match put_seals(rt, folder, &[(member, Some(opened))]) {
        Ok(()) => Ok(()),
        Err(error) => Err(Reason::of(error.kind())),
    }
}

/// Takes the log of a member as it is now, or as a new one where there is none or it has no records. It answers how
/// it is sealed then.
///
/// # Errors
///
/// Another run has it, or the system refuses a call. The seal is as before.
pub fn accept_log<R: Files<File = File> + RandomSource>(
    rt: &R,
    folder: &str,
    member: u8,
) -> Result<Option<Seal>, Reason> {
    let looked = match look(rt, folder, member, None, false) {
        Ok(looked) => Some(looked.file),
        Err(Reason::Breached(Breach::Gone)) => None,
        Err(reason) => return Err(reason),
    };
    let seal = match &looked {
        Some(file) => seal_of(file),
        None => Ok(None),
    };
    let put = match seal {
        Ok(seal) => put_seals(rt, folder, &[(member, seal)]).map(|_| seal),
        Err(error) => Err(error),
    };
    match put {
        Ok(seal) => Ok(seal),
        Err(error) => Err(Reason::of(error.kind())),
    }
}

/// Has the names of a folder's files outlive a crash.
fn sync_folder<R: Files<File = File>>(rt: &R, folder: &str) -> Result<(), Reason> {
    let synced = match File::open(rt, in_folder(folder)) {
        Ok(opened) => opened.sync_all(),
        Err(error) => Err(error),
    };
    match synced {
        Ok(()) => Ok(()),
        Err(error) => Err(Reason::of(error.kind())),
    }
}

impl<R: Files<File = File> + RandomSource + Drop> Yard for FileYard<R> {
    ghost use Rattle.std.specs.Prelude.{None, slice_index_or};

    type Store = FileDisk;

    ghost told = { λ yard m. None };

    ghost is_lent = { λ yard m. slice_index_or yard.lent m false };

    ghost faults = { λ yard m. slice_index_or yard.faults m 0 };

    fn lend(&mut self, folder: &str, member: u8) -> Result<FileDisk, Failed> {
        let m = usize::from(member);
        match open(&self.rt, folder, member, self.faults[m]) {
            Ok(disk) => {
                self.lent[m] = true;
                self.folder.clear();
                let _ = self.folder.try_push_str(folder);
                Ok(disk)
            }
            Err(reason) => {
                self.faults[m] = self.faults[m].saturating_add(1);
                self.note(m, Some(reason));
                Err(Failed)
            }
        }
    }

    fn give_back(&mut self, member: u8, disk: FileDisk) {
        let m = usize::from(member);
        self.lent[m] = false;
        self.faults[m] = disk.faults();
        self.note(m, disk.reason());
        if let Some(seal) = disk.seal() {
            let _ = self.seals.try_push((member, Some(seal)));
        }
        self.back[m] = Some(disk.into_file());
        if self.none_is_lent() {
            self.seal_all();
        }
    }
}
