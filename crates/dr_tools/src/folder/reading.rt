//! Reads the files of a folder.

ghost use Rattle.std.specs.Prelude.{◌≡◌, IfOk, length};

use dr_entry::{Seq, Text};
use dr_folder::LogFile;
use dr_yard::{Breach, Reason, Sealed, Trouble, breach_of, reason_against, sealed_in};
use std::alloc::{AllocError, Global};
use std::fs::{self, File};
use std::io::{self, ErrorKind, Read};
use std::rt::Files;

/// The most bytes that a log has.
const MOST: u64 = 2_147_483_648;

/// What is found where the logs of so many members are to be. Why a run wouldn't be lent one is told among the
/// troubles.
pub(crate) fn read_files<R: Files<File = File> + AllocGlobal>(
    rt: &R,
    alloc: Global,
    folder: &str,
    members: u8,
    troubles: &mut Vec<Trouble>,
) -> Result<Vec<LogFile>, AllocError>
    ensures { IfOk result (λ files. length files.items ≡ members) }
{
    let mut files = Vec::new(alloc);
    for member in 0..members {
        files.push(read_sealed(rt, alloc, folder, member, troubles)?)?;
    }
    Ok(files)
}

/// What is found where the log of a member is to be: one that isn't the log that was sealed can't be read.
fn read_sealed<R: Files<File = File> + AllocGlobal>(
    rt: &R,
    alloc: Global,
    folder: &str,
    member: u8,
    troubles: &mut Vec<Trouble>,
) -> Result<LogFile, AllocError> {
    let found = read_file(rt, alloc, folder, member)?;
    let reason = match reason_against(rt, folder, member) {
        Some(reason) => Some(reason),
        None => breach_in(rt, folder, member, &found).map(Reason::Breached),
    };
    let Some(reason) = reason else {
        return Ok(found)
    };
    troubles.push(Trouble { member, reason })?;
    match reason {
        Reason::Breached(_) => Ok(LogFile::Unread {
            why: Text::of(format!(in alloc; "it {reason}")?),
        }),
        _ => Ok(found),
    }
}

/// Why what was found isn't the log that was sealed, if so.
fn breach_in<R: Files<File = File>>(
    rt: &R,
    folder: &str,
    member: u8,
    found: &LogFile,
) -> Option<Breach> {
    let sealed = match sealed_in(rt, folder, member) {
        Ok(sealed) => sealed,
        Err(_) => Sealed::Unreadable,
    };
    match found {
        LogFile::Bytes(bytes) => breach_of(&sealed, Some(bytes.as_slice())),
        LogFile::Missing => breach_of(&sealed, None),
        LogFile::Unread { .. } => None,
    }
}

/// What is found where the log of a member is to be.
fn read_file<R: Files<File = File> + AllocGlobal>(
    rt: &R,
    alloc: Global,
    folder: &str,
    member: u8,
) -> Result<LogFile, AllocError> {
    let path = format!(in alloc; "{folder}/member-{member}.log")?;
    match bytes_of(rt, alloc, folder, path.as_str()) {
        Ok(Some(bytes)) => Ok(LogFile::Bytes(Seq::of(bytes))),
        Ok(None) => Ok(LogFile::Missing),
        Err(error) if error.kind() == ErrorKind::OutOfMemory => Err(AllocError),
        Err(error) => Ok(LogFile::Unread {
            why: Text::of(format!(in alloc; "{error}")?),
        }),
    }
}

/// The bytes of a file of a folder, if there is one.
fn bytes_of<R: Files<File = File> + AllocGlobal>(
    rt: &R,
    alloc: Global,
    folder: &str,
    path: &str,
) -> io::Result<Option<Vec<u8>>> {
    let file = match File::open(rt, path) {
        Ok(file) => file,
        Err(error) if error.kind() == ErrorKind::NotFound => {
            return no_file(rt, folder);
        }
        Err(error) => return Err(error),
    };
    if file.metadata()?.len() > MOST {
        return Err(io::Error::from(ErrorKind::FileTooLarge));
    }
    let mut bytes = Vec::new(alloc);
    file.take(MOST).read_to_end(&mut bytes)?;
    Ok(Some(bytes))
}

/// That there is no file, where there is a folder in which a run could make one.
fn no_file<R: Files<File = File>>(rt: &R, folder: &str) -> io::Result<Option<Vec<u8>>> {
    if fs::metadata(rt, folder)?.is_dir() {
        Ok(None)
    } else {
        Err(io::Error::from(ErrorKind::NotADirectory))
    }
}
