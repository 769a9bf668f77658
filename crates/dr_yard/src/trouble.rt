//! Why a call for a disk that is a file failed, in words, and what may be done.

use crate::seal::Breach;
use std::fmt;
use std::fmt::{Display, Formatter, Write};
use std::io::ErrorKind;

/// Why a file isn't lent, or a call on it failed.
#[derive(Clone, Copy, Debug, PartialEq, Eq)]
pub enum Reason {
    /// It isn't the log that was sealed.
    Breached(Breach),
    /// Another run has it, or another member, or somebody has the folder.
    Locked,
    /// It is longer than a log may be.
    TooLong,
    /// It is no regular file.
    Irregular,
    /// The path is longer than the system takes.
    LongPath,
    /// There is no such folder.
    NoFolder,
    /// The system refused a call.
    Refused(ErrorKind),
}

/// What is wrong with the file of a member.
#[derive(Clone, Copy, Debug, PartialEq, Eq)]
pub struct Trouble {
    pub member: u8,
    pub reason: Reason,
}

impl Reason {
    /// Why a call failed that the system refused so.
    pub(crate) fn of(kind: ErrorKind) -> Reason {
        match kind {
            ErrorKind::WouldBlock => Reason::Locked,
            ErrorKind::IsADirectory => Reason::Irregular,
            ErrorKind::InvalidFilename => Reason::LongPath,
            ErrorKind::NotFound | ErrorKind::NotADirectory => Reason::NoFolder,
            kind => Reason::Refused(kind),
        }
    }
}

impl Display for Reason {
    fn fmt<W: Write>(&self, f: &mut Formatter<W>) -> fmt::Result {
        match self {
            Reason::Breached(Breach::Gone) => f.write_str("is gone"),
            Reason::Breached(Breach::Shorter { length }) => {
                write!(f, "has no more than the {length} bytes that were sealed")
            }
            Reason::Breached(Breach::Longer { length }) => {
                write!(
                    f,
                    "goes on behind byte {length}, where it was sealed as closed"
                )
            }
            Reason::Breached(Breach::Changed { before }) => {
                write!(f, "has changed at or before byte {before}")
            }
            Reason::Breached(Breach::Unreadable) => f.write_str("has no seal that can be read"),
            Reason::Breached(Breach::OfTwoGroups) => {
                f.write_str("has seals of two groups, in seals and seals.copy")
            }
            Reason::Locked => f.write_str("is locked"),
            Reason::TooLong => f.write_str("is longer than a log may be, 2147483648 bytes"),
            Reason::Irregular => f.write_str("is no regular file"),
            Reason::LongPath => f.write_str("has a path of more than 4096 bytes"),
            Reason::NoFolder => f.write_str("has no folder"),
            Reason::Refused(kind) => write!(f, "is refused by the system: {kind}"),
        }
    }
}

impl Display for Trouble {
    fn fmt<W: Write>(&self, f: &mut Formatter<W>) -> fmt::Result {
        let Trouble { member, reason } = self;
        write!(f, "member-{member}.log {reason}: ")?;
        match reason {
            Reason::Breached(Breach::Unreadable) => write!(
                f,
                "put a copy of the file seals back, or go on with --missing {member}; \
                 derecho_tools folder FOLDER --accept {member} seals the log as it is"
            ),
            Reason::Breached(Breach::OfTwoGroups) => {
                f.write_str("move the one away that was copied from another folder, and run again")
            }
            Reason::Breached(_) => write!(
                f,
                "put the right file back, or go on with --missing {member}; where such a run has had an age, \
                 move the file away, and derecho_tools folder FOLDER --accept {member} begins a new log"
            ),
            Reason::Locked => f.write_str(
                "wait for the other run, and see that no two names are one file",
            ),
            Reason::TooLong | Reason::Irregular => {
                write!(
                    f,
                    "put the right file back, or go on with --missing {member}"
                )
            }
            Reason::LongPath => f.write_str("give a shorter name of the folder"),
            Reason::NoFolder => f.write_str("see that it is the right one and mounted, or make it"),
            Reason::Refused(kind) => f.write_str(way_on(*kind)),
        }
    }
}

/// What may be done where the system refuses a call.
fn way_on(kind: ErrorKind) -> &'static str {
    match kind {
        ErrorKind::StorageFull | ErrorKind::QuotaExceeded | ErrorKind::FileTooLarge => {
            "make room, and run again"
        }
        ErrorKind::ReadOnlyFilesystem => "mount the disk for writing, and run again",
        ErrorKind::PermissionDenied => "get the right to read and write it, and run again",
        _ => "look at folder and disk, and run again",
    }
}
