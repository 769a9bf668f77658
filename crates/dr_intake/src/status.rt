ghost use Rattle.std.specs.Prelude.{◌≡◌};
ghost use Rattle.dr_intake.specs.Status.{status_of};

use dr_text::Last;

/// The run ended, and no other status applies.
pub const DONE: u8 = 0;

/// The words are not those of a command, or name all members of the script that take part as late.
pub const USAGE: u8 = 2;

/// What was read is not a script, or not what is to be checked.
pub const SCRIPT_REFUSED: u8 = 3;

/// The source failed.
pub const READ_FAULT: u8 = 4;

/// The sink failed.
pub const WRITE_FAULT: u8 = 5;

/// The disk of a member failed.
pub const DISK_FAULT: u8 = 6;

/// The logs are not those of a run that can go on.
pub const LOGS_REFUSED: u8 = 7;

/// A member had spent all its turns.
pub const UNFINISHED: u8 = 8;

/// A member ended without a majority of its view.
pub const NO_MAJORITY: u8 = 9;

/// Memory was wanting.
pub const OUT_OF_MEMORY: u8 = 10;

/// A log would have grown beyond its limit.
pub const LOG_FULL: u8 = 11;

/// The script is not one that is laid out in so many shards.
pub const LAYOUT_REFUSED: u8 = 12;

/// The report that was checked is not right.
pub const CHECK_FAILED: u8 = 13;

/// The status of a last line.
pub fn status_of(last: &Last) -> u8
    ensures { result ≡ status_of last.now }
{
    match last {
        Last::Done | Last::Right => DONE,
        Last::Usage => USAGE,
        Last::TooLong
        | Last::NotJson
        | Last::Rule { .. }
        | Last::NotCheck
        | Last::NoReport { .. } => SCRIPT_REFUSED,
        Last::SourceFault => READ_FAULT,
        Last::DiskFault { .. } => DISK_FAULT,
        Last::Damaged { .. }
        | Last::Foreign { .. }
        | Last::NoQuorum { .. }
        | Last::Disagree { .. }
        | Last::AgesUsedUp => LOGS_REFUSED,
        Last::Unfinished => UNFINISHED,
        Last::NoMajority => NO_MAJORITY,
        Last::LogFull { .. } => LOG_FULL,
        Last::NoShard { .. } | Last::ManyAges { .. } | Last::Crosses { .. } => LAYOUT_REFUSED,
        Last::Wrong { .. } => CHECK_FAILED,
    }
}
