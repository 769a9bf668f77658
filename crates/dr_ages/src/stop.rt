//! Why a run ended before its last age.
//!
//! A stop is told behind the ages that ran; with several faults the first in the order of the ages is named,
//! and within an age one as it opened before an end. It names one disk (`NamesFaults`): where an age isn't
//! opened no call of another has failed, and in an age each member that a disk has ended has its own end.
//! Where memory was wanting it names none, and how far the opening had come is told apart (`LackedMemory`); in
//! threads an age that had begun is thrown away with the ends that it had.
ghost use Rattle.std.specs.Prelude.{◌≡◌, ℕ};
ghost use Rattle.dr_log.specs.declared.fault.MountWhy.TheVariants as whys;
ghost use Rattle.dr_ages.specs.declared.stop.Stop.TheVariants as stops;
ghost use Rattle.dr_ages.specs.Telling.{stop_at, stop_of, stop_of_choice};

use dr_log::MountWhy;
use dr_opening::{CatchFault, NotOpened};
use dr_quorum::ChooseFault;

/// Why the next age of a run was not opened. Members count from 0, and so do the entries and the bytes of a
/// log.
#[derive(Clone, Copy, Debug, PartialEq, Eq)]
pub enum Stop {
    /// There was no memory for it.
    OutOfMemory,
    /// The disk of this member failed, as it was lent or mounted, or as the age was opened on it.
    DiskFault {
        member: u8,
    },
    /// The log of this member, `len` bytes long, had no room for what it lacked for the age.
    LogFull {
        member: u8,
        len: u64,
    },
    /// The log of this member is no log, where `at` is 0, or its records break off at the byte `at`.
    Damaged {
        member: u8,
        at: u64,
    },
    /// The logs of two members, `a` below `b`, both of the last age, have an entry at `place`, and differ there
    /// first.
    Disagree {
        a: u8,
        b: u8,
        place: u64,
    },
    /// The log of this member is not one of the script: the entry `place` is the first that is not.
    Foreign {
        member: u8,
        place: u64,
    },
    /// Too many logs are missing: of the roster, or of the members of this view of the last age, so many are
    /// there, and so many are needed.
    NoQuorum {
        view: Option<u8>,
        have: u8,
        need: u8,
    },
    /// The logs have come to the last age that there is a number for.
    AgesUsedUp,
}

impl Stop {
    /// What a mount of the log of a member that was refused ends the run with.
    pub(crate) fn of_mount(member: u8, why: MountWhy) -> Stop
        ensures memory { why ≡ whys.OutOfMemory → result ≡ stops.OutOfMemory }
        ensures disk { why ≡ whys.DiskFault → result ≡ stops.DiskFault member }
        ensures damaged { (at : ℕ) → why ≡ whys.Damaged at → result ≡ stops.Damaged member at }
    {
        match why {
            MountWhy::OutOfMemory => Stop::OutOfMemory,
            MountWhy::DiskFault => Stop::DiskFault { member },
            MountWhy::Damaged { at } => Stop::Damaged { member, at },
        }
    }

    /// What an opening that stopped ends it with.
    pub(crate) fn of_unopened(why: NotOpened) -> Stop
        ensures { result ≡ stop_of why }
    {
        match why {
            NotOpened::Unchosen(fault) => Stop::of_choice(fault),
            NotOpened::Unfinished(fault) => Stop::of_catch(fault.member, fault.why),
        }
    }

    /// What logs of which no start can be made end it with.
    fn of_choice(fault: ChooseFault) -> Stop
        ensures { result ≡ stop_of_choice fault }
    {
        match fault {
            ChooseFault::OutOfMemory => Stop::OutOfMemory,
            ChooseFault::Foreign { member, place } => Stop::Foreign { member, place },
            ChooseFault::NoQuorum { view, have, need } => Stop::NoQuorum { view, have, need },
            ChooseFault::Disagree { a, b, place } => Stop::Disagree { a, b, place },
            ChooseFault::AgesUsedUp => Stop::AgesUsedUp,
        }
    }

    /// What the log of a member that was refused what it lacked ends it with.
    fn of_catch(member: u8, fault: CatchFault) -> Stop
        ensures { result ≡ stop_at member fault }
    {
        match fault {
            CatchFault::OutOfMemory => Stop::OutOfMemory,
            CatchFault::DiskFault => Stop::DiskFault { member },
            CatchFault::LogFull { len } => Stop::LogFull { member, len },
        }
    }
}
