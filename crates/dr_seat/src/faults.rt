//! Why calls of a seat do nothing.
use dr_packet::PacketFault;
use std::alloc::AllocError;
use thiserror::Error;

/// Why there is no new log.
#[derive(Clone, Copy, Debug, PartialEq, Eq, Error)]
pub enum FreshFault {
    #[error("the group has no such member")]
    NoMember,
}

/// Why a seat wasn't opened.
#[derive(Clone, Copy, Debug, PartialEq, Eq, Error)]
pub enum OpenFault {
    #[error("the card is none")]
    NoCard,
    #[error("the card is of another plan")]
    OtherPlan,
    #[error("the group has no such member")]
    NoMember,
    /// The log has no bytes, or fewer than any that a seat has written.
    #[error("the log is lost")]
    Empty,
    /// The log is damaged at this place.
    #[error("the log is damaged at byte {at}")]
    Damaged { at: u64 },
    /// The log is of the older format.
    #[error("the log is of the older format")]
    OldFormat,
    #[error("out of memory")]
    OutOfMemory,
}

impl From<AllocError> for OpenFault {
    ghost use Rattle.std.specs.Prelude.{◌≡◌};
    ghost use Rattle.dr_seat.specs.declared.faults.OpenFault.TheVariants.{OutOfMemory};

    ghost from_gives = { λ _ fault. fault ≡ OutOfMemory };

    fn from(_: AllocError) -> Self {
        OpenFault::OutOfMemory
    }
}

/// The answer is to something that isn't due.
#[derive(Clone, Copy, Debug, PartialEq, Eq, Error)]
#[error("that is not due")]
pub struct NotDue;

/// Why a packet was refused. Nothing has changed then, unless memory was wanting.
#[derive(Clone, Copy, Debug, PartialEq, Eq, Error)]
pub enum Refused {
    #[error("{0}")]
    Packet(PacketFault),
    /// It is for another member, or by none of the group.
    #[error("it is for another member, or by none of the group")]
    NotMine,
    /// Its words are of another age than the one that runs here, or none runs.
    #[error("its words are of age {age}, which doesn't run here")]
    OtherAge { age: u16 },
    /// A word is for no place, or for one of another row than its sender's.
    #[error("a word is for no place of its sender's")]
    Place,
    #[error("a word is not in form")]
    Form,
    /// A word hasn't grown from the one that stands there. Among seats this never comes: something false has come
    /// before. A host had better stop.
    #[error("a word hasn't grown")]
    Growth,
    /// The seat has come to its end.
    #[error("the seat has ended")]
    Ended,
    /// Memory was wanting; the packet counts as lost.
    #[error("out of memory")]
    OutOfMemory,
}
