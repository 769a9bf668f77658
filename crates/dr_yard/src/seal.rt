//! What a seal knows of a log, and which logs it refuses.

ghost use Rattle.std.specs.Prelude.{◌≡◌, option_map};
ghost use Rattle.dr_yard.specs.Breaches.{breach_by, breach_in, is_later};

use crate::sums::checksum;
use dr_log_bytes::OPEN;

/// How a log was when it was given back: how many bytes stood before its closed gate, and their checksum. They never
/// change. Where it has been lent since and wasn't given back, more may stand behind them.
#[derive(Clone, Copy, Debug, PartialEq, Eq)]
pub struct Seal {
    pub length: u64,
    pub sum: u64,
    pub is_open: bool,
}

/// What is known of a member's log.
#[derive(Clone, Copy, Debug, PartialEq, Eq)]
pub enum Sealed {
    /// How it was.
    As(Seal),
    /// It was never given back with a record on it.
    Never,
    /// Nothing, as the line is damaged that told it.
    Unreadable,
    /// Nothing, as the copies of the seals are of two groups.
    OfTwoGroups,
}

/// Why a log isn't the one that was sealed.
#[derive(Clone, Copy, Debug, PartialEq, Eq)]
pub enum Breach {
    /// There is no file.
    Gone,
    /// It has fewer bytes than were sealed.
    Shorter { length: u64 },
    /// Records stand behind the sealed ones, and no run has put them there.
    Longer { length: u64 },
    /// One of the bytes before this place is another.
    Changed { before: u64 },
    /// Its seal can't be read.
    Unreadable,
    /// Its folder has seals of two groups.
    OfTwoGroups,
}

impl Sealed {
    /// Whether this is known of a later time than another: a log only grows, and its seal is opened as it is lent.
    pub(crate) fn is_later(&self, than: &Sealed) -> bool
        ensures { result ≡ is_later self.now than.now }
    {
        match (self, than) {
            (Sealed::As(seal), Sealed::As(other)) => {
                seal.length > other.length
                    || seal.length == other.length && seal.is_open && !other.is_open
            }
            (Sealed::As(_), _) => true,
            (Sealed::Never, Sealed::Unreadable) => true,
            _ => false,
        }
    }
}

impl Seal {
    /// Why a log of these bytes isn't the one that was sealed, if so.
    pub(crate) fn breach_in(&self, bytes: &[u8]) -> Option<Breach>
        ensures { result ≡ breach_in self.now bytes.now }
    {
        let length = self.length;
        if bytes.len() as u64 <= length {
            return Some(Breach::Shorter { length });
        }
        if !self.is_open && bytes[length as usize] == OPEN {
            return Some(Breach::Longer { length });
        }
        if checksum(&bytes[..length as usize]) != self.sum {
            return Some(Breach::Changed { before: length });
        }
        None
    }
}

/// Why what was found in a log's place, bytes or no file, isn't the log of which this is known, if so.
pub fn breach_of(sealed: &Sealed, found: Option<&[u8]>) -> Option<Breach>
    ensures { result ≡ breach_by sealed.now (option_map (λ bytes. bytes.now) found.entry) }
{
    match sealed {
        Sealed::Never => None,
        Sealed::Unreadable => Some(Breach::Unreadable),
        Sealed::OfTwoGroups => Some(Breach::OfTwoGroups),
        Sealed::As(seal) => match found {
            Some(bytes) => seal.breach_in(bytes),
            None => Some(Breach::Gone),
        },
    }
}
