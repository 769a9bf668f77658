//! How a member ended, by the fields of its line.
ghost use Rattle.std.specs.Prelude.{◌≡◌, ◌↔◌, ◌≤◌, IsTrue};
ghost use Rattle.dr_check.specs.{Fields.{NumberIs, kind_of, kind_of_end, number_of, width_of}, Lines.EndFits};

use crate::fields::{mask_in, u8_in, u32_in, u64_in};
use dr_entry::End;

/// The kinds of ends. Each has a word, and some have a number behind it.
#[derive(Clone, Copy, Debug)]
pub(crate) enum EndKind {
    Done,
    Crashed,
    Suspected,
    Excluded,
    NoMajority,
    DiskFault,
    LogFull,
    Spent,
    Absent,
}

impl EndKind {
    /// The kind whose word this may be, by its length and its first letter.
    pub(crate) fn of(word: &[u8]) -> EndKind
        ensures { result ≡ kind_of word.now }
    {
        match word.len() {
            4 => EndKind::Done,
            7 if word[0] == b'c' => EndKind::Crashed,
            7 => EndKind::LogFull,
            9 if word[0] == b's' => EndKind::Suspected,
            9 => EndKind::DiskFault,
            8 => EndKind::Excluded,
            10 => EndKind::NoMajority,
            6 => EndKind::Absent,
            _ => EndKind::Spent,
        }
    }

    /// How many fields it has: its word, and maybe a number.
    pub(crate) fn width(self) -> usize
        ensures width { result ≡ width_of self }
        ensures small { result ≤ 2 }
    {
        match self {
            EndKind::Done | EndKind::Crashed | EndKind::DiskFault | EndKind::Absent => 1,
            _ => 2,
        }
    }

    /// The end of this kind with the number that a field is.
    pub(crate) fn with_number(self, field: &[u8]) -> End
        ensures kind { kind_of_end result ≡ self }
        ensures number { NumberIs self (number_of result) field.now }
    {
        match self {
            EndKind::Done => End::Done,
            EndKind::Crashed => End::Crashed,
            EndKind::Suspected => End::Suspected { by: u8_in(field) },
            EndKind::Excluded => End::Excluded { view: u8_in(field) },
            EndKind::NoMajority => End::NoMajority {
                mask: mask_in(field),
            },
            EndKind::DiskFault => End::DiskFault,
            EndKind::LogFull => End::LogFull { len: u64_in(field) },
            EndKind::Spent => End::Spent {
                turns: u32_in(field),
            },
            EndKind::Absent => End::Absent,
        }
    }
}

/// Whether a member that took part may have ended so: the numbers of the end are in their ranges.
pub(crate) fn fits_end(end: End) -> bool
    ensures { IsTrue result ↔ EndFits end }
{
    match end {
        End::Suspected { by } => by < 16,
        End::NoMajority { mask } => mask != 0,
        End::Absent => false,
        _ => true,
    }
}
