ghost use Rattle.std.specs.Prelude.{◌≡◌, ◌++◌, OnOk, string_bytes};
ghost use Rattle.dr_entry.specs.declared.end.End.{End};
ghost use Rattle.dr_text.specs.Report.{end_text, is_absent};

use crate::entries::push_mask;
use dr_entry::End;
use std::alloc::AllocError;
use std::fmt::Write;

/// Appends how a member ended.
///
/// # Errors
///
/// Want of memory alone.
pub fn push_end(out: &mut String, end: End) -> Result<(), AllocError>
    ensures { OnOk result (string_bytes out.new ≡ string_bytes out.old ++ end_text end) }
{
    match end {
        End::Done => out.push_str("done"),
        End::Crashed => out.push_str("crashed"),
        End::Suspected { by } => write!(out, "suspected {by}"),
        End::Excluded { view } => write!(out, "excluded {view}"),
        End::NoMajority { mask } => push_no_majority(out, mask),
        End::DiskFault => out.push_str("diskfault"),
        End::LogFull { len } => write!(out, "logfull {len}"),
        End::Spent { turns } => write!(out, "spent {turns}"),
        End::Absent => out.push_str("absent"),
    }
}

/// Whether a member took no part.
pub(crate) fn is_absent(end: End) -> bool
    ensures { result ≡ is_absent end }
{
    matches!(end, End::Absent)
}

fn push_no_majority(out: &mut String, mask: u16) -> Result<(), AllocError>
    ensures { OnOk result
        (string_bytes out.new ≡ string_bytes out.old ++ end_text (End.NoMajority mask)) }
{
    out.push_str("nomajority ")?;
    push_mask(out, mask)
}
