//! Why an append failed, in a member's words.
ghost use Rattle.std.specs.Prelude.{◌≡◌};
ghost use Rattle.dr_served.specs.Appended.{why_of};

use dr_log::LogFault;
use dr_program::LogWhy;

/// Why an append failed, as its log tells it.
pub fn why_of(fault: LogFault) -> LogWhy
    ensures { result ≡ why_of fault }
{
    match fault {
        LogFault::DiskFault => LogWhy::DiskFault,
        LogFault::LogFull { len } => LogWhy::LogFull { len },
    }
}
