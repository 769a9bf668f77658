//! Makes an empty log.

ghost use Rattle.std.specs.Prelude.{◌≡◌, ◌+◌, ◌≤◌, OnOk, OnErr};
ghost use Rattle.dr_io.specs.Faults.{HasCause};
ghost use Rattle.dr_log.specs.Appending.{made, StopsMaking};

use dr_disk::Disk;
use dr_io::Failed;
use dr_log_bytes::MAGICS;

/// A gate byte behind which no record counts.
pub(crate) const CLOSED: u8 = 0;

/// Makes an empty log of whatever the disk holds. The gate comes once all else is safe, so that no
/// crash leaves a longer file with old bytes behind the magic.
pub(crate) fn make<D: Disk>(disk: &mut D) -> Result<(), Failed>
    requires room_for_calls { 5 ≤ D.room_calls disk.old }
    requires room_for_bytes { 9 ≤ D.room_bytes disk.old }
    ensures ok { OnOk result (D.told disk.new ≡ made (D.told disk.old)) }
    ensures err { OnErr result (StopsMaking (D.told disk.old) (D.told disk.new)) }
    ensures cause { HasCause (D.faults disk.old) (D.faults disk.new) result }
{
    disk.cut(0)?;
    disk.write_at(0, &MAGICS[1])?;
    disk.sync()?;
    disk.write_at(8, &[CLOSED])?;
    disk.sync()
}
