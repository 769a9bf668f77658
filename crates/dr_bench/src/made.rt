ghost use Rattle.std.specs.Prelude.{◌≡◌, IfOk};
ghost use Rattle.dr_text.specs.{Report.report_text, declared.last.Last.Last};

use crate::counter::Counter;
use dr_entry::AgeEnd;
use dr_text::{Last, Report};
use std::alloc::{AllocError, Global};

/// A report that was made several times.
#[derive(Drop)]
pub struct Made {
    pub report: Report,
    /// The bytes of its text, as often as it was made.
    pub bytes: u64,
}

/// Makes the report of these ages so many times, at least once, and writes it to a counter each time.
pub fn report_again(alloc: Global, ages: &[AgeEnd], rounds: u32) -> Result<Made, AllocError>
    ensures { IfOk result (λ made. made.report ≡ report_text ages.now Last.Done) }
{
    let mut counter = Counter { bytes: 0 };
    for _ in 1..rounds {
        write(&Report::of(alloc, ages, &Last::Done)?, &mut counter);
    }
    let report = Report::of(alloc, ages, &Last::Done)?;
    write(&report, &mut counter);
    Ok(Made {
        report,
        bytes: counter.bytes,
    })
}

/// Writes a report to the counter, which takes all of it.
fn write(report: &Report, counter: &mut Counter) {
    let _ = report.write_to(counter);
}
