ghost use Rattle.std.specs.Prelude.{◌≡◌, IfOk, OnOk, OnErr};
ghost use Rattle.dr_io.specs.{Faults.HasCause, Sink.Gains};
ghost use Rattle.dr_text.specs.{Report.report_text, Writing.WroteFront};

use crate::last::{Last, push_last};
use crate::long_text::LongText;
use dr_entry::AgeEnd;
use dr_io::{Failed, Sink};
use std::alloc::{AllocError, Global};
use std::marker::Model;

/// The text of a run: its ages, and one last line. Contracts see it as its bytes.
#[derive(Drop)]
pub struct Report {
    ages: LongText,
    last: String,
}

impl Model for Report {
    ghost use Rattle.std.specs.Prelude.{List, ℕ, ◌++◌, string_bytes};

    ghost Value = { List ℕ };

    ghost view = { λ r. r.ages ++ string_bytes r.last };
}

impl Report {
    /// The text of these ages, in their order, with the last line `last`.
    ///
    /// # Errors
    ///
    /// Want of memory alone.
    pub fn of(alloc: Global, ages: &[AgeEnd], last: &Last) -> Result<Report, AllocError>
        ensures { IfOk result (λ report. report ≡ report_text ages.now last.now) }
    {
        let mut line = String::new(alloc);
        push_last(&mut line, last)?;
        Ok(Report {
            ages: LongText::of_ages(alloc, ages)?,
            last: line,
        })
    }

    /// Writes the text, piece by piece, and takes no memory. Where the sink fails, a front part of the
    /// text was written.
    ///
    /// # Errors
    ///
    /// A fault of the sink.
    pub fn write_to<K: Sink>(&self, sink: &mut K) -> Result<(), Failed>
        ensures ok { OnOk result (Gains (K.held sink.old) (K.held sink.new) self.now) }
        ensures err { OnErr result (WroteFront (K.held sink.old) (K.held sink.new) self.now) }
        ensures cause { HasCause (K.faults sink.old) (K.faults sink.new) result }
    {
        self.ages.write_with(self.last.as_str(), sink)
    }
}
