//! Judges the report of a run that somebody hands in: whether its text is one, and the first thing that is wrong
//! with it.
//!
//! A [`Report`] has the values of a report's text. [`judge`] finds the first flaw of one, clause by clause:
//! the definitions in `specs/` say what each clause is.
//!
//! Numbers have the ranges of the formats and not of the script: a member below 16, whatever the roster. The
//! last line stands for itself, and isn't compared with the ends; one without its line feed is none, and what
//! stands behind it is no report at its line. How a member ended, and what the last line says, is no value of
//! a report. A member line with a history shorter than the start is itself the bad line.
//!
//! Entries of a start are judged by `start` alone; `sender`, `index` and `bytes` are asked behind it, and
//! indices count on from it. `prefix` is told by places: the flaw is the first entry that an earlier member
//! has otherwise. `kept` asks for a member that has delivered the start; an age all of whose members are
//! absent has delivered nothing, so the one behind it breaks `kept`; where `durable` is more than the history
//! the whole history has to be kept. Late is who takes part and isn't in the age's View 0. A line number is
//! 64 bits; above that the greatest is told. `judge` asks nothing of a report, which a text need not have
//! made.
#![tactic(auto)]

mod ages;
mod assembling;
mod course;
mod ends;
mod entries;
mod fields;
mod flaw;
mod judging;
mod laws;
mod line;
mod lines;
mod members;
mod messages;
mod past;
mod place;
mod reading;
mod report;
mod starts;
mod verdict;
mod views;

pub use dr_text::Clause;
pub use flaw::Flaw;
pub use judging::judge;
pub use laws::{
    printed_ages_are_reports, printed_ages_are_right, report_passes, reports_are_read,
    right_reports_agree, right_reports_are_flawless, texts_are_one_report,
};
pub use reading::{ParseFault, parse};
pub use report::{Report, ReportAge, ReportMember};
pub use verdict::{Verdict, verdict_on};
