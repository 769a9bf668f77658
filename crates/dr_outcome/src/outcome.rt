ghost use Rattle.std.specs.Prelude.{◌≡◌, None, []};
ghost use Rattle.dr_yard.specs.Yards.{YardState};
ghost use Rattle.dr_outcome.specs.{Outcome.SaysOnly, Playing.{missing_of, part_in}};
ghost use Rattle.dr_outcome.specs.declared.outcome.Body.TheVariants.{Report};

use dr_ages::{Mode, Part, Stop};
use dr_entry::{AgeEnd, Seq};
use dr_text::{Last, LongText};
use dr_words::Mask;
use std::alloc::Global;
use std::marker::Model;

/// The folder of this name with the logs of a group, but for those of the missing members. The number of a member
/// that is not in the roster names no log.
#[derive(Debug, Drop)]
pub struct Folder<'a> {
    pub name: &'a str,
    pub missing: Mask,
}

impl<'a> Model for Folder<'a> {
    ghost use Rattle.dr_outcome.specs.Playing.{InFolder};

    ghost Value = { InFolder };

    ghost view = { λ f. record { name = f.name.now; missing = f.missing } };
}

/// How a script is played.
#[derive(Debug, Drop)]
pub struct Play<'a> {
    pub mode: Mode,
    /// The folder of the logs. Without one they are empty at first, and kept in memory.
    pub folder: Option<Folder<'a>>,
    /// The members that are in no view until others wish for them.
    pub late: Mask,
}

impl<'a> Model for Play<'a> {
    ghost use Rattle.dr_outcome.specs.Playing.{Playing};

    ghost Value = { Playing };

    ghost view = { λ p. record { mode = p.mode; folder = p.folder; late = p.late } };
}

impl<'a> Play<'a> {
    /// Who takes part, and from when on.
    pub(crate) fn part(&self) -> Part
        ensures { result ≡ part_in self.now }
    {
        Part {
            missing: missing_of(&self.folder),
            late: self.late,
        }
    }
}

/// The members whose logs are missing: in memory nobody's.
fn missing_of(folder: &Option<Folder<'_>>) -> Mask
    ensures { result ≡ missing_of folder.now }
{
    match folder {
        Some(folder) => folder.missing,
        None => Mask::empty(),
    }
}

/// What is said of the ages that ran, before the last line.
#[derive(Debug, Drop)]
pub enum Body {
    /// Their report.
    Report,
    /// A text of the command's own.
    Text(LongText),
}

/// What a call comes to before it is written: its ages, what ended the run before its last age, what is said
/// of the ages, and what the last line says. Where memory was wanting there is no last line.
#[derive(Debug, Drop)]
pub struct Outcome {
    pub ages: Seq<AgeEnd>,
    pub stop: Option<Stop>,
    pub body: Body,
    pub last: Option<Last>,
}

impl Outcome {
    /// The same, with a text that is said in place of the report.
    pub fn saying(self, text: LongText) -> Outcome
        ensures { result ≡ record self { body = Body.Text text } }
    {
        Outcome {
            body: Body::Text(text),
            ..self
        }
    }
}

/// What a call comes to in which nothing is run.
pub fn without_ages(alloc: Global, last: Option<Last>) -> Outcome
    ensures alone { (yard : YardState) → SaysOnly last yard yard result }
    ensures ages { result.ages ≡ [] }
    ensures stop { result.stop ≡ None }
    ensures body { result.body ≡ Report }
    ensures last { result.last ≡ last }
{
    Outcome {
        ages: Seq::of(Vec::new(alloc)),
        stop: None,
        body: Body::Report,
        last,
    }
}
