ghost use Rattle.std.specs.Prelude.{◌≡◌, ◌⊎◌, [], IfErr, IfOk, IsSomeAnd, string_bytes};
ghost use Rattle.dr_io.specs.Sink.{Gains};
ghost use Rattle.dr_text.specs.Report.{last_text};
ghost use Rattle.dr_intake.specs.{Answer.{IsLine, unread_line}, Status.{WroteText, status_of}};

use crate::call::Unread;
use crate::status::{OUT_OF_MEMORY, USAGE, WRITE_FAULT, status_of};
use dr_io::Sink;
use dr_text::{Last, push_last, write_all};
use std::alloc::{AllocError, Global};

/// What a program has to say, and the status that is due.
#[derive(Drop)]
pub struct Answer {
    pub text: String,
    pub status: u8,
}

impl Answer {
    /// The last line of a run, and nothing more.
    ///
    /// # Errors
    ///
    /// Want of memory alone.
    pub fn of_line(alloc: Global, line: &Last) -> Result<Answer, AllocError>
        ensures text { IfOk result (λ a. string_bytes a.text ≡ last_text line.now) }
        ensures due { IfOk result (λ a. a.status ≡ status_of line.now) }
    {
        let mut text = String::new(alloc);
        push_last(&mut text, line)?;
        Ok(Answer {
            text,
            status: status_of(line),
        })
    }

    /// How a program is called.
    ///
    /// # Errors
    ///
    /// Want of memory alone.
    pub fn of_usage(alloc: Global, usage: &str) -> Result<Answer, AllocError>
        ensures { IfOk result (λ a. IsLine usage.now Last.Usage (string_bytes a.text, a.status)) }
    {
        Ok(Answer {
            text: String::from_str(alloc, usage)?,
            status: USAGE,
        })
    }

    /// What is to be said of a call that reads nothing.
    ///
    /// # Errors
    ///
    /// Want of memory alone, of which also the call may tell.
    pub fn of_unread(alloc: Global, usage: &str, why: Unread) -> Result<Answer, AllocError>
        ensures { IfOk result (λ a. IsSomeAnd (unread_line why)
            (λ l. IsLine usage.now l (string_bytes a.text, a.status))) }
    {
        match why {
            Unread::Usage => Answer::of_usage(alloc, usage),
            Unread::SourceFault => Answer::of_line(alloc, &Last::SourceFault),
            Unread::OutOfMemory => Err(AllocError),
        }
    }

    /// The last line by which a text is refused that is no script.
    ///
    /// # Errors
    ///
    /// Want of memory alone: also where there is no line.
    pub fn of_refusal(alloc: Global, line: Option<Last>) -> Result<Answer, AllocError>
        ensures { IfOk result (λ a. IsSomeAnd line
            (λ l. (string_bytes a.text ≡ last_text l) × (a.status ≡ status_of l))) }
    {
        match line {
            Some(line) => Answer::of_line(alloc, &line),
            None => Err(AllocError),
        }
    }

    /// Writes the text, and answers the status with which the program ends then.
    pub fn write<K: Sink>(&self, sink: &mut K) -> u8
        ensures wrote { WroteText (K.held sink.old) (K.held sink.new)
            (K.faults sink.old) (K.faults sink.new)
            result self.now.status (string_bytes self.now.text) }
        // No fault is hidden.
        ensures told { (K.faults sink.new ≡ K.faults sink.old) ⊎ (result ≡ 5) }
    {
        match write_all(sink, self.text.as_str().as_bytes()) {
            Ok(()) => self.status,
            Err(_) => WRITE_FAULT,
        }
    }
}

/// Writes what is to be said, and answers the status with which the program ends then: where memory was wanting
/// nothing is said.
pub fn tell<K: Sink>(answer: Result<Answer, AllocError>, sink: &mut K) -> u8
    ensures wrote { IfOk answer (λ a. WroteText (K.held sink.old) (K.held sink.new)
        (K.faults sink.old) (K.faults sink.new) result a.status (string_bytes a.text)) }
    ensures wanting { IfErr answer (λ _. (result ≡ 10) × Gains (K.held sink.old) (K.held sink.new) []) }
    // No fault is hidden.
    ensures told { (K.faults sink.new ≡ K.faults sink.old) ⊎ (result ≡ 5) }
{
    match answer {
        Ok(answer) => answer.write(sink),
        Err(_) => OUT_OF_MEMORY,
    }
}
