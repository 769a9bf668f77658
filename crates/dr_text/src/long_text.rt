//! Texts that are never made whole.

ghost use Rattle.std.specs.{List.{concat, flat_map}, Prelude.{◌≡◌, ◌++◌, [], IfOk, OnOk, OnErr, string_bytes}};
ghost use Rattle.dr_io.specs.{Faults.HasCause, Sink.Gains};
ghost use Rattle.dr_text.specs.{Report.age_text, Writing.WroteFront};

use crate::age::text_of;
use crate::pieces::{Piece, PiecedText};
use crate::writing::write_all;
use dr_entry::AgeEnd;
use dr_io::{Failed, Sink};
use std::alloc::{AllocError, Global};
use std::marker::Model;

/// A text that is written piece by piece, and never made whole. Contracts see it as its bytes. Lines that stand
/// in it several times are kept once.
#[derive(Debug, Drop)]
pub struct LongText {
    parts: Vec<PiecedText>,
}

impl Model for LongText {
    ghost use Rattle.std.specs.Prelude.{List, ℕ};
    ghost use Rattle.std.specs.List.{concat};

    ghost Value = { List ℕ };

    ghost view = { λ t. concat t.parts.items };
}

impl LongText {
    /// The empty text.
    pub fn new(alloc: Global) -> LongText
        ensures { result ≡ [] }
    {
        LongText {
            parts: Vec::new(alloc),
        }
    }

    /// The text of this string.
    ///
    /// # Errors
    ///
    /// Want of memory alone.
    pub fn of(alloc: Global, text: String) -> Result<LongText, AllocError>
        ensures { IfOk result (λ long. long ≡ string_bytes text) }
    {
        let mut long = LongText::new(alloc);
        long.push_string(alloc, text)?;
        Ok(long)
    }

    /// The text of these ages, in their order.
    ///
    /// # Errors
    ///
    /// Want of memory alone.
    pub fn of_ages(alloc: Global, ages: &[AgeEnd]) -> Result<LongText, AllocError>
        ensures { IfOk result (λ long. long ≡ flat_map age_text ages.now) }
    {
        let mut long = LongText::new(alloc);
        for age in ages {
            long.push_age_text(alloc, age)?;
        }
        Ok(long)
    }

    /// Appends a string, which is not copied.
    ///
    /// # Errors
    ///
    /// Want of memory alone.
    pub fn push_string(&mut self, alloc: Global, text: String) -> Result<(), AllocError>
        ensures { OnOk result (self.new ≡ self.old ++ string_bytes text) }
    {
        let mut pieces = Vec::new(alloc);
        pieces.push(Piece {
            own: text,
            count: 0,
        })?;
        self.parts.push(PiecedText::of(String::new(alloc), pieces))?;
        Ok(())
    }

    /// Appends the text of an age. Lines that its members share are made once.
    ///
    /// # Errors
    ///
    /// Want of memory alone.
    pub fn push_age_text(&mut self, alloc: Global, age: &AgeEnd) -> Result<(), AllocError>
        ensures { OnOk result (self.new ≡ self.old ++ age_text age.now) }
    {
        self.parts.push(text_of(alloc, age)?)?;
        Ok(())
    }

    /// Writes the text piece by piece, and behind it the last line, and takes no memory. Where the sink fails, a
    /// front part of both was written.
    ///
    /// # Errors
    ///
    /// A fault of the sink.
    pub fn write_with<K: Sink>(&self, last: &str, sink: &mut K) -> Result<(), Failed>
        ensures ok { OnOk result (Gains (K.held sink.old) (K.held sink.new) (self.now ++ last.now)) }
        ensures err { OnErr result
            (WroteFront (K.held sink.old) (K.held sink.new) (self.now ++ last.now)) }
        ensures cause { HasCause (K.faults sink.old) (K.faults sink.new) result }
    {
        write_parts(sink, self.parts.as_slice())?;
        write_all(sink, last.as_bytes())
    }
}

/// Writes these texts behind one another.
fn write_parts<K: Sink>(sink: &mut K, parts: &[PiecedText]) -> Result<(), Failed>
    ensures ok { OnOk result (Gains (K.held sink.old) (K.held sink.new) (concat parts.now)) }
    ensures err { OnErr result (WroteFront (K.held sink.old) (K.held sink.new) (concat parts.now)) }
    ensures cause { HasCause (K.faults sink.old) (K.faults sink.new) result }
{
    for part in parts {
        part.write_to(sink)?;
    }
    Ok(())
}
