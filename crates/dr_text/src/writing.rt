ghost use Rattle.std.specs.Prelude.{OnOk, OnErr};
ghost use Rattle.dr_io.specs.{Faults.HasCause, Sink.Gains};
ghost use Rattle.dr_text.specs.Writing.{WroteFront};

use dr_io::{Failed, Sink};

/// Writes the whole text, piece by piece. Where the sink fails, a front part of the text was written.
///
/// # Errors
///
/// A fault of the sink.
pub fn write_all<K: Sink>(sink: &mut K, text: &[u8]) -> Result<(), Failed>
    ensures ok { OnOk result (Gains (K.held sink.old) (K.held sink.new) text.now) }
    ensures err { OnErr result (WroteFront (K.held sink.old) (K.held sink.new) text.now) }
    ensures cause { HasCause (K.faults sink.old) (K.faults sink.new) result }
{
    let mut at = 0;
    while at < text.len() {
        at += sink.write(&text[at..])?;
    }
    Ok(())
}
