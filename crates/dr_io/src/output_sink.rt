ghost use Rattle.std.specs.{Io.KnownBytes.WriteAppends, Prelude.{◌≡◌, ◌<◌, ◌≤◌, IfOk, length}};

use crate::failed::Failed;
use crate::sink::Sink;
use std::io::{ErrorKind, Write};
use std::marker::Model;

/// A sink over a writer of std, as standard output. As a [`Sink`] it tells nothing of its content; over
/// a writer that tells what it holds, that grows by exactly what was taken.
#[derive(Debug, Drop)]
pub struct OutputSink<W: Write> {
    inner: W,
    faults: u64,
}

impl<W: Write> Model for OutputSink<W> {
    ghost use Rattle.dr_io.specs.Adapters.{Adapter};

    ghost Value = { Adapter W };

    ghost view = { λ s. record { inner = s.inner; faults = s.faults } };
}

impl<W: Write> OutputSink<W> {
    /// A sink over `inner`, of which no call has failed.
    pub fn new(inner: W) -> OutputSink<W>
        ensures inner { result.inner ≡ inner }
        ensures none { result.faults ≡ 0 }
        ensures faults { ⟦<OutputSink<W> as Sink>⟧.faults result ≡ 0 }
    {
        OutputSink { inner, faults: 0 }
    }
}

impl<W: Write> Sink for OutputSink<W> {
    ghost use Rattle.std.specs.Prelude.{None};
    ghost use Rattle.dr_io.specs.Adapters.{faults_after};
    ghost use Rattle.dr_io.specs.Faults.{HasCause};
    ghost use Rattle.dr_io.specs.Sink.{Writes};

    ghost held = { λ _. None };

    ghost faults = { λ sink. sink.faults };

    fn write(&mut self, from: &[u8]) -> Result<usize, Failed>
        requires { 0 < length from.now }
        ensures some { IfOk result (λ n. 0 < n) }
        ensures bound { IfOk result (λ n. n ≤ length from.now) }
        ensures bytes { Writes None None result from.now }
        ensures cause { HasCause self.old.faults self.new.faults result }

        ensures relayed { WriteAppends (W.contents self.old.inner) (W.contents self.new.inner)
            result from.now }
        ensures count { self.new.faults ≡ faults_after result self.old.faults }
    {
        // A write that a signal interrupts is no fault: it is tried again.
        for _ in 0..u64::MAX {
            match self.inner.write(from) {
                Ok(0) => break,
                Ok(count) => return Ok(count),
                Err(error) if error.kind() == ErrorKind::Interrupted => {}
                Err(_) => break,
            }
        }
        self.faults = self.faults.saturating_add(1);
        Err(Failed)
    }
}
