ghost use Rattle.std.specs.{Io.{ReadsAtMost, KnownBytes.ReadConsumes}, Prelude.{◌≡◌, ◌<◌, length}};

use crate::failed::Failed;
use crate::source::Source;
use std::io::{ErrorKind, Read};
use std::marker::Model;

/// A source over a reader of std, as standard input. As a [`Source`] it tells nothing of its content;
/// over a reader that tells what is left, it gives exactly that.
#[derive(Debug, Drop)]
pub struct InputSource<R: Read> {
    inner: R,
    faults: u64,
}

impl<R: Read> Model for InputSource<R> {
    ghost use Rattle.dr_io.specs.Adapters.{Adapter};

    ghost Value = { Adapter R };

    ghost view = { λ s. record { inner = s.inner; faults = s.faults } };
}

impl<R: Read> InputSource<R> {
    /// A source over `inner`, of which no call has failed.
    pub fn new(inner: R) -> InputSource<R>
        ensures inner { result.inner ≡ inner }
        ensures none { result.faults ≡ 0 }
        ensures faults { ⟦<InputSource<R> as Source>⟧.faults result ≡ 0 }
    {
        InputSource { inner, faults: 0 }
    }
}

impl<R: Read> Source for InputSource<R> {
    ghost use Rattle.std.specs.Prelude.{None};
    ghost use Rattle.dr_io.specs.Adapters.{faults_after};
    ghost use Rattle.dr_io.specs.Faults.{HasCause};
    ghost use Rattle.dr_io.specs.Source.{Reads};

    ghost left = { λ _. None };

    ghost faults = { λ source. source.faults };

    fn read(&mut self, into: &mut [u8]) -> Result<usize, Failed>
        requires { 0 < length into.old }
        ensures bound { ReadsAtMost result into.new }
        ensures bytes { Reads None None result into.new }
        ensures cause { HasCause self.old.faults self.new.faults result }

        ensures relayed { ReadConsumes (R.remaining self.old.inner) (R.remaining self.new.inner)
            result into.new }
        ensures count { self.new.faults ≡ faults_after result self.old.faults }
    {
        // A read that a signal interrupts is no fault: it is tried again.
        for _ in 0..u64::MAX {
            match self.inner.read(into) {
                Ok(count) => return Ok(count),
                Err(error) if error.kind() == ErrorKind::Interrupted => {}
                Err(_) => break,
            }
        }
        self.faults = self.faults.saturating_add(1);
        Err(Failed)
    }
}
