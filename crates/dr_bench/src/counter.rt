use dr_io::{Failed, Sink};

/// A sink that counts the bytes that are written, and keeps none.
#[derive(Clone, Copy)]
pub struct Counter {
    pub bytes: u64,
}

impl Sink for Counter {
    ghost use Rattle.std.specs.Prelude.{None};

    ghost held = { λ _. None };

    ghost faults = { λ _. 0 };

    fn write(&mut self, from: &[u8]) -> Result<usize, Failed> {
        self.bytes = self.bytes.wrapping_add(from.len() as u64);
        Ok(from.len())
    }
}
