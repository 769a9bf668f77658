//! A reader and writer that is interrupted, that fails, and that ends.
ghost use Rattle.std.specs.Prelude.{◌≤◌, IfOk};

use dr_io::{InputSource, OutputSink, Sink, Source};
use std::alloc::{AllocError, Global};
use std::fmt::Write as _;
use std::io::{self, ErrorKind, Read, Write};

/// What is interrupted in its first two calls, gives or takes two bytes in its third, fails in its fourth, gives or
/// takes one byte in its fifth, and none then.
#[derive(Drop)]
struct Faulty {
    calls: u8,
}

impl Faulty {
    /// How many of so many bytes the next call gives or takes.
    fn next(&mut self, most: usize) -> io::Result<usize>
        ensures { IfOk result (λ count. count ≤ most) }
    {
        self.calls = self.calls.saturating_add(1);
        match self.calls {
            1 | 2 => Err(ErrorKind::Interrupted.into()),
            3 => Ok(most.min(2)),
            4 => Err(ErrorKind::TimedOut.into()),
            5 => Ok(most.min(1)),
            _ => Ok(0),
        }
    }
}

impl Read for Faulty {
    fn read(&mut self, into: &mut [u8]) -> io::Result<usize> {
        let count = self.next(into.len())?;
        into[..count].fill(self.calls);
        Ok(count)
    }
}

impl Write for Faulty {
    fn write(&mut self, from: &[u8]) -> io::Result<usize> {
        self.next(from.len())
    }

    fn flush(&mut self) -> io::Result<()> {
        Ok(())
    }
}

/// What a source answers four times over that reader, and the bytes that it has then given.
pub(crate) fn told_of_reader(alloc: Global) -> Result<String, AllocError> {
    let mut source = InputSource::new(Faulty { calls: 0 });
    let mut into = [0; 5];
    let mut text = String::new(alloc);
    for _ in 0..4 {
        let answer = source.read(&mut into);
        write!(text, "{answer:?} {into:?} ")?;
    }
    Ok(text)
}

/// What a sink answers four times over that writer, and twice over one that has room for ten bytes, and those.
pub(crate) fn told_of_writer(alloc: Global) -> Result<String, AllocError> {
    let mut text = String::new(alloc);
    push_answers(&mut text, OutputSink::new(Faulty { calls: 0 }), 4)?;
    let mut room = [0; 10];
    push_answers(&mut text, OutputSink::new(room.as_mut_slice()), 2)?;
    write!(text, "{room:?}")?;
    Ok(text)
}

/// Appends what a sink answers so many times.
fn push_answers<W: Write + Drop>(
    out: &mut String,
    sink: OutputSink<W>,
    times: u8,
) -> Result<(), AllocError> {
    let mut sink = sink;
    for _ in 0..times {
        let answer = sink.write(b"age 0 ");
        write!(out, "{answer:?} ")?;
    }
    Ok(())
}
