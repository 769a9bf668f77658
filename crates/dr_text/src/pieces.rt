ghost use Rattle.std.specs.Prelude.{◌≡◌, OnOk, OnErr, string_bytes, take};
ghost use Rattle.dr_io.specs.{Faults.HasCause, Sink.Gains};
ghost use Rattle.dr_text.specs.{Pieces.{piece_text, pieces_text}, Writing.WroteFront};

use crate::writing::write_all;
use dr_io::{Failed, Sink};
use std::marker::Model;

/// A piece of a text: bytes of its own, and behind them the first `count` bytes of lines that it shares
/// with others, or all of them.
#[derive(Debug, Drop)]
pub(crate) struct Piece {
    pub own: String,
    pub count: usize,
}

/// A text in pieces. Contracts see it as its bytes.
#[derive(Debug, Drop)]
pub(crate) struct PiecedText {
    /// The lines that pieces end with.
    lines: String,
    pieces: Vec<Piece>,
}

impl Model for PiecedText {
    ghost use Rattle.std.specs.Prelude.{List, ℕ, string_bytes};
    ghost use Rattle.dr_text.specs.Pieces.{pieces_text};

    ghost Value = { List ℕ };

    ghost view = { λ p. pieces_text (string_bytes p.lines) p.pieces.items };
}

impl PiecedText {
    /// The text of these pieces, which share these lines.
    pub(crate) fn of(lines: String, pieces: Vec<Piece>) -> PiecedText
        ensures { result ≡ pieces_text (string_bytes lines) pieces.items }
    {
        PiecedText { lines, pieces }
    }

    /// Writes the text.
    pub(crate) fn write_to<K: Sink>(&self, sink: &mut K) -> Result<(), Failed>
        ensures ok { OnOk result (Gains (K.held sink.old) (K.held sink.new) self.now) }
        ensures err { OnErr result (WroteFront (K.held sink.old) (K.held sink.new) self.now) }
        ensures cause { HasCause (K.faults sink.old) (K.faults sink.new) result }
    {
        write_pieces(sink, self.lines.as_str().as_bytes(), self.pieces.as_slice())
    }
}

/// Writes these pieces behind one another.
fn write_pieces<K: Sink>(sink: &mut K, lines: &[u8], pieces: &[Piece]) -> Result<(), Failed>
    ensures ok { OnOk result
        (Gains (K.held sink.old) (K.held sink.new) (pieces_text lines.now pieces.now)) }
    ensures err { OnErr result
        (WroteFront (K.held sink.old) (K.held sink.new) (pieces_text lines.now pieces.now)) }
    ensures cause { HasCause (K.faults sink.old) (K.faults sink.new) result }
{
    for piece in pieces {
        write_piece(sink, lines, piece)?;
    }
    Ok(())
}

fn write_piece<K: Sink>(sink: &mut K, lines: &[u8], piece: &Piece) -> Result<(), Failed>
    ensures ok { OnOk result
        (Gains (K.held sink.old) (K.held sink.new) (piece_text lines.now piece.now)) }
    ensures err { OnErr result
        (WroteFront (K.held sink.old) (K.held sink.new) (piece_text lines.now piece.now)) }
    ensures cause { HasCause (K.faults sink.old) (K.faults sink.new) result }
{
    write_all(sink, piece.own.as_str().as_bytes())?;
    write_all(sink, first(lines, piece.count))
}

/// The first `count` bytes, or all of them.
fn first(bytes: &[u8], count: usize) -> &[u8]
    ensures { result.now ≡ take count bytes.now }
{
    &bytes[..count.min(bytes.len())]
}
