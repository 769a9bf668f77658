//! What stands below a picture: what its marks mean, and whether the rest of the run is left out.
ghost use Rattle.std.specs.Prelude.{OnOk, string_bytes};
ghost use Rattle.dr_history.specs.History.{IsPrefixOf};

use crate::shapes::{INK, Point, RED, Shape, VIOLET, member_colour, push_shape, push_words};
use crate::sheet::MARGIN;
use std::alloc::AllocError;

/// The marks that are told of, each with its place from the left, and what it means.
const KEYS: [(Shape, u32, &str); 5] = [
    (Shape::Square, 24, "puts a message"),
    (Shape::HollowSquare, 130, "puts a null"),
    (
        Shape::Dot,
        216,
        "delivers, in the sender's colour; an arrow: an item is taken, or a letter",
    ),
    (Shape::Bar, 590, "entries that are durable"),
    (
        Shape::Diamond,
        736,
        "a change of the view; N:K: K items of N count",
    ),
];

/// Appends what the marks mean, in a row.
pub(crate) fn push_legend(out: &mut String, row: u32) -> Result<(), AllocError>
    ensures { OnOk result (IsPrefixOf (string_bytes out.old) (string_bytes out.new)) }
{
    for key in &KEYS {
        let (shape, x, meaning) = *key;
        push_key(out, shape, Point { x, y: row }, meaning)?;
    }
    Ok(())
}

/// Appends what a mark means.
fn push_key(out: &mut String, shape: Shape, at: Point, meaning: &str) -> Result<(), AllocError>
    ensures { OnOk result (IsPrefixOf (string_bytes out.old) (string_bytes out.new)) }
{
    push_shape(out, shape, at, key_colour(shape))?;
    let words_at = Point {
        x: at.x.saturating_add(9),
        y: at.y.saturating_add(4),
    };
    push_words(out, words_at, "", INK, meaning)
}

/// The colour that a mark has in the legend: that of the first member, where it has that of some member.
fn key_colour(shape: Shape) -> &'static str {
    match shape {
        Shape::Bar => INK,
        Shape::Diamond => VIOLET,
        _ => member_colour(0),
    }
}

/// Appends in a row that the rest of a run isn't drawn.
pub(crate) fn push_left_out(out: &mut String, row: u32) -> Result<(), AllocError>
    ensures { OnOk result (IsPrefixOf (string_bytes out.old) (string_bytes out.new)) }
{
    let at = Point { x: MARGIN, y: row };
    push_words(out, at, "", RED, "The rest of the run is left out.")
}
