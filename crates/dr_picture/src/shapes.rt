//! The marks of a picture, and their colours.
ghost use Rattle.std.specs.Prelude.{◌≡◌, ◌++◌, OnOk, string_bytes};
ghost use Rattle.dr_picture.specs.Marks.{filling, mark_text, outline, words_text};

use std::alloc::AllocError;
use std::fmt::Write;

/// The colour of words.
pub(crate) const INK: &str = "#333";

/// The colour of what is said beside the marks.
pub(crate) const GREY: &str = "#789";

/// The colour of suspicions and crashes.
pub(crate) const RED: &str = "#c62828";

/// The colour of what members propose and vote for.
pub(crate) const VIOLET: &str = "#6a3fa0";

/// The colours of members, which begin again behind the last one.
const MEMBERS: [&str; 8] = [
    "#3b6fb6", "#c8553d", "#3f8f4a", "#b98a1e", "#3f8f93", "#a0527f", "#6b7a2a", "#777777",
];

/// The grounds of views, which begin again behind the last one.
const VIEWS: [&str; 4] = ["#eef3fa", "#fbf3df", "#eaf5e8", "#f6ecf5"];

/// A point of a picture, in pixels from its left and its top.
#[derive(Clone, Copy)]
pub(crate) struct Point {
    pub x: u32,
    pub y: u32,
}

/// What a mark looks like.
#[derive(Clone, Copy, PartialEq)]
pub(crate) enum Shape {
    Square,
    HollowSquare,
    Dot,
    Bar,
    Cross,
    Diamond,
    HollowDiamond,
}

impl Shape {
    /// Its outline around a point.
    fn outline(self) -> &'static str
        ensures { result.now ≡ outline self }
    {
        match self {
            Shape::Square | Shape::HollowSquare => "m-4.5-4.5h9v9h-9z",
            Shape::Dot => "m-4 0a4 4 0 1 0 8 0a4 4 0 1 0-8 0z",
            Shape::Bar => "m-4.5-1h9v2h-9z",
            Shape::Cross => "m-4-4l8 8m0-8l-8 8",
            Shape::Diamond | Shape::HollowDiamond => "m0-5.5l5.5 5.5-5.5 5.5-5.5-5.5z",
        }
    }

    /// What it is filled with, in this colour: a hollow one with white.
    fn filling(self, colour: &str) -> &str
        ensures { result.now ≡ filling self colour.now }
    {
        match self {
            Shape::HollowSquare | Shape::HollowDiamond => "white",
            _ => colour,
        }
    }
}

/// The colour of a member.
pub(crate) fn member_colour(member: u8) -> &'static str {
    MEMBERS[usize::from(member % 8)]
}

/// The ground of a view.
pub(crate) fn view_ground(view: u8) -> &'static str {
    VIEWS[usize::from(view % 4)]
}

/// Appends a mark around a point.
pub(crate) fn push_shape(
    out: &mut String,
    shape: Shape,
    at: Point,
    colour: &str,
) -> Result<(), AllocError>
    ensures { OnOk result
        (string_bytes out.new ≡ string_bytes out.old ++ mark_text shape at colour.now) }
{
    let Point { x, y } = at;
    let outline = shape.outline();
    let filling = shape.filling(colour);
    writeln!(
        out,
        "<path d='M{x} {y}{outline}' fill='{filling}' stroke='{colour}'/>"
    )
}

/// Appends words that begin at a point, in a style.
pub(crate) fn push_words(
    out: &mut String,
    at: Point,
    style: &str,
    colour: &str,
    words: &str,
) -> Result<(), AllocError>
    ensures { OnOk result
        (string_bytes out.new ≡ string_bytes out.old ++ words_text at style.now colour.now words.now) }
{
    let Point { x, y } = at;
    writeln!(
        out,
        "<text x='{x}' y='{y}'{style} fill='{colour}'>{words}</text>"
    )
}
