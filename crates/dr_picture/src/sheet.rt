//! The sheet that a picture is drawn on.
ghost use Rattle.std.specs.Prelude.{◌≡◌, ◌-◌, ◌++◌, OnOk, nat_eq, string_bytes};
ghost use Rattle.dr_history.specs.History.{IsPrefixOf};
ghost use Rattle.dr_picture.specs.Marks.{ground_text, arrow_text, layer_text, mark_text, words_text};
ghost use Rattle.dr_picture.specs.Sheet.{IsBlank, IsDrawnIn, Keeps, advanced, layers_text, left_of};

use crate::legend::{push_left_out, push_legend};
use crate::shapes::{Point, Shape, push_shape, push_words};
use std::alloc::{AllocError, Global};
use std::fmt::Write;
use std::marker::Model;

/// So high a picture gets at most.
const MAX_HEIGHT: u32 = 24_000;

/// What is left free at the right and at the top.
pub(crate) const MARGIN: u32 = 16;

/// What is left free at the left, for the numbers of turns.
pub(crate) const GUTTER: u32 = 40;

/// The width that the legend takes.
const LEAST_WIDTH: u32 = 980;

/// What is left free between two lanes.
const GAP: u32 = 8;

/// A sheet: what is drawn lies in four layers, one over the other.
#[derive(Drop)]
pub(crate) struct Sheet {
    /// The grounds of views.
    grounds: String,
    /// The arrows between lanes.
    arrows: String,
    marks: String,
    words: String,
    /// The width of a lane.
    lane: u32,
    /// The width of all lanes.
    width: u32,
    /// The row at which what is drawn next begins.
    row: u32,
    /// How much higher it may get.
    left: u32,
}

impl Model for Sheet {
    ghost use Rattle.std.specs.Prelude.{string_bytes};
    ghost use Rattle.dr_picture.specs.Sheet.{Drawn};

    ghost Value = { Drawn };

    ghost view = { λ s. record {
      grounds = string_bytes s.grounds;
      arrows = string_bytes s.arrows;
      marks = string_bytes s.marks;
      words = string_bytes s.words;
      lane = s.lane;
      width = s.width;
      row = s.row;
      left = s.left;
    } };
}

impl Sheet {
    /// An empty sheet for so many members.
    pub(crate) fn new(alloc: Global, members: u8) -> Sheet
        ensures { IsBlank result }
    {
        let lane = (1100 / u32::from(members.max(1))).max(72).min(280);
        Sheet {
            grounds: String::new(alloc),
            arrows: String::new(alloc),
            marks: String::new(alloc),
            words: String::new(alloc),
            lane,
            width: lane.saturating_add(GAP).saturating_mul(u32::from(members)),
            row: MARGIN,
            left: MAX_HEIGHT,
        }
    }

    /// Whether it may get no higher.
    pub(crate) fn is_full(&self) -> bool
        ensures { result ≡ nat_eq self.now.left 0 }
    {
        self.left == 0
    }

    /// The row at which what is drawn next begins.
    pub(crate) fn row(&self) -> u32
        ensures { result ≡ self.now.row }
    {
        self.row
    }

    /// The width of a lane.
    pub(crate) fn lane(&self) -> u32
        ensures { result ≡ self.now.lane }
    {
        self.lane
    }

    /// Goes on by so much.
    pub(crate) fn advance(&mut self, height: u32)
        ensures moves { self.new ≡ advanced self.old height }
        ensures keeps { Keeps self.old self.new }
    {
        self.left = self.left.saturating_sub(height);
        self.row = self.row.saturating_add(height);
    }

    /// The left of a lane.
    pub(crate) fn left_of(&self, member: u8) -> u32
        ensures { result ≡ left_of self.now member }
    {
        self.lane
            .saturating_add(GAP)
            .saturating_mul(u32::from(member))
            .saturating_add(GUTTER)
    }

    /// Draws a mark around a point.
    pub(crate) fn draw(&mut self, at: Point, shape: Shape, colour: &str) -> Result<(), AllocError>
        ensures adds { OnOk result (self.new ≡ record self.old {
          marks = self.old.marks ++ mark_text shape at colour.now;
        }) }
        ensures keeps { OnOk result (Keeps self.old self.new) }
    {
        push_shape(&mut self.marks, shape, at, colour)
    }

    /// Writes words that begin at a point, in a style.
    pub(crate) fn write(
        &mut self,
        at: Point,
        style: &str,
        colour: &str,
        words: &str,
    ) -> Result<(), AllocError>
        ensures adds { OnOk result (self.new ≡ record self.old {
          words = self.old.words ++ words_text at style.now colour.now words.now;
        }) }
        ensures keeps { OnOk result (Keeps self.old self.new) }
    {
        push_words(&mut self.words, at, style, colour, words)
    }

    /// Draws an arrow from one point to another.
    pub(crate) fn draw_arrow(
        &mut self,
        one: Point,
        other: Point,
        colour: &str,
    ) -> Result<(), AllocError>
        ensures adds { OnOk result (self.new ≡ record self.old {
          arrows = self.old.arrows ++ arrow_text one other colour.now;
        }) }
        ensures keeps { OnOk result (Keeps self.old self.new) }
    {
        let Point { x, y } = one;
        let Point { x: to_x, y: to_y } = other;
        writeln!(
            self.arrows,
            "<path d='M{x} {y}L{to_x} {to_y}' stroke='{colour}'/>"
        )
    }

    /// Draws the ground of a lane from one row to another in this colour.
    pub(crate) fn draw_ground(&mut self, at: Point, to: u32, colour: &str) -> Result<(), AllocError>
        ensures adds { OnOk result (self.new ≡ record self.old {
          grounds = self.old.grounds ++ ground_text at self.old.lane (to - at.y) colour.now;
        }) }
        ensures keeps { OnOk result (Keeps self.old self.new) }
    {
        let Point { x, y } = at;
        let width = self.lane;
        let height = to.saturating_sub(y);
        writeln!(
            self.grounds,
            "<rect x='{x}' y='{y}' width='{width}' height='{height}' fill='{colour}'/>"
        )
    }

    /// Appends all that is drawn, with a legend below it, and the words before the last line of a run.
    pub(crate) fn push_to(&self, out: &mut String) -> Result<(), AllocError>
        ensures { OnOk result (IsDrawnIn self.now (string_bytes out.old) (string_bytes out.new)) }
    {
        let width = self
            .width
            .saturating_add(GUTTER)
            .max(LEAST_WIDTH)
            .saturating_add(MARGIN);
        let legend = self.row.saturating_add(MARGIN);
        let last = legend.saturating_add(MARGIN + 8);
        push_head(out, width, last.saturating_add(MARGIN))?;
        self.push_layers(out)?;
        push_foot(out, legend, last, self.is_full())
    }

    /// Appends the layers. The words are told twice, first with a white seam, so that no line runs through
    /// them.
    fn push_layers(&self, out: &mut String) -> Result<(), AllocError>
        ensures { OnOk result (string_bytes out.new ≡ string_bytes out.old ++ layers_text self.now) }
    {
        push_layer(out, "stroke='#d5dfec'", &self.grounds)?;
        let look = "fill='none' stroke-opacity='0.5' marker-end='url(#head)'";
        push_layer(out, look, &self.arrows)?;
        let seam = "stroke='white' stroke-width='3' stroke-opacity='0.8'";
        push_layer(out, seam, &self.words)?;
        push_layer(out, "stroke-width='1.5'", &self.marks)?;
        push_layer(out, "stroke='none'", &self.words)
    }
}

/// Appends how a picture of this size begins.
fn push_head(out: &mut String, width: u32, height: u32) -> Result<(), AllocError>
    ensures { OnOk result (IsPrefixOf (string_bytes out.old) (string_bytes out.new)) }
{
    out.push_str("<svg xmlns='http://www.w3.org/2000/svg' version='1.1' ")?;
    write!(out, "width='{width}' height='{height}' ")?;
    out.push_str("font-family='sans-serif' font-size='10'>\n")?;
    out.push_str("<title>A simulated run of a group</title>\n")?;
    out.push_str("<defs><marker id='head' viewBox='0 0 6 6' refX='6' refY='3' markerWidth='6' ")?;
    out.push_str(
        "markerHeight='6' orient='auto'><path d='M0 0L6 3L0 6z' fill='#888'/></marker></defs>\n",
    )?;
    out.push_str("<rect width='100%' height='100%' fill='white'/>\n")
}

/// Appends a layer with what holds for all that is drawn on it.
fn push_layer(out: &mut String, look: &str, drawn: &String) -> Result<(), AllocError>
    ensures { OnOk result (string_bytes out.new
        ≡ string_bytes out.old ++ layer_text look.now (string_bytes drawn.now)) }
{
    writeln!(out, "<g {look}>")?;
    out.push_str(drawn.as_str())?;
    out.push_str("</g>\n")
}

/// Appends what stands below the layers: a legend in this row, above it where the rest of a run isn't drawn,
/// and below it the words before the last line.
fn push_foot(out: &mut String, legend: u32, last: u32, is_full: bool) -> Result<(), AllocError>
    ensures { OnOk result (IsPrefixOf (string_bytes out.old) (string_bytes out.new)) }
{
    push_legend(out, legend)?;
    if is_full {
        push_left_out(out, legend.saturating_sub(MARGIN))?;
    }
    write!(
        out,
        "<text x='{MARGIN}' y='{last}' font-weight='bold'>The last line of the run: "
    )
}
