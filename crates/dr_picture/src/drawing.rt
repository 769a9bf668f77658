//! How bands come onto a sheet.
ghost use Rattle.std.specs.Prelude.{OnOk};
ghost use Rattle.dr_picture.specs.Sheet.{Keeps};

use crate::band::{Band, ROW};
use crate::labels::width_of;
use crate::lane::{Lane, delivered_of};
use crate::marks::{Mark, Marks};
use crate::shapes::{GREY, INK, Point, RED, member_colour, view_ground};
use crate::sheet::{GUTTER, Sheet};
use crate::strip::{Kind, Row, Strip};
use std::alloc::{AllocError, Global};
use std::fmt::Write;

/// How far below the top of its row the middle of a mark stands.
const MIDDLE: u32 = 9;

/// So many lost messages are named at most.
const NAMED: usize = 12;

/// Draws marks, and goes on by a height.
pub(crate) fn lay(sheet: &mut Sheet, marks: &[Mark], height: u32) -> Result<(), AllocError>
    ensures { OnOk result (Keeps sheet.old sheet.new) }
{
    for mark in marks {
        put(sheet, mark)?;
    }
    sheet.advance(height);
    Ok(())
}

fn put(sheet: &mut Sheet, mark: &Mark) -> Result<(), AllocError>
    ensures { OnOk result (Keeps sheet.old sheet.new) }
{
    match mark {
        Mark::Shape { at, shape, colour } => sheet.draw(*at, *shape, *colour),
        Mark::Words {
            at,
            style,
            colour,
            words,
        } => sheet.write(*at, *style, *colour, words.as_str()),
        Mark::Arrow { from, to, colour } => sheet.draw_arrow(*from, *to, *colour),
        Mark::Ground { at, to, colour } => sheet.draw_ground(*at, *to, *colour),
    }
}

/// Draws bands. The rows in which those of the age begin that are drawn are `tops`.
pub(crate) fn draw_bands(
    alloc: Global,
    sheet: &mut Sheet,
    tops: &mut Vec<u32>,
    bands: &[Band],
    whole: bool,
) -> Result<(), AllocError>
    ensures { OnOk result (Keeps sheet.old sheet.new) }
{
    for band in bands {
        tops.push(sheet.row())?;
        let marks = marks_of(alloc, sheet, tops.as_slice(), band, whole)?;
        lay(sheet, marks.as_slice(), band.height())?;
    }
    Ok(())
}

/// The names of so many members over their lanes.
pub(crate) fn titles(alloc: Global, sheet: &Sheet, members: u8) -> Result<Marks, AllocError> {
    let mut marks = Marks::new(alloc);
    for member in 0..members {
        let mut title = String::new(alloc);
        write!(title, "member {member}")?;
        let at = Point {
            x: sheet.left_of(member).saturating_add(2),
            y: sheet.row().saturating_add(10),
        };
        let colour = member_colour(member);
        marks.write(at, " font-weight='bold'", colour, title.as_str())?;
    }
    Ok(marks)
}

/// The marks of a band, if something is told in it.
fn marks_of(
    alloc: Global,
    sheet: &Sheet,
    tops: &[u32],
    band: &Band,
    whole: bool,
) -> Result<Marks, AllocError> {
    let mut marks = Marks::new(alloc);
    if band.height() > 0 {
        draw_strips(alloc, &mut marks, sheet, band, whole)?;
        draw_arrows(&mut marks, sheet, tops, band)?;
    }
    Ok(marks)
}

/// Draws the strips of a band, with the number of its turn where members take whole turns.
fn draw_strips(
    alloc: Global,
    marks: &mut Marks,
    sheet: &Sheet,
    band: &Band,
    whole: bool,
) -> Result<(), AllocError> {
    let y = sheet.row();
    let to = y.saturating_add(band.height());
    for (member, strip) in band.strips.iter().enumerate() {
        let member = member.min(16) as u8;
        let at = Point {
            x: sheet.left_of(member),
            y: y.saturating_add(band.step_of(member)),
        };
        draw_grounds(marks, strip, at, y, to)?;
        draw_strip(alloc, marks, strip, at, whole)?;
    }
    if !whole {
        return Ok(());
    }
    write_turn(alloc, marks, Point { x: 10, y }, band.turn())
}

/// Draws the grounds of the views that a member is in, whose rows begin at this point, from a row to another.
fn draw_grounds(
    marks: &mut Marks,
    strip: &Strip,
    at: Point,
    from: u32,
    to: u32,
) -> Result<(), AllocError> {
    let mut view = strip.ground;
    let mut from = from;
    let mut row = at.y;
    for told in strip.rows.iter() {
        let (next, end) = ground_behind(told.kind, view, row);
        if next != view {
            draw_ground(marks, Point { x: at.x, y: from }, end, view)?;
            from = end;
            view = next;
        }
        row = row.saturating_add(ROW);
    }
    draw_ground(marks, Point { x: at.x, y: from }, to, view)
}

/// Which view a member is in behind what is told of it in a row, and down to which row it was in the one before.
fn ground_behind(kind: Kind, view: Option<u8>, row: u32) -> (Option<u8>, u32) {
    match kind {
        Kind::View(next) => (next, row.saturating_add(2)),
        Kind::End => (None, row.saturating_add(ROW + 2)),
        _ => (view, row),
    }
}

/// Draws the ground of a view, if it is one.
fn draw_ground(marks: &mut Marks, at: Point, to: u32, view: Option<u8>) -> Result<(), AllocError> {
    match view {
        Some(view) => marks.ground(at, to, view_ground(view)),
        None => Ok(()),
    }
}

/// Draws what is told of a member, with the number of its turn where members don't take whole turns.
fn draw_strip(
    alloc: Global,
    marks: &mut Marks,
    strip: &Strip,
    at: Point,
    whole: bool,
) -> Result<(), AllocError> {
    let mut indent = 9;
    if !whole {
        indent = 27;
        if strip.rows_wanted() > 0 {
            let beside = Point {
                x: at.x.saturating_add(3),
                y: at.y,
            };
            write_turn(alloc, marks, beside, strip.turn)?;
        }
    }
    let mut y = at.y.saturating_add(MIDDLE);
    let x = at.x.saturating_add(indent);
    for row in strip.rows.iter() {
        draw_row(alloc, marks, row, Point { x, y })?;
        y = y.saturating_add(ROW);
    }
    Ok(())
}

/// Writes the number of a turn beside the first row of what begins at this point.
fn write_turn(alloc: Global, marks: &mut Marks, at: Point, turn: u32) -> Result<(), AllocError> {
    let mut number = String::new(alloc);
    write!(number, "{turn}")?;
    let beside = Point {
        x: at.x,
        y: at.y.saturating_add(MIDDLE + 4),
    };
    marks.write(beside, " font-size='9'", GREY, number.as_str())
}

/// Draws a row whose first mark stands at this point.
fn draw_row(alloc: Global, marks: &mut Marks, row: &Row, at: Point) -> Result<(), AllocError> {
    let mut x = at.x;
    for cell in row.cells.iter() {
        let here = Point { x, y: at.y };
        draw_cell(marks, row.kind, here, cell.colour, cell.label.as_str())?;
        x = x.saturating_add(cell.width());
    }
    if row.more == 0 {
        return Ok(());
    }
    let more = row.more;
    let mut words = String::new(alloc);
    write!(words, "+{more}")?;
    let y = at.y.saturating_add(4);
    marks.write(Point { x, y }, "", GREY, words.as_str())
}

fn draw_cell(
    marks: &mut Marks,
    kind: Kind,
    at: Point,
    colour: &'static str,
    label: &str,
) -> Result<(), AllocError> {
    let y = at.y.saturating_add(4);
    let beside = Point {
        x: at.x.saturating_add(8),
        y,
    };
    let here = Point {
        x: at.x.saturating_sub(4),
        y,
    };
    match kind {
        Kind::Marks(shape) | Kind::Deed(shape) => {
            marks.draw(at, shape, colour)?;
            marks.write(beside, "", INK, label)
        }
        Kind::Words => marks.write(beside, "", colour, label),
        Kind::View(_) => marks.write(here, " font-style='italic'", colour, label),
        Kind::End => marks.write(here, " font-weight='bold'", colour, label),
    }
}

/// Draws the arrows that end in a band.
fn draw_arrows(
    marks: &mut Marks,
    sheet: &Sheet,
    tops: &[u32],
    band: &Band,
) -> Result<(), AllocError> {
    for arrow in band.arrows.iter() {
        let from = Point {
            x: side_of(sheet, arrow.from, arrow.to),
            y: beside(top_of(tops, arrow.from_band), band.step_of(arrow.from)),
        };
        let to = Point {
            x: side_of(sheet, arrow.to, arrow.from),
            y: beside(top_of(tops, band.number), band.step_of(arrow.to)),
        };
        marks.point(from, to, arrow.colour)?;
    }
    Ok(())
}

/// The row in which a band begins.
fn top_of(tops: &[u32], number: u32) -> u32 {
    match tops.get(number as usize) {
        Some(top) => *top,
        None => 0,
    }
}

/// The middle of the first row of a strip, which begins so far below its band.
fn beside(top: u32, step: u32) -> u32 {
    top.saturating_add(step).saturating_add(MIDDLE)
}

/// The side of the lane of a member at which another one is.
fn side_of(sheet: &Sheet, member: u8, other: u8) -> u32 {
    let left = sheet.left_of(member);
    if member < other {
        left.saturating_add(sheet.lane())
    } else {
        left
    }
}

/// Which messages were put, and delivered by nobody in the age, and who waits for whom, told in these lines. The
/// height comes behind the marks.
pub(crate) fn ending(
    alloc: Global,
    lanes: &[Lane],
    row: u32,
    waits: &str,
) -> Result<(Marks, u32), AllocError> {
    let mut marks = Marks::new(alloc);
    let mut y = row;
    if draw_lost(alloc, &mut marks, lanes, row.saturating_add(14))? > 0 {
        y = y.saturating_add(20);
    }
    for line in waits.split_terminator('\n') {
        let at = Point {
            x: GUTTER,
            y: y.saturating_add(12),
        };
        marks.write(at, "", INK, line)?;
        y = y.saturating_add(14);
    }
    Ok((marks, y.saturating_sub(row).saturating_add(10)))
}

/// Names the lost messages in a row, and counts them.
fn draw_lost(
    alloc: Global,
    marks: &mut Marks,
    lanes: &[Lane],
    y: u32,
) -> Result<usize, AllocError> {
    let mut x = GUTTER + 260;
    let mut count = 0usize;
    for (member, lane) in lanes.iter().enumerate() {
        let member = member.min(16) as u8;
        let lost = lane.lost(delivered_of(lanes, member));
        let room = NAMED.saturating_sub(count).min(lost.len());
        x = strike_out(marks, &lost[..room], Point { x, y }, member_colour(member))?;
        count = count.saturating_add(lost.len());
    }
    count_lost(alloc, marks, Point { x: GUTTER, y }, count)?;
    Ok(count)
}

/// Writes labels of messages that are lost, one behind the other. Answers where the next one begins.
fn strike_out(
    marks: &mut Marks,
    labels: &[String],
    at: Point,
    colour: &'static str,
) -> Result<u32, AllocError> {
    let mut x = at.x;
    for label in labels {
        let words = label.as_str();
        let here = Point { x, y: at.y };
        marks.write(here, " text-decoration='line-through'", colour, words)?;
        x = x.saturating_add(width_of(words)).saturating_add(12);
    }
    Ok(x)
}

/// Writes how many messages are lost, if any are.
fn count_lost(alloc: Global, marks: &mut Marks, at: Point, count: usize) -> Result<(), AllocError> {
    if count == 0 {
        return Ok(());
    }
    let mut words = String::new(alloc);
    write!(words, "put, and delivered by nobody in this age ({count}):")?;
    marks.write(at, "", RED, words.as_str())
}
