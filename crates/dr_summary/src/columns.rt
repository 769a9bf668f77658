ghost use Rattle.std.specs.{Fmt.decimal, Prelude.{◌≡◌, ◌++◌, OnOk, length, replicate, string_bytes}, Str.chars};
ghost use Rattle.dr_summary.specs.Table.{behind_blanks, gap_text, in_column, margin};

use itoa::Buffer;
use std::alloc::AllocError;

/// How many characters stand before the marks of a row.
const LABEL_WIDTH: usize = 40;

/// Appends so many blanks.
pub(crate) fn push_blanks(out: &mut String, count: usize) -> Result<(), AllocError>
    ensures { OnOk result (string_bytes out.new ≡ string_bytes out.old ++ replicate count 32) }
{
    for _ in 0..count {
        out.push_str(" ")?;
    }
    Ok(())
}

/// Appends so many dashes.
pub(crate) fn push_dashes(out: &mut String, count: usize) -> Result<(), AllocError>
    ensures { OnOk result (string_bytes out.new ≡ string_bytes out.old ++ replicate count 45) }
{
    for _ in 0..count {
        out.push_str("-")?;
    }
    Ok(())
}

/// Appends a number, with blanks before it, so that it takes at least so many characters.
///
/// # Errors
///
/// Want of memory alone.
pub fn push_aligned(out: &mut String, width: usize, number: usize) -> Result<(), AllocError>
    ensures { OnOk result
        (string_bytes out.new ≡ string_bytes out.old ++ behind_blanks width (decimal number)) }
{
    let mut buffer = Buffer::new();
    let digits = buffer.format(number as u64);
    push_blanks(out, width.saturating_sub(digits.len()))?;
    out.push_str(digits)
}

/// Appends the blanks that stand before the marks of a line without a label.
#[tactic(auto, unfolding(crate::specs::Table::label_width, crate::specs::Table::margin))]
pub(crate) fn push_margin(out: &mut String) -> Result<(), AllocError>
    ensures { OnOk result (string_bytes out.new ≡ string_bytes out.old ++ margin) }
{
    out.push_str("                                        ")
}

/// Appends a label, and blanks up to the marks, which stand on a line of their own behind a long label.
pub(crate) fn push_in_column(out: &mut String, label: &str) -> Result<(), AllocError>
    ensures { OnOk result (string_bytes out.new ≡ string_bytes out.old ++ in_column label.now) }
{
    out.push_str(label)?;
    push_gap(out, width_of(label))
}

/// Appends what stands between a label that is so wide and the marks.
#[tactic(auto, unfolding(crate::specs::Table::label_width))]
fn push_gap(out: &mut String, width: usize) -> Result<(), AllocError>
    ensures { OnOk result (string_bytes out.new ≡ string_bytes out.old ++ gap_text width) }
{
    if width <= LABEL_WIDTH {
        return push_blanks(out, LABEL_WIDTH - width);
    }
    out.push_str("\n")?;
    push_margin(out)
}

/// How many characters a text has.
fn width_of(text: &str) -> usize
    ensures { result ≡ length (chars text.now) }
{
    if text.is_ascii() {
        text.len()
    } else {
        text.chars().count()
    }
}
