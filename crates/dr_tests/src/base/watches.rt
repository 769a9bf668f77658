//! Watches that answer once, over the rows of a group of two.
//!
//! Each is polled over rows of zeros, then over rows in which both members have a word other than 0 in one
//! column, and then over these again.
ghost use Rattle.std.specs.Prelude.{◌≡◌, ◌<◌, IfOk};
ghost use Rattle.dr_pred.specs.Group.{IsOfShape};
ghost use Rattle.dr_rows.specs.Words.{Words};
ghost use Rattle.dr_words.specs.{Columns.columns_of, Form.IsInForm};

use anyhow::anyhow;
use dr_pred::{AllDone, Once, PromisedAt, SomeSuspect, Watch};
use dr_rows::Rows;
use dr_words::{DONE_COLUMN, Mask, SUSPECTED_COLUMN, Shape, pack_accept};
use std::alloc::{AllocError, Global};

/// What a watch answers to three polls, where the members have these words: `done` waits until both are 1,
/// `suspect` for one that names member 1, and `promised` until both promise member 1.
pub(crate) fn told_of_watch(alloc: Global, words: &str) -> anyhow::Result<String> {
    let Some((kind, numbers)) = words.split_once(' ') else {
        return Err(anyhow!("a watch has a kind and two words"));
    };
    let Some((one, other)) = numbers.split_once(' ') else {
        return Err(anyhow!("a watch has two words"));
    };
    let (one, other): (u8, u8) = (one.parse()?, other.parse()?);
    let shape = Shape {
        members: 2,
        window: 1,
        banks: 1,
    };
    match kind {
        "done" if one <= 1 && other <= 1 => polls_of_done(alloc, &shape, one, other),
        "suspect" if one < 4 && other < 4 => polls_of_suspect(alloc, &shape, one, other),
        "promised" if one < 2 && other < 2 => polls_of_promised(alloc, &shape, one, other),
        _ => Err(anyhow!("this is no watch")),
    }
}

/// Waits until both are done.
fn polls_of_done(alloc: Global, shape: &Shape, one: u8, other: u8) -> anyhow::Result<String>
    requires members { shape.now.members ≡ 2 }
    requires window { shape.now.window ≡ 1 }
    requires one { one < 2 }
    requires other { other < 2 }
{
    let rows = rows_with(alloc, shape, DONE_COLUMN, u64::from(one), u64::from(other))?;
    let members = Mask::all(2);
    polls_of(alloc, shape, AllDone { members }, &rows)
}

/// Waits until one of them suspects member 1.
fn polls_of_suspect(alloc: Global, shape: &Shape, one: u8, other: u8) -> anyhow::Result<String>
    requires members { shape.now.members ≡ 2 }
    requires window { shape.now.window ≡ 1 }
    requires one { one < 4 }
    requires other { other < 4 }
{
    let rows = rows_with(
        alloc,
        shape,
        SUSPECTED_COLUMN,
        u64::from(one),
        u64::from(other),
    )?;
    let members = Mask::all(2);
    polls_of(alloc, shape, SomeSuspect { members, name: 1 }, &rows)
}

/// Waits until both have promised member 1, in the word of the leavers.
fn polls_of_promised(alloc: Global, shape: &Shape, one: u8, other: u8) -> anyhow::Result<String>
    requires members { shape.now.members ≡ 2 }
    requires window { shape.now.window ≡ 1 }
    requires one { one < 2 }
    requires other { other < 2 }
{
    let rows = rows_with(
        alloc,
        shape,
        shape.leavers_column(),
        pack_accept(one, 0, 0),
        pack_accept(other, 0, 0),
    )?;
    let watch = PromisedAt {
        shape: *shape,
        of: Mask::all(2),
        senders: Mask::empty(),
        promise: 1,
    };
    polls_of(alloc, shape, watch, &rows)
}

/// Rows of member 0 of two, which have these words in a column, and else 0.
fn rows_with(
    alloc: Global,
    shape: &Shape,
    column: usize,
    one: u64,
    other: u64,
) -> Result<Rows, AllocError>
    requires members { shape.now.members ≡ 2 }
    requires window { shape.now.window ≡ 1 }
    requires column { column < columns_of shape.now.members shape.now.window }
    requires one { IsInForm shape.now.members column one }
    requires other { IsInForm shape.now.members column other }
    ensures { IfOk result (IsOfShape shape.now) }
{
    let mut rows = Rows::new(alloc, shape.members, shape.columns(), 0)?;
    rows.set_own(column, one);
    rows.look(1, column, other);
    Ok(rows)
}

/// What a watch that answers once says over rows of zeros, over these, and over these again.
fn polls_of<W: Watch + Drop>(
    alloc: Global,
    shape: &Shape,
    watch: W,
    rows: &Rows,
) -> anyhow::Result<String>
    requires members { shape.now.members ≡ 2 }
    requires window { shape.now.window ≡ 1 }
    requires rows { IsOfShape shape.now rows.now }
    requires fits { (w : Words) → IsOfShape shape.now w → W.fits watch w }
{
    let zeros = rows_with(alloc, shape, DONE_COLUMN, 0, 0)?;
    let mut once = Once::new(watch);
    let before = once.poll(&zeros);
    let first = once.poll(rows);
    let again = once.poll(rows);
    Ok(format!(in alloc; "{before} {first} {again}")?)
}
