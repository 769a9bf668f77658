//! What is to be drawn on a sheet.
use crate::labels::escaped;
use crate::shapes::{Point, Shape};
use std::alloc::{AllocError, Global};

/// Something that is to be drawn, in a colour.
#[derive(Drop)]
pub(crate) enum Mark {
    /// A shape around a point.
    Shape {
        at: Point,
        shape: Shape,
        colour: &'static str,
    },
    /// Words that begin at a point, in a style.
    Words {
        at: Point,
        style: &'static str,
        colour: &'static str,
        words: String,
    },
    /// An arrow from one point to another.
    Arrow {
        from: Point,
        to: Point,
        colour: &'static str,
    },
    /// The ground of a lane from a point down to a row.
    Ground {
        at: Point,
        to: u32,
        colour: &'static str,
    },
}

/// A list of marks that grows.
#[derive(Drop)]
pub(crate) struct Marks {
    alloc: Global,
    list: Vec<Mark>,
}

impl Marks {
    pub(crate) fn new(alloc: Global) -> Marks {
        Marks {
            alloc,
            list: Vec::new(alloc),
        }
    }

    pub(crate) fn as_slice(&self) -> &[Mark] {
        self.list.as_slice()
    }

    pub(crate) fn draw(
        &mut self,
        at: Point,
        shape: Shape,
        colour: &'static str,
    ) -> Result<(), AllocError> {
        Ok(self.list.push(Mark::Shape { at, shape, colour })?)
    }

    /// Words, of which nothing is taken for a part of the language of pictures.
    pub(crate) fn write(
        &mut self,
        at: Point,
        style: &'static str,
        colour: &'static str,
        words: &str,
    ) -> Result<(), AllocError> {
        let words = escaped(self.alloc, words)?;
        Ok(
            self.list.push(Mark::Words {
                at,
                style,
                colour,
                words,
            })?,
        )
    }

    pub(crate) fn point(
        &mut self,
        from: Point,
        to: Point,
        colour: &'static str,
    ) -> Result<(), AllocError> {
        Ok(self.list.push(Mark::Arrow { from, to, colour })?)
    }

    /// The ground of a lane, where it has some height.
    pub(crate) fn ground(
        &mut self,
        at: Point,
        to: u32,
        colour: &'static str,
    ) -> Result<(), AllocError> {
        if to <= at.y {
            return Ok(());
        }
        Ok(self.list.push(Mark::Ground { at, to, colour })?)
    }
}
