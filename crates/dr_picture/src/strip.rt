//! The strip of a member: what is told of it in a band.
use crate::labels::{push_names, push_trim, width_of};
use crate::shapes::{Shape, VIOLET};
use dr_seeing::Change;
use std::alloc::{AllocError, Global};
use std::fmt::Write;

/// So many rows of marks of a kind stand behind one another in a band at most: more marks are counted.
const MOST_ROWS: usize = 3;

/// The width that their count takes, of three digits.
const COUNT_WIDTH: u32 = 27;

/// What is told of a member in a band.
#[derive(Drop)]
pub(crate) struct Strip {
    alloc: Global,
    /// The number of its turn.
    pub turn: u32,
    /// Whether it has begun a turn in this band.
    pub has_begun: bool,
    /// Whether it has taken an item in this band.
    pub has_taken: bool,
    /// Whether entries may come to the history by its last deed, so that there may be more to tell once that is done.
    pub waits: bool,
    pub rows: Vec<Row>,
    /// The view that it is in as the band begins, if it is in one, and the same as the band ends.
    pub ground: Option<u8>,
    pub view: Option<u8>,
}

/// A row of a strip: words, or marks of one kind.
#[derive(Drop)]
pub(crate) struct Row {
    pub kind: Kind,
    pub cells: Vec<Cell>,
    /// How many marks more there were.
    pub more: u32,
    /// The width that its cells take.
    pub width: u32,
}

/// What a row is of.
#[derive(Clone, Copy)]
pub(crate) enum Kind {
    /// Marks, of which several stand in a row.
    Marks(Shape),
    /// A mark with words behind it.
    Deed(Shape),
    /// Words alone.
    Words,
    /// The heading of a view, and which one the member is in from there on, if it is in one.
    View(Option<u8>),
    /// How the member ended.
    End,
}

/// A label, with the colour of its mark, or its own where it has none.
#[derive(Drop)]
pub(crate) struct Cell {
    pub colour: &'static str,
    pub label: String,
}

impl Cell {
    /// Words with a number behind them.
    pub(crate) fn of_number(
        alloc: Global,
        colour: &'static str,
        words: &str,
        number: u64,
    ) -> Result<Cell, AllocError> {
        let mut label = String::new(alloc);
        write!(label, "{words} {number}")?;
        Ok(Cell { colour, label })
    }

    /// Who leaves, and who joins.
    pub(crate) fn of_names(alloc: Global, change: &Change) -> Result<Cell, AllocError> {
        let mut label = String::new(alloc);
        push_names(&mut label, change)?;
        Ok(Cell {
            colour: VIOLET,
            label,
        })
    }

    /// How many items of each of so many members count.
    pub(crate) fn of_trim(
        alloc: Global,
        change: &Change,
        members: usize,
    ) -> Result<Cell, AllocError> {
        let mut label = String::new(alloc);
        push_trim(&mut label, change.trim.as_slice(), members)?;
        Ok(Cell {
            colour: VIOLET,
            label,
        })
    }

    /// The width that it takes.
    pub(crate) fn width(&self) -> u32 {
        width_of(self.label.as_str()).saturating_add(14)
    }
}

impl Strip {
    /// The strip of a member before it does anything.
    pub(crate) fn new(alloc: Global) -> Strip {
        Strip {
            alloc,
            turn: 0,
            has_begun: false,
            has_taken: false,
            waits: false,
            rows: Vec::new(alloc),
            ground: None,
            view: None,
        }
    }

    /// The strip of the member in the next band.
    pub(crate) fn next(&self) -> Strip {
        Strip {
            alloc: self.alloc,
            turn: self.turn,
            has_begun: false,
            has_taken: false,
            waits: false,
            rows: Vec::new(self.alloc),
            ground: self.view,
            view: self.view,
        }
    }

    /// The member begins this turn.
    pub(crate) fn begin(&mut self, turn: u32) {
        self.turn = turn;
        self.has_begun = true;
    }

    /// How many rows it takes.
    pub(crate) fn rows_wanted(&self) -> usize {
        self.rows.len().max(usize::from(self.has_taken))
    }

    /// How many rows it has of marks of this kind.
    fn rows_of(&self, kind: Kind) -> usize {
        let mut count = 0usize;
        for row in self.rows.iter() {
            if row.is_of_marks(kind) {
                count = count.saturating_add(1);
            }
        }
        count
    }

    /// Tells something of this kind, in a lane of this width: in its last row, if that has room for it, or in a
    /// row of its own. Behind so many rows of marks it is counted alone.
    pub(crate) fn tell(&mut self, kind: Kind, cell: Cell, width: u32) -> Result<(), AllocError> {
        let is_last = self.rows_of(kind) >= MOST_ROWS;
        let room = width.saturating_sub(if is_last { COUNT_WIDTH } else { 0 });
        match self.rows.last_mut() {
            Some(row) if row.takes(kind, &cell, room) => return row.add(cell),
            Some(row) if is_last && row.is_of_marks(kind) => {
                row.count(room);
                return Ok(());
            }
            _ => {}
        }
        let mut row = Row::new(self.alloc, kind);
        row.add(cell)?;
        Ok(self.rows.push(row)?)
    }
}

impl Row {
    /// A row without cells.
    fn new(alloc: Global, kind: Kind) -> Row {
        Row {
            kind,
            cells: Vec::new(alloc),
            more: 0,
            width: 0,
        }
    }

    /// Whether it is of marks of this kind, of which several stand in a row.
    fn is_of_marks(&self, kind: Kind) -> bool {
        match (self.kind, kind) {
            (Kind::Marks(shape), Kind::Marks(other)) => shape == other,
            _ => false,
        }
    }

    /// Whether a cell of this kind has room in it.
    fn takes(&self, kind: Kind, cell: &Cell, room: u32) -> bool {
        self.is_of_marks(kind) && self.more == 0 && self.width.saturating_add(cell.width()) <= room
    }

    /// Counts one mark more, and those of its cells too where these take more than this width.
    fn count(&mut self, room: u32) {
        self.more = self.more.saturating_add(1);
        if self.width > room {
            let cells = self.cells.len().min(1000) as u32;
            self.more = self.more.saturating_add(cells);
            self.cells.clear();
            self.width = 0;
        }
    }

    fn add(&mut self, cell: Cell) -> Result<(), AllocError> {
        self.width = self.width.saturating_add(cell.width());
        Ok(self.cells.push(cell)?)
    }
}
