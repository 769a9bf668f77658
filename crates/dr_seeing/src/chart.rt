//! A chart of a run: a column for each member, and a row for each of its turns with news.
ghost use Rattle.std.specs.Prelude.{◌≡◌, None};
ghost use Rattle.dr_program.specs.Form.{IsRunningMember};

use crate::deeds::news_of;
use crate::news::News;
use crate::turn::{Turn, push_rest};
use crate::waits::push_waits;
use dr_entry::Entry;
use dr_member::Member;
use std::alloc::{AllocError, Global};
use std::fmt::Write;
use std::mem::replace;

/// What stands before the first column.
const MARGIN: usize = 6;

/// A chart that is drawn as a run goes on.
#[derive(Drop)]
pub struct Chart {
    alloc: Global,
    /// What is drawn and not yet taken.
    text: String,
    /// The rows that are yet to be drawn.
    rows: Vec<Row>,
    /// The turn that each member is in.
    turns: Vec<Turn>,
    /// How many entries of the history of each member are told.
    told: Vec<usize>,
    /// How many turns without news have ended since the last row.
    quiet: u64,
    /// The turn of the row drawn last.
    turn: u32,
    /// Whether each member takes whole turns, with no deed of another one in them.
    whole: bool,
    /// The member that was seen last.
    last: Option<u8>,
    /// The width of a column.
    width: u8,
}

/// A row: a turn of a member, with its news.
#[derive(Drop)]
struct Row {
    me: u8,
    turn: u32,
    words: String,
    /// Whether there may be more to tell of it, once its last deed is done.
    waits: bool,
    /// Whether that would come by a letter.
    by_letter: bool,
    /// How many turns without news have ended before it.
    quiet: u64,
}

impl Chart {
    /// A chart of so many members, which take whole turns or not.
    ///
    /// # Errors
    ///
    /// Want of memory alone.
    pub fn new(alloc: Global, members: u8, whole: bool) -> Result<Chart, AllocError> {
        let mut turns = Vec::new(alloc);
        for _ in 0..members {
            turns.push(Turn::new(alloc))?;
        }
        Ok(Chart {
            alloc,
            text: String::new(alloc),
            rows: Vec::new(alloc),
            turns,
            told: vec![in alloc; 0; usize::from(members)]?,
            quiet: 0,
            turn: 0,
            whole,
            last: None,
            width: width_for(members),
        })
    }

    /// What is drawn and not yet taken.
    pub fn text(&self) -> &str {
        self.text.as_str()
    }

    /// Takes note that what is drawn has been taken.
    pub fn clear(&mut self) {
        self.text.clear();
    }

    /// An age opens.
    ///
    /// # Errors
    ///
    /// Want of memory alone.
    pub fn open(&mut self, age: u16, entries: usize) -> Result<(), AllocError> {
        self.turn = 0;
        self.told.fill(entries.saturating_add(1));
        writeln!(self.text, "age {age} start {entries}")?;
        self.text.push_str("turn")?;
        push_heads(&mut self.text, self.width, &mut self.turns)?;
        self.text.push_str("\n")
    }

    /// A member, which has not ended, is about to do its next deed.
    ///
    /// # Errors
    ///
    /// Want of memory alone.
    pub fn see(&mut self, member: &Member) -> Result<(), AllocError>
        requires going { member.now.replica.end ≡ None }
        requires form { IsRunningMember member.now }
    {
        let me = member.me();
        match self.last {
            Some(other) if self.whole && other != me => self.end_turn(other)?,
            _ => {}
        }
        self.last = Some(me);
        self.catch_up(me, member.history())?;
        match news_of(member) {
            Some(news) => self.note(me, news),
            None => Ok(()),
        }
    }

    /// All members have ended: those that aren't done tell what they waited for. There is none at the place of one
    /// that is absent.
    ///
    /// # Errors
    ///
    /// Want of memory alone.
    pub fn close(&mut self, members: &[Option<Member>]) -> Result<(), AllocError> {
        for row in self.rows.iter_mut() {
            row.waits = false;
        }
        self.draw_rows()?;
        let quiet = replace(&mut self.quiet, 0);
        if !self.whole {
            self.tell_quiet(quiet)?;
        }
        for place in members {
            if let Some(member) = place {
                push_waits(&mut self.text, member, members)?;
            }
        }
        Ok(())
    }

    /// Tells of the entries of a member's history that came by its last deed, as it ended a view or took a letter.
    fn catch_up(&mut self, me: u8, history: &[Entry]) -> Result<(), AllocError> {
        let Some(told) = self.told.get_mut(usize::from(me)) else {
            return Ok(());
        };
        let new = &history[(*told).min(history.len())..];
        *told = history.len();
        for row in self.rows.iter_mut() {
            if row.me == me && row.waits {
                row.waits = false;
                push_rest(&mut row.words, row.by_letter, new)?;
                return self.draw_rows();
            }
        }
        match self.turns.get_mut(usize::from(me)) {
            Some(turn) => turn.note_rest(new),
            None => Ok(()),
        }
    }

    /// Takes note of news of a member. A turn ends as the next one begins, or as the member ends.
    fn note(&mut self, me: u8, news: News<'_>) -> Result<(), AllocError> {
        let members = self.turns.len();
        match news {
            News::Turn(_) => self.end_turn(me)?,
            News::Delivery { .. } => self.count_delivery(me),
            _ => {}
        }
        if let Some(turn) = self.turns.get_mut(usize::from(me)) {
            turn.note(members, news)?;
        }
        match news {
            News::End(_) => self.end_turn(me),
            _ => Ok(()),
        }
    }

    /// A delivery of a member is told as news.
    fn count_delivery(&mut self, me: u8) {
        if let Some(told) = self.told.get_mut(usize::from(me)) {
            *told = (*told).saturating_add(1);
        }
    }

    /// Makes a row of the turn that a member is in, where it has news.
    fn end_turn(&mut self, me: u8) -> Result<(), AllocError> {
        let Some(turn) = self.turns.get_mut(usize::from(me)) else {
            return Ok(());
        };
        let number = turn.number();
        if turn.is_quiet() {
            turn.begin(0);
            self.quiet = self.quiet.saturating_add(u64::from(number > 0));
            return Ok(());
        }
        let mut words = String::new(self.alloc);
        turn.push_to(&mut words)?;
        let waits = turn.waits();
        let by_letter = turn.by_letter();
        turn.begin(0);
        self.rows.push(Row {
            me,
            turn: number,
            words,
            waits,
            by_letter,
            quiet: replace(&mut self.quiet, 0),
        })?;
        self.draw_rows()
    }

    /// Whether there may be more to tell of some row.
    fn is_waiting(&self) -> bool {
        for row in self.rows.iter() {
            if row.waits {
                return true;
            }
        }
        false
    }

    /// Draws the rows that are yet to be drawn, once there is no more to tell of any of them.
    fn draw_rows(&mut self) -> Result<(), AllocError> {
        if self.is_waiting() {
            return Ok(());
        }
        let rows = replace(&mut self.rows, Vec::new(self.alloc));
        // There is nothing to tell of a turn that only waited.
        let mut quiet = 0u64;
        for row in rows.iter() {
            quiet = quiet.saturating_add(row.quiet);
            if row.words.as_str().is_empty() {
                quiet = quiet.saturating_add(1);
            } else {
                self.draw_row(row, replace(&mut quiet, 0))?;
            }
        }
        self.quiet = self.quiet.saturating_add(quiet);
        Ok(())
    }

    /// Draws a row behind so many turns without news.
    fn draw_row(&mut self, row: &Row, quiet: u64) -> Result<(), AllocError> {
        self.tell_gap(row.turn, quiet)?;
        self.turn = row.turn;
        push_row(&mut self.text, self.width, row)
    }

    /// Tells of the turns without news before a row.
    fn tell_gap(&mut self, turn: u32, quiet: u64) -> Result<(), AllocError> {
        if !self.whole {
            self.tell_quiet(quiet)
        } else if turn > self.turn.saturating_add(1) {
            writeln!(self.text, "      (nothing new until turn {turn})")
        } else {
            Ok(())
        }
    }

    /// Tells how many turns without news have ended.
    fn tell_quiet(&mut self, quiet: u64) -> Result<(), AllocError> {
        match quiet {
            0 => Ok(()),
            1 => self.text.push_str("      (1 turn without news)\n"),
            _ => writeln!(self.text, "      ({quiet} turns without news)"),
        }
    }
}

/// The width of a column, where there are so many.
fn width_for(members: u8) -> u8 {
    match members {
        0..=3 => 34,
        4..=5 => 26,
        _ => 22,
    }
}

/// Appends the heads of the columns. The turn of each member begins.
fn push_heads(out: &mut String, width: u8, turns: &mut Vec<Turn>) -> Result<(), AllocError> {
    let mut pad = MARGIN - 4;
    for (number, turn) in turns.iter_mut().enumerate() {
        turn.begin(0);
        push_blanks(out, pad)?;
        write!(out, "member {number}")?;
        pad = usize::from(width).saturating_sub(if number < 10 { 8 } else { 9 });
    }
    Ok(())
}

/// Appends a row, with its words broken to the width of a column.
fn push_row(out: &mut String, width: u8, row: &Row) -> Result<(), AllocError> {
    let indent = usize::from(width) * usize::from(row.me);
    let turn = row.turn;
    write!(out, "{turn:>4}  ")?;
    push_blanks(out, indent)?;
    let words = row.words.as_str();
    push_words(
        out,
        width,
        indent,
        words.strip_prefix(";\n").unwrap_or(words),
    )?;
    out.push_str("\n")
}

/// Appends words, each behind a line feed, in a column of this width.
fn push_words(out: &mut String, width: u8, indent: usize, words: &str) -> Result<(), AllocError> {
    let mut at = 0usize;
    for word in words.split('\n') {
        let wide = word.chars().count();
        let end = at.saturating_add(wide);
        let fits = end.saturating_add(3) <= usize::from(width);
        push_gap(out, indent, at > 0, fits)?;
        at = if at > 0 && fits {
            end.saturating_add(1)
        } else {
            wide
        };
        out.push_str(word)?;
    }
    Ok(())
}

/// Appends what stands before a word: nothing where it is the first, and a new line where it doesn't fit.
fn push_gap(out: &mut String, indent: usize, behind: bool, fits: bool) -> Result<(), AllocError> {
    if !behind {
        Ok(())
    } else if fits {
        out.push_str(" ")
    } else {
        out.push_str("\n")?;
        push_blanks(out, MARGIN.saturating_add(indent))
    }
}

fn push_blanks(out: &mut String, count: usize) -> Result<(), AllocError> {
    for _ in 0..count {
        out.push_str(" ")?;
    }
    Ok(())
}
