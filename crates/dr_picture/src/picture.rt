//! What is drawn of a run.
ghost use Rattle.std.specs.Prelude.{◌≡◌, ◌<◌, ◌++◌, IfOk, None, OnOk, length, string_bytes, vec_len};
ghost use Rattle.dr_program.specs.{Form.IsRunningMember, Replica.me};
ghost use Rattle.dr_picture.specs.{Marks.heading_text, Sheet.{HasDrawn, IsBlank, IsDrawnIn, Keeps, headed}};
ghost use Rattle.dr_history.specs.History.{IsPrefixOf};

use crate::bands::Bands;
use crate::drawing::{draw_bands, ending, lay, titles};
use crate::lane::{Lane, lanes_of, reset};
use crate::shapes::{INK, Point};
use crate::sheet::{GUTTER, Sheet};
use dr_entry::Entry;
use dr_member::Member;
use dr_seeing::{news_of, push_waits};
use std::alloc::{AllocError, Global};
use std::fmt::Write;
use std::mem::replace;

/// Which turns of each member are drawn.
#[derive(Clone, Copy, Debug)]
pub struct Window {
    pub from: u64,
    pub to: u64,
}

impl Window {
    /// Whether a turn is one of them.
    pub(crate) fn has(self, turn: u32) -> bool {
        self.from <= u64::from(turn) && u64::from(turn) <= self.to
    }
}

/// A picture that is drawn as a run goes on. A band of it has a turn of each member at most. It gets about 24,000
/// points high at most: the rest of a longer run is left out.
#[derive(Drop)]
pub struct Picture {
    alloc: Global,
    sheet: Sheet,
    lanes: Vec<Lane>,
    bands: Bands,
    /// The rows in which the bands of the age begin that are drawn.
    tops: Vec<u32>,
    /// How many entries of the history of each member are drawn.
    drawn: Vec<usize>,
    members: u8,
    /// Whether each member takes whole turns, so that a band has one number.
    whole: bool,
}

impl Picture {
    /// An empty picture of so many members, which take whole turns or not, and of these turns.
    ///
    /// # Errors
    ///
    /// Want of memory alone.
    pub fn new(
        alloc: Global,
        members: u8,
        whole: bool,
        window: Window,
    ) -> Result<Picture, AllocError>
        ensures lanes { IfOk result (λ picture. vec_len picture.lanes ≡ members) }
        ensures counts { IfOk result (λ picture. vec_len picture.drawn ≡ members) }
        ensures blank { IfOk result (λ picture. IsBlank picture.sheet) }
    {
        let sheet = Sheet::new(alloc, members);
        let room = sheet.lane().saturating_sub(if whole { 12 } else { 30 });
        Ok(Picture {
            alloc,
            sheet,
            lanes: lanes_of(alloc, members)?,
            bands: Bands::new(alloc, window, room),
            tops: Vec::new(alloc),
            drawn: vec![in alloc; 0; usize::from(members)]?,
            members,
            whole,
        })
    }

    /// An age opens, with so many entries.
    ///
    /// # Errors
    ///
    /// Want of memory alone.
    pub fn open(&mut self, age: u16, entries: usize) -> Result<(), AllocError>
        ensures keeps { OnOk result (Keeps self.old.sheet self.new.sheet) }
        ensures lanes { vec_len self.new.lanes ≡ vec_len self.old.lanes }
        ensures counts { vec_len self.new.drawn ≡ vec_len self.old.drawn }
        ensures heading { OnOk result (0 < self.old.sheet.left
            → IsPrefixOf (headed age entries self.old.sheet) self.new.sheet.words) }
        ensures full { self.old.sheet.left ≡ 0 → self.new ≡ self.old }
    {
        if self.sheet.is_full() {
            return Ok(());
        }
        self.bands.open(self.members)?;
        reset(self.alloc, self.lanes.as_mut_slice());
        self.tops.clear();
        self.drawn.fill(entries);
        head_age(self.alloc, &mut self.sheet, age, entries)?;
        let marks = titles(self.alloc, &self.sheet, self.members)?;
        lay(&mut self.sheet, marks.as_slice(), 16)
    }

    /// A member, which has not ended, is about to do its next deed.
    ///
    /// # Errors
    ///
    /// Want of memory alone.
    pub fn see(&mut self, member: &Member) -> Result<(), AllocError>
        requires going { member.now.replica.end ≡ None }
        requires form { IsRunningMember member.now }
        ensures keeps { OnOk result (Keeps self.old.sheet self.new.sheet) }
        ensures lanes { vec_len self.new.lanes ≡ vec_len self.old.lanes }
        ensures counts { vec_len self.new.drawn ≡ vec_len self.old.drawn }
        ensures drawn { OnOk result (0 < self.old.sheet.left
            → HasDrawn (me member.now.replica) (length member.now.replica.history) self.new.drawn.items) }
        ensures full { self.old.sheet.left ≡ 0 → self.new ≡ self.old }
    {
        if self.sheet.is_full() {
            return Ok(());
        }
        let me = member.me();
        let history = member.history();
        let first = count_drawn(&mut self.drawn, me, history);
        let new = &history[first.min(history.len())..];
        let lanes = self.lanes.as_mut_slice();
        let ended = self.bands.see(lanes, me, new, news_of(member))?;
        draw_bands(
            self.alloc,
            &mut self.sheet,
            &mut self.tops,
            ended.as_slice(),
            self.whole,
        )
    }

    /// All members have ended. There is none at the place of one that is absent.
    ///
    /// # Errors
    ///
    /// Want of memory alone.
    pub fn close(&mut self, members: &[Option<Member>]) -> Result<(), AllocError>
        ensures keeps { OnOk result (Keeps self.old.sheet self.new.sheet) }
        ensures lanes { vec_len self.new.lanes ≡ vec_len self.old.lanes }
        ensures counts { vec_len self.new.drawn ≡ vec_len self.old.drawn }
        ensures full { self.old.sheet.left ≡ 0 → self.new ≡ self.old }
    {
        if self.sheet.is_full() {
            return Ok(());
        }
        let bands = self.bands.take_all();
        draw_bands(
            self.alloc,
            &mut self.sheet,
            &mut self.tops,
            bands.as_slice(),
            self.whole,
        )?;
        let waits = waits_of(self.alloc, members)?;
        let row = self.sheet.row();
        let (marks, height) = ending(self.alloc, self.lanes.as_slice(), row, waits.as_str())?;
        lay(&mut self.sheet, marks.as_slice(), height)
    }

    /// Appends the picture, up to the words behind which the last line of the run is to stand. Behind that,
    /// `</text>` and `</svg>` close the picture.
    ///
    /// # Errors
    ///
    /// Want of memory alone.
    pub fn push_to(&self, out: &mut String) -> Result<(), AllocError>
        ensures { OnOk result (IsDrawnIn self.now.sheet (string_bytes out.old) (string_bytes out.new)) }
    {
        self.sheet.push_to(out)
    }
}

/// The history of a member counts as drawn. Answers how many entries of it were before.
fn count_drawn(drawn: &mut Vec<usize>, me: u8, history: &[Entry]) -> usize
    ensures counts { vec_len drawn.new ≡ vec_len drawn.old }
    ensures drawn { HasDrawn me (length history.now) drawn.new.items }
{
    match drawn.get_mut(usize::from(me)) {
        Some(drawn) => replace(drawn, history.len()),
        None => history.len(),
    }
}

/// The lines of what members wait for.
fn waits_of(alloc: Global, members: &[Option<Member>]) -> Result<String, AllocError> {
    let mut waits = String::new(alloc);
    for place in members {
        if let Some(member) = place {
            push_waits(&mut waits, member, members)?;
        }
    }
    Ok(waits)
}

/// Writes the heading of an age that starts with so many entries.
fn head_age(alloc: Global, sheet: &mut Sheet, age: u16, entries: usize) -> Result<(), AllocError>
    ensures keeps { OnOk result (Keeps sheet.old sheet.new) }
    ensures heading { OnOk result (sheet.new.words ≡ headed age entries sheet.old) }
{
    let mut heading = String::new(alloc);
    push_heading(&mut heading, age, entries)?;
    let at = Point {
        x: GUTTER,
        y: sheet.row().saturating_add(12),
    };
    sheet.write(at, " font-weight='bold'", INK, heading.as_str())?;
    sheet.advance(18);
    Ok(())
}

/// Appends the heading of an age that starts with so many entries.
fn push_heading(out: &mut String, age: u16, entries: usize) -> Result<(), AllocError>
    ensures { OnOk result (string_bytes out.new ≡ string_bytes out.old ++ heading_text age entries) }
{
    match entries {
        0 => write!(out, "age {age}"),
        1 => write!(out, "age {age}, on 1 entry"),
        _ => write!(out, "age {age}, on {entries} entries"),
    }
}
