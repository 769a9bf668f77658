//! The bands of an age that are yet to be drawn, and what is told of its members.
use crate::band::{Arrow, Band, MOST_WITH_ARROWS};
use crate::labels::{label_of, push_ranges, shown_in};
use crate::lane::Lane;
use crate::picture::Window;
use crate::shapes::{INK, RED, Shape, VIOLET, member_colour};
use crate::strip::{Cell, Kind};
use dr_entry::{End, Entry, Message};
use dr_seeing::{Change, News};
use dr_text::push_end;
use std::alloc::{AllocError, Global};
use std::fmt::Write;
use std::mem::replace;

/// Bands that are told as a run goes on.
#[derive(Drop)]
pub(crate) struct Bands {
    alloc: Global,
    /// Those that are yet to be drawn: the last one goes on.
    bands: Vec<Band>,
    /// Which turns are told.
    window: Window,
    /// The width that a lane has for its cells.
    width: u32,
}

impl Bands {
    /// No band, of an age that is yet to open.
    pub(crate) fn new(alloc: Global, window: Window, width: u32) -> Bands {
        Bands {
            alloc,
            bands: Vec::new(alloc),
            window,
            width,
        }
    }

    /// An age of so many members opens.
    pub(crate) fn open(&mut self, members: u8) -> Result<(), AllocError> {
        self.bands.clear();
        Ok(self.bands.push(Band::first(self.alloc, members)?)?)
    }

    /// A member does a deed with this news, and these entries have come to its history since its last one. Answers
    /// the bands that have ended by that, and of which there is no more to tell.
    pub(crate) fn see(
        &mut self,
        lanes: &mut [Lane],
        me: u8,
        new: &[Entry],
        news: Option<News<'_>>,
    ) -> Result<Vec<Band>, AllocError> {
        self.note_entries(lanes, me, new)?;
        match news {
            Some(News::Turn(turn)) => {
                self.begin(me, turn)?;
                self.take_ended()
            }
            Some(news) => {
                self.note(lanes, me, news)?;
                Ok(Vec::new(self.alloc))
            }
            None => Ok(Vec::new(self.alloc)),
        }
    }

    /// A member begins a turn. Where it has begun one in the last band, that ends.
    fn begin(&mut self, me: u8, turn: u32) -> Result<(), AllocError> {
        let Some(last) = self.bands.last() else {
            return Ok(());
        };
        if last.has_begun(me) {
            let next = last.next(self.alloc)?;
            self.bands.push(next)?;
        }
        if let Some(band) = self.bands.last_mut() {
            if let Some(strip) = band.strips.get_mut(usize::from(me)) {
                strip.begin(turn);
            }
        }
        Ok(())
    }

    /// The bands that have ended, if there is no more to tell of any of them. They are taken.
    fn take_ended(&mut self) -> Result<Vec<Band>, AllocError> {
        let none = Vec::new(self.alloc);
        if self.bands.len() < 2 || self.waits() {
            return Ok(none);
        }
        let mut rest = Vec::new(self.alloc);
        if let Some(last) = self.bands.pop() {
            rest.push(last)?;
        }
        Ok(replace(&mut self.bands, rest))
    }

    /// Whether there is more to tell of some band.
    fn waits(&self) -> bool {
        for band in self.bands.iter() {
            if band.waits() {
                return true;
            }
        }
        false
    }

    /// All bands. They are taken.
    pub(crate) fn take_all(&mut self) -> Vec<Band> {
        replace(&mut self.bands, Vec::new(self.alloc))
    }

    /// Which band tells of a member: the one in which it ends a view, or the last one.
    fn told_in(&self, me: u8) -> usize {
        for (number, band) in self.bands.iter().enumerate() {
            if band.waits_for(me) {
                return number;
            }
        }
        self.bands.len().saturating_sub(1)
    }

    /// The turn that a member is in where it is told of.
    fn turn_of(&self, me: u8) -> u32 {
        match self.bands.get(self.told_in(me)) {
            Some(band) => match band.strips.get(usize::from(me)) {
                Some(strip) => strip.turn,
                None => 0,
            },
            None => 0,
        }
    }

    /// Tells of entries that have come to the history of a member, which may have ended a view or taken a letter.
    fn note_entries(
        &mut self,
        lanes: &mut [Lane],
        me: u8,
        entries: &[Entry],
    ) -> Result<(), AllocError> {
        if !entries.is_empty() {
            self.note_join(lanes, me)?;
        }
        for entry in entries {
            match entry {
                Entry::View {
                    number,
                    members,
                    ..
                } => self.note_view(lanes, me, *number, *members)?,
                Entry::Msg { sender, bytes, .. } => self.note_delivery(lanes, me, *sender, bytes)?,
            }
        }
        for band in self.bands.iter_mut() {
            band.settle(me);
        }
        Ok(())
    }

    /// Tells that a member joins by its letter, where these entries are those of one: it has looked for one, and
    /// it was given one.
    fn note_join(&mut self, lanes: &mut [Lane], me: u8) -> Result<(), AllocError> {
        if !self.has_looked(me) {
            return Ok(());
        }
        let Some(letter) = letter_arrow(lanes, me) else {
            return Ok(());
        };
        self.say_of(lanes, me, "joins by the letter of", "joins by", letter.from)?;
        self.point_letter(lanes.len(), letter)
    }

    /// Whether a member looks for a letter, or ends a view, in the band that tells of it.
    fn has_looked(&self, me: u8) -> bool {
        match self.bands.get(self.told_in(me)) {
            Some(band) => band.waits_for(me),
            None => false,
        }
    }

    /// Draws a letter as an arrow of a band, where so many members have arrows and the turn is told.
    fn point_letter(&mut self, members: usize, arrow: Arrow) -> Result<(), AllocError> {
        if members > MOST_WITH_ARROWS || !self.window.has(self.turn_of(arrow.to)) {
            return Ok(());
        }
        let here = self.told_in(arrow.to);
        match self.bands.get_mut(here) {
            Some(band) => Ok(band.arrows.push(arrow)?),
            None => Ok(()),
        }
    }

    fn note_view(
        &mut self,
        lanes: &mut [Lane],
        me: u8,
        number: u8,
        members: u16,
    ) -> Result<(), AllocError> {
        let is_in = members >> (me % 16) & 1 == 1;
        let heading = heading_of(self.alloc, lanes.len(), is_in, number, members)?;
        if let Some(lane) = lanes.get_mut(usize::from(me)) {
            lane.enter(me, number, is_in, heading);
        }
        self.ground(me, is_in.then_some(number));
        self.head(lanes, me)
    }

    /// A member is in a view from here on, or in none.
    fn ground(&mut self, me: u8, view: Option<u8>) {
        let here = self.told_in(me);
        for (number, band) in self.bands.iter_mut().enumerate() {
            if number >= here {
                band.enter(me, view, number > here);
            }
        }
    }

    /// Tells the heading of the view that a member is in, where that isn't done.
    fn head(&mut self, lanes: &mut [Lane], me: u8) -> Result<(), AllocError> {
        let is_told = self.window.has(self.turn_of(me));
        let Some(lane) = lanes.get_mut(usize::from(me)) else {
            return Ok(());
        };
        if lane.is_headed || !is_told {
            return Ok(());
        }
        lane.is_headed = true;
        let cell = Cell {
            colour: INK,
            label: lane.heading.clone()?,
        };
        let view = lane.view_inside();
        self.write(me, Kind::View(view), cell)
    }

    fn note_delivery(
        &mut self,
        lanes: &mut [Lane],
        me: u8,
        sender: u8,
        message: &Message,
    ) -> Result<(), AllocError> {
        if let Some(lane) = lanes.get_mut(usize::from(me)) {
            lane.count_delivery(sender);
        }
        let cell = Cell {
            colour: member_colour(sender),
            label: self.label_of(message)?,
        };
        self.tell(lanes, me, Kind::Marks(Shape::Dot), cell)
    }

    fn label_of(&self, message: &Message) -> Result<String, AllocError> {
        label_of(self.alloc, message, shown_in(self.width.saturating_sub(14)))
    }

    /// Tells news of a member. Entries are told by themselves.
    fn note(&mut self, lanes: &mut [Lane], me: u8, news: News<'_>) -> Result<(), AllocError> {
        match news {
            News::Put(message) => self.note_message(lanes, me, message),
            News::Filler => self.note_filler(lanes, me),
            News::Taking { sender, count } => self.note_taking(lanes, me, sender, count),
            News::Durable(count) => self.note_durable(lanes, me, count),
            News::NextView { .. } | News::Letterbox => {
                self.wait_for(me);
                Ok(())
            }
            News::End(end) => self.note_end(lanes, me, end),
            News::Turn(_) | News::Delivery { .. } | News::Logged(_) => Ok(()),
            News::Suspicion(_)
            | News::Wish(_)
            | News::Letter(_)
            | News::Vote
            | News::Proposal(_)
            | News::Acceptance
            | News::Commitment(_) => self.note_step(lanes, me, news),
        }
    }

    /// Tells what a member does to change its view, or to take another one into it.
    fn note_step(&mut self, lanes: &mut [Lane], me: u8, news: News<'_>) -> Result<(), AllocError> {
        match news {
            News::Suspicion(other) => self.note_suspicion(lanes, me, other),
            News::Wish(other) => self.say_of(lanes, me, "wishes for", "wish", other),
            News::Letter(other) => self.note_letter(lanes, me, other),
            News::Vote => self.say(lanes, me, Shape::HollowDiamond, "votes"),
            News::Proposal(change) => self.say_change(lanes, me, "proposes", &change),
            News::Commitment(change) => self.say_change(lanes, me, "commits", &change),
            News::Acceptance => self.say(lanes, me, Shape::HollowDiamond, "accepts"),
            _ => Ok(()),
        }
    }

    /// So many entries of a member are durable.
    fn note_durable(&mut self, lanes: &mut [Lane], me: u8, count: u64) -> Result<(), AllocError> {
        let cell = Cell::of_number(self.alloc, INK, "durable", count)?;
        self.tell(lanes, me, Kind::Deed(Shape::Bar), cell)
    }

    /// A member suspects another one.
    fn note_suspicion(&mut self, lanes: &mut [Lane], me: u8, other: u8) -> Result<(), AllocError> {
        let cell = Cell::of_number(self.alloc, RED, "suspects", u64::from(other))?;
        self.tell(lanes, me, Kind::Deed(Shape::Cross), cell)
    }

    /// A member gives another one a letter.
    fn note_letter(&mut self, lanes: &mut [Lane], me: u8, other: u8) -> Result<(), AllocError> {
        let number = self.last_number();
        if let Some(lane) = lanes.get_mut(usize::from(other)) {
            lane.letter = Some((me, number));
        }
        self.say_of(lanes, me, "welcomes", "letter", other)
    }

    /// A member ends a view or looks for a letter: what comes to its history by that is still to be told.
    fn wait_for(&mut self, me: u8) {
        if let Some(band) = self.bands.last_mut() {
            if let Some(strip) = band.strips.get_mut(usize::from(me)) {
                strip.waits = true;
            }
        }
    }

    /// The number of the last band.
    fn last_number(&self) -> u32 {
        match self.bands.last() {
            Some(band) => band.number,
            None => 0,
        }
    }

    fn note_message(
        &mut self,
        lanes: &mut [Lane],
        me: u8,
        message: &Message,
    ) -> Result<(), AllocError> {
        let label = self.label_of(message)?;
        if let Some(lane) = lanes.get_mut(usize::from(me)) {
            lane.count_message(&label)?;
            lane.count_item(self.last_number())?;
        }
        let cell = Cell {
            colour: member_colour(me),
            label,
        };
        self.tell(lanes, me, Kind::Marks(Shape::Square), cell)
    }

    fn note_filler(&mut self, lanes: &mut [Lane], me: u8) -> Result<(), AllocError> {
        if let Some(lane) = lanes.get_mut(usize::from(me)) {
            lane.count_item(self.last_number())?;
        }
        let cell = Cell {
            colour: member_colour(me),
            label: String::new(self.alloc),
        };
        self.tell(lanes, me, Kind::Marks(Shape::HollowSquare), cell)
    }

    /// A member takes an item of another one, behind so many of this view.
    fn note_taking(
        &mut self,
        lanes: &[Lane],
        me: u8,
        sender: u8,
        count: u32,
    ) -> Result<(), AllocError> {
        if lanes.len() > MOST_WITH_ARROWS || !self.window.has(self.turn_of(me)) {
            return Ok(());
        }
        match self.bands.last_mut() {
            Some(band) => band.take(me, sender, band_of_item(lanes, me, sender, count)),
            None => Ok(()),
        }
    }

    fn note_end(&mut self, lanes: &mut [Lane], me: u8, end: End) -> Result<(), AllocError> {
        let colour = if end == End::Done { INK } else { RED };
        let mut label = String::new(self.alloc);
        push_end(&mut label, end)?;
        self.ground(me, None);
        self.tell(lanes, me, Kind::End, Cell { colour, label })
    }

    /// Tells that a member does something with a value: who leaves and who joins, and how many items of each member
    /// count.
    fn say_change(
        &mut self,
        lanes: &mut [Lane],
        me: u8,
        does: &str,
        change: &Change,
    ) -> Result<(), AllocError> {
        self.say(lanes, me, Shape::Diamond, does)?;
        let names = Cell::of_names(self.alloc, change)?;
        self.tell(lanes, me, Kind::Words, names)?;
        if lanes.len() > MOST_WITH_ARROWS {
            return Ok(());
        }
        let trim = Cell::of_trim(self.alloc, change, lanes.len())?;
        self.tell(lanes, me, Kind::Words, trim)
    }

    /// Tells of a step of a join, with another member behind these words, or behind short ones where lanes are narrow.
    fn say_of(
        &mut self,
        lanes: &mut [Lane],
        me: u8,
        words: &str,
        short: &str,
        other: u8,
    ) -> Result<(), AllocError> {
        let said = if lanes.len() > MOST_WITH_ARROWS {
            short
        } else {
            words
        };
        let cell = Cell::of_number(self.alloc, VIOLET, said, u64::from(other))?;
        self.tell(lanes, me, Kind::Deed(Shape::HollowDiamond), cell)
    }

    /// Tells of a step of a change of the view.
    fn say(
        &mut self,
        lanes: &mut [Lane],
        me: u8,
        shape: Shape,
        words: &str,
    ) -> Result<(), AllocError> {
        let cell = Cell {
            colour: VIOLET,
            label: String::from_str(self.alloc, words)?,
        };
        self.tell(lanes, me, Kind::Deed(shape), cell)
    }

    /// Tells something of a member, where its turn is one that is told.
    fn tell(
        &mut self,
        lanes: &mut [Lane],
        me: u8,
        kind: Kind,
        cell: Cell,
    ) -> Result<(), AllocError> {
        self.head(lanes, me)?;
        if self.window.has(self.turn_of(me)) {
            self.write(me, kind, cell)
        } else {
            Ok(())
        }
    }

    /// Writes something of a member into the band that tells of it.
    fn write(&mut self, me: u8, kind: Kind, cell: Cell) -> Result<(), AllocError> {
        let number = self.told_in(me);
        let Some(band) = self.bands.get_mut(number) else {
            return Ok(());
        };
        match band.strips.get_mut(usize::from(me)) {
            Some(strip) => strip.tell(kind, cell, self.width),
            None => Ok(()),
        }
    }
}

/// The heading of a view, over one of so many lanes, whose member is in it or not.
fn heading_of(
    alloc: Global,
    lanes: usize,
    is_in: bool,
    number: u8,
    members: u16,
) -> Result<String, AllocError> {
    let mut heading = String::new(alloc);
    if !is_in {
        heading.push_str("not in ")?;
    }
    // A narrow lane has no room for the word.
    if lanes <= MOST_WITH_ARROWS {
        heading.push_str("view ")?;
    }
    write!(heading, "{number}: ")?;
    push_ranges(&mut heading, members)?;
    Ok(heading)
}

/// The arrow of the letter that a member was given, if it has one. It is taken.
fn letter_arrow(lanes: &mut [Lane], me: u8) -> Option<Arrow> {
    let lane = lanes.get_mut(usize::from(me))?;
    let (from, from_band) = replace(&mut lane.letter, None)?;
    Some(Arrow {
        from,
        from_band,
        to: me,
        colour: VIOLET,
    })
}

/// In which band a sender has put an item of the view that a member is in.
fn band_of_item(lanes: &[Lane], me: u8, sender: u8, count: u32) -> Option<u32> {
    let view = lanes.get(usize::from(me))?.view;
    lanes.get(usize::from(sender))?.band_of(view, count)
}
