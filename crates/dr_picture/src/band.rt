//! A band of a picture: what the members do in a turn of each, until one of them begins its next one.
use crate::shapes::member_colour;
use crate::strip::Strip;
use std::alloc::{AllocError, Global};

/// So many members have arrows between their lanes at most: more of them would hide what stands there.
pub(crate) const MOST_WITH_ARROWS: usize = 6;

/// How far the strip of a member begins below that of the one before it, where there are arrows.
const STEP: u32 = 6;

/// The height of a row.
pub(crate) const ROW: u32 = 13;

/// A band: a strip for each member, and the arrows that end in it.
#[derive(Drop)]
pub(crate) struct Band {
    pub number: u32,
    pub strips: Vec<Strip>,
    pub arrows: Vec<Arrow>,
}

/// What one member has put or given, in the band of this number, and another one takes.
#[derive(Clone, Copy)]
pub(crate) struct Arrow {
    pub from: u8,
    pub from_band: u32,
    pub to: u8,
    pub colour: &'static str,
}

impl Band {
    /// The first band of so many members.
    pub(crate) fn first(alloc: Global, members: u8) -> Result<Band, AllocError> {
        let mut strips = Vec::new(alloc);
        for _ in 0..members {
            strips.push(Strip::new(alloc))?;
        }
        Ok(Band {
            number: 0,
            strips,
            arrows: Vec::new(alloc),
        })
    }

    /// The band behind it.
    pub(crate) fn next(&self, alloc: Global) -> Result<Band, AllocError> {
        let mut strips = Vec::new(alloc);
        for strip in self.strips.iter() {
            strips.push(strip.next())?;
        }
        Ok(Band {
            number: self.number.saturating_add(1),
            strips,
            arrows: Vec::new(alloc),
        })
    }

    /// How far the strip of a member begins below the band.
    pub(crate) fn step_of(&self, member: u8) -> u32 {
        if self.strips.len() > MOST_WITH_ARROWS {
            0
        } else {
            STEP.saturating_mul(u32::from(member))
        }
    }

    /// How high it is: nothing, where nothing is told.
    pub(crate) fn height(&self) -> u32 {
        let mut height = 0;
        let mut last = 0;
        for (member, strip) in self.strips.iter().enumerate() {
            let rows = strip.rows_wanted().min(1000) as u32;
            if rows > 0 {
                height = height.max(rows * ROW);
                last = self.step_of(member.min(16) as u8);
            }
        }
        if height == 0 {
            0
        } else {
            height.saturating_add(last).saturating_add(6)
        }
    }

    /// The turn of those that have begun one in it.
    pub(crate) fn turn(&self) -> u32 {
        let mut most = 0;
        for strip in self.strips.iter() {
            if strip.has_begun {
                most = strip.turn.max(most);
            }
        }
        most
    }

    /// Whether a member has begun a turn in it.
    pub(crate) fn has_begun(&self, me: u8) -> bool {
        match self.strips.get(usize::from(me)) {
            Some(strip) => strip.has_begun,
            None => false,
        }
    }

    /// Whether a member ends a view in it, of which there is more to tell.
    pub(crate) fn waits_for(&self, me: u8) -> bool {
        match self.strips.get(usize::from(me)) {
            Some(strip) => strip.waits,
            None => false,
        }
    }

    /// A member takes an item, which the sender has put in a band of this number, if that is known.
    pub(crate) fn take(
        &mut self,
        me: u8,
        sender: u8,
        from_band: Option<u32>,
    ) -> Result<(), AllocError> {
        if let Some(strip) = self.strips.get_mut(usize::from(me)) {
            strip.has_taken = true;
        }
        let Some(from_band) = from_band else {
            return Ok(());
        };
        if self.has_arrow(sender, from_band, me) {
            return Ok(());
        }
        let arrow = Arrow {
            from: sender,
            from_band,
            to: me,
            colour: member_colour(sender),
        };
        Ok(self.arrows.push(arrow)?)
    }

    fn has_arrow(&self, from: u8, from_band: u32, to: u8) -> bool {
        for arrow in self.arrows.iter() {
            if arrow.from == from && arrow.from_band == from_band && arrow.to == to {
                return true;
            }
        }
        false
    }

    /// Whether there is more to tell of it.
    pub(crate) fn waits(&self) -> bool {
        for strip in self.strips.iter() {
            if strip.waits {
                return true;
            }
        }
        false
    }

    /// There is no more to tell of a view that a member ends.
    pub(crate) fn settle(&mut self, me: u8) {
        if let Some(strip) = self.strips.get_mut(usize::from(me)) {
            strip.waits = false;
        }
    }

    /// A member is in a view as the band ends, if it is in one, and where `all` holds already as it begins.
    pub(crate) fn enter(&mut self, me: u8, view: Option<u8>, all: bool) {
        if let Some(strip) = self.strips.get_mut(usize::from(me)) {
            strip.view = view;
            if all {
                strip.ground = view;
            }
        }
    }
}
