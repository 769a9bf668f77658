//! The lane of a member: what is kept of it through an age.
ghost use Rattle.std.specs.Prelude.{◌≡◌, IfOk, vec_len};

use dr_entry::MAX_MEMBERS;
use std::alloc::{AllocError, Global};

/// What is kept of a member.
#[derive(Drop)]
pub(crate) struct Lane {
    alloc: Global,
    /// The view that it is in, and its heading, which may be yet to be told.
    pub view: u8,
    pub heading: String,
    pub is_headed: bool,
    /// Whether the member is in that view.
    pub is_in: bool,
    /// Who has given it a letter that it hasn't taken yet, and in the band of which number.
    pub letter: Option<(u8, u32)>,
    /// For each view, the number of the band of each item that it has put.
    pub items: Vec<Vec<u32>>,
    /// How many messages of each member it has delivered in this age.
    pub delivered: [u32; MAX_MEMBERS],
    /// How many messages it has put in this age, without those that it put once more, and the labels of all.
    pub put: usize,
    pub labels: Vec<String>,
}

/// The lanes of so many members before they do anything.
pub(crate) fn lanes_of(alloc: Global, members: u8) -> Result<Vec<Lane>, AllocError>
    ensures { IfOk result (λ lanes. vec_len lanes ≡ members) }
{
    let mut lanes = Vec::new(alloc);
    for _ in 0..members {
        lanes.push(Lane::new(alloc))?;
    }
    Ok(lanes)
}

/// An age opens: nobody has done anything in it.
pub(crate) fn reset(alloc: Global, lanes: &mut [Lane]) {
    for lane in lanes {
        *lane = Lane::new(alloc);
    }
}

/// How many messages of a member somebody has delivered in this age.
pub(crate) fn delivered_of(lanes: &[Lane], sender: u8) -> usize {
    let mut most = 0;
    for lane in lanes {
        most = lane.delivered_of(sender).max(most);
    }
    most
}

impl Lane {
    /// The lane of a member before it does anything.
    pub(crate) fn new(alloc: Global) -> Lane {
        Lane {
            alloc,
            view: 0,
            heading: String::new(alloc),
            is_headed: true,
            is_in: true,
            letter: None,
            items: Vec::new(alloc),
            delivered: [0; MAX_MEMBERS],
            put: 0,
            labels: Vec::new(alloc),
        }
    }

    /// It puts an item in the band of this number.
    pub(crate) fn count_item(&mut self, band: u32) -> Result<(), AllocError> {
        let view = usize::from(self.view);
        for _ in self.items.len()..=view {
            self.items.push(Vec::new(self.alloc))?;
        }
        match self.items.get_mut(view) {
            Some(items) => Ok(items.push(band)?),
            None => Ok(()),
        }
    }

    /// In which band it has put the item of this number in a view.
    pub(crate) fn band_of(&self, view: u8, number: u32) -> Option<u32> {
        let items = self.items.get(usize::from(view))?;
        items.get(number as usize).copied()
    }

    /// It puts a message with this label.
    pub(crate) fn count_message(&mut self, label: &String) -> Result<(), AllocError> {
        if self.put >= self.labels.len() {
            self.labels.push(label.clone()?)?;
        }
        self.put = self.put.saturating_add(1);
        Ok(())
    }

    /// The labels of what it has put but for so many at their front.
    pub(crate) fn lost(&self, delivered: usize) -> &[String] {
        &self.labels[delivered.min(self.labels.len())..]
    }

    /// How many messages of a member it has delivered.
    fn delivered_of(&self, sender: u8) -> usize {
        self.delivered[usize::from(sender % 16)] as usize
    }

    /// It delivers a message of a member.
    pub(crate) fn count_delivery(&mut self, sender: u8) {
        let count = &mut self.delivered[usize::from(sender % 16)];
        *count = count.saturating_add(1);
    }

    /// Which view it is in, if it is in one.
    pub(crate) fn view_inside(&self) -> Option<u8> {
        self.is_in.then_some(self.view)
    }

    /// Its history comes to a view, with this heading, and it is in that or not: the messages that it puts there are
    /// those that are not delivered.
    pub(crate) fn enter(&mut self, me: u8, view: u8, is_in: bool, heading: String) {
        self.view = view;
        self.is_in = is_in;
        self.put = self.delivered_of(me);
        self.heading = heading;
        self.is_headed = false;
    }
}
