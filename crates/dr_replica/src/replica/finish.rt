//! How a replica ends its view and goes on in the next one.
ghost use Rattle.std.specs.Prelude.{◌≡◌, ◌<◌, ◌≤◌, List, None, length, true};
ghost use Rattle.dr_entry.specs.declared.entry.Entry.{Entry};
ghost use Rattle.dr_history.specs.{Members.members_of, Order.messages_from, Places.is_held};
ghost use Rattle.dr_machine.specs.Effects.{entries_of};
ghost use Rattle.dr_program.specs.Replica.{finished, is_inside, may_end, may_finish};
ghost use Rattle.dr_replica.specs.Items.{counts_of, item_held_at, sender_held_at};
ghost use Rattle.dr_replica.specs.{Rests.{AreWithin, fits, has_taken, merged, merged_from}, Spots.IsSpot};
ghost use Rattle.dr_trim.specs.Trims.{trims_by_rank};

use super::Replica;
use super::opening::no_value;
use crate::history::History;
use crate::items::Items;
use crate::rest::Rest;
use crate::spot::Spot;
use dr_entry::{Item, MAX_MEMBERS, Value};
use dr_install::{first_unsent, next_view};
use dr_suspect::Suspects;
use dr_words::{LOGGED_COLUMN, Mask};

impl Replica {
    /// Whether it has committed a value by which it stays, and may end its view with it.
    pub fn may_finish(&self) -> bool
        ensures { result ≡ may_finish self.now self.now.committed }
    {
        match &self.committed {
            Some(value) => self.may_end(value),
            None => false,
        }
    }

    /// Whether it stays by a value, there is a bank for the next view, it has the items that the value
    /// takes, and there is room for the entries, which have no more of its messages than there are.
    fn may_end(&self, value: &Value) -> bool
        ensures { result ≡ may_end self.now value.now }
    {
        !Mask::of(value.leavers).has(self.rows.me())
            && self.next_view() < self.shape.banks
            && self.has_taken(&value.trim)
            && self.has_room_for(&value.trim)
    }

    /// Whether it has the items of its view that a trim takes.
    fn has_taken(&self, trim: &[u32; MAX_MEMBERS]) -> bool
        ensures { result ≡ has_taken self.now trim.now }
    {
        for member in self.items.members() {
            if trim[usize::from(*member)] > self.items.count(*member) {
                return false;
            }
        }
        true
    }

    /// Whether there is room for what a trim has left to be delivered and for a View, and those entries
    /// have no more of its messages than there are.
    fn has_room_for(&self, trim: &[u32; MAX_MEMBERS]) -> bool
        requires { has_taken self.now trim.now ≡ true }
        ensures { result ≡ fits self.now (merged self.now trim.now) }
    {
        let me = self.rows.me();
        let room = self.history.room();
        let mut entries = self.history.entries().len();
        let mut own = self.history.messages_from(me) as usize;
        let mut rest = Rest::from(self.members, trim, self.next);
        while let Some(spot) = rest.take() {
            if entries >= room {
                return false;
            }
            let (more, more_own) = added_at(&self.items, spot, me);
            entries += more;
            own += more_own;
        }
        entries < room && own <= self.messages.len()
    }

    /// It ends its view with the value that it has committed: it delivers what the trim has left and the
    /// View of the members that come of it, and begins anew in that view.
    pub(super) fn finish(&mut self)
        requires may { may_finish self.old self.old.committed ≡ true }
        requires inside { is_inside self.old ≡ true }
        requires free { self.old.pending ≡ None }
        ensures { self.new ≡ finished self.old }
    {
        let value = self.committed.unwrap();
        let me = self.rows.me();
        let next = self.members.next(Mask::of(value.leavers));
        let rest = Rest::from(self.members, &value.trim, self.next);
        deliver_rest(&mut self.history, &self.items, rest);
        self.history
            .install(next_view(self.age, self.view, self.members, &value));
        let mut left = self.spares.pop().unwrap();
        left.keep(&self.rows, &self.items, &mut self.sent);
        self.left.push(left).unwrap();
        self.items.renew(next);
        self.rows.renew();
        self.rows.set_own(LOGGED_COLUMN, self.logged as u64);
        self.base = first_unsent(self.history.entries(), me);
        self.view += 1;
        self.came_from = self.members;
        self.given = Mask::empty();
        self.members = next;
        self.suspects = Suspects::new(me, next);
        self.tag = 0;
        self.value = no_value();
        self.committed = None;
        self.next = Spot::first();
        self.received = 0;
    }
}

/// Delivers the rest of a view.
fn deliver_rest(history: &mut History, items: &Items, mut rest: Rest)
    requires roster { items.now.roster ≡ history.old.roster }
    requires taken { AreWithin items.now rest.trims.items }
    requires room { length (merged_from items.now history.old.entries rest.trims.items rest.next.place)
        < history.old.room }
    ensures { history.new ≡ record history.old {
      entries = merged_from items.now history.old.entries rest.trims.items rest.next.place;
    } }
{
    while let Some(spot) = rest.take() {
        history.deliver(items.sender_at(spot), items.item_at(spot));
    }
}

/// How many entries the item of a place leaves, and how many messages of this member.
fn added_at(items: &Items, spot: Spot, me: u8) -> (usize, usize)
    requires spot { IsSpot (length items.now.members) spot }
    requires held { is_held (counts_of items.now) spot.place ≡ true }
    ensures entries { (es : List Entry) → result.0
        ≡ length (entries_of es (sender_held_at items.now spot.place) (item_held_at items.now spot.place)) }
    ensures own { (es : List Entry) → result.1 ≡ length (messages_from me
        (entries_of es (sender_held_at items.now spot.place) (item_held_at items.now spot.place))) }
    ensures few { result.1 ≤ result.0 }
    ensures one { result.0 ≤ 1 }
{
    match items.item_at(spot) {
        Item::Null => (0, 0),
        Item::Text(_) => (1, usize::from(items.sender_at(spot) == me)),
    }
}
