//! What a replica does.
ghost use Rattle.std.specs.Prelude.{◌≡◌, ◌<◌, ◌≤◌, ℕ, ◌+◌, ◌-◌, ◌^◌, None, false, length, slice_index, true};
ghost use Rattle.dr_history.specs.Members.{has};
ghost use Rattle.dr_machine.specs.declared.step.Step.TheVariants.{Do};
ghost use Rattle.dr_program.specs.{Acts.{done, may, taken}, Form.HasForm};
ghost use Rattle.dr_program.specs.Replica.{acted, appended, delivered, finished, is_inside, is_other, looked, marked, may_append, may_deliver, may_finish, may_null, may_receive, may_send, may_suspect, nulled, published, put, pushed, received, reported, sent, suspected};
ghost use Rattle.dr_program.specs.{Running.minority, Steps.{NoWordFell, allows, is_free}};
ghost use Rattle.dr_replica.specs.Items.{front};
ghost use Rattle.dr_form.specs.Puts.{MayPut};
ghost use Rattle.dr_ring.specs.Slots.{HasShape};
ghost use Rattle.dr_rows.specs.{Along.{looked_along, pushed_along}, Words.{own, seen, with_own}};
ghost use Rattle.dr_words.specs.{Columns.recv_column, Form.IsInForm, Grown.HasGrown, Packing.recv_word};

use super::Replica;
use crate::items::Items;
use crate::wedge::Wedge;
use dr_entry::{End, Item, SentItem};
use dr_machine::Act;
use dr_ring::{put, taken};
use dr_rows::Rows;
use dr_words::{BEAT_COLUMN, DONE_COLUMN, LOGGED_COLUMN, RECEIVED_COLUMN, Shape, pack_recv};

impl Replica {
    /// Whether it may do an act, where it has no end.
    #[inline(always)]
    pub fn may(&self, act: Act) -> bool
        ensures { result ≡ may self.now act }
    {
        match act {
            Act::Beat => true,
            Act::Receive { sender } => sender < self.shape.members && self.may_receive(sender),
            Act::Send => self.may_send(),
            Act::Null => self.may_null(),
            Act::Deliver => self.may_deliver(),
            Act::Publish => self.may_publish(),
            Act::Report => self.may_report(),
            Act::Mark => self.may_mark(),
            Act::Suspect { other } => self.may_suspect(other),
            Act::Finish => self.may_finish(),
            Act::Propose => self.is_to_propose(),
            Act::Accept => self.is_to_accept(),
            Act::Commit => self.may_commit(),
            Act::Halt { end } => self.is_due(end),
            Act::Crash { end } => matches!(
                end,
                End::Crashed | End::DiskFault | End::LogFull { .. } | End::Spent { .. }
            ),
        }
    }

    /// Its end, where it suspects so many that the others are no majority of its view.
    #[inline]
    pub fn minority(&self) -> Option<Act>
        ensures { result ≡ minority self.now }
    {
        self.has_no_majority().then(|| Act::Halt {
            end: End::NoMajority {
                mask: self.suspects.unsuspected().bits(),
            },
        })
    }

    /// Does an act.
    #[inline(always)]
    pub fn take(&mut self, act: Act)
        requires may { allows self.old (Do act) ≡ true }
        requires free { is_free self.old (Do act) ≡ true }
        ensures after { self.new ≡ taken self.old act }
        ensures grown { self.new.view ≡ self.old.view → NoWordFell self.old self.new }
        ensures form { HasForm self.new }
    {
        // Asked before the fields change: with its number it tells that it has its form, which each act keeps.
        let _ = self.me();
        match act {
            Act::Finish => self.leave(),
            act => {
                self.carry_out(act);
                self.stamp();
            }
        }
    }

    /// It takes a word that it saw of another member of its view that it doesn't suspect, in form and
    /// grown from the one last seen.
    #[inline]
    pub fn look(&mut self, row: u8, column: usize, word: u64)
        requires row { row < self.old.roster }
        requires other { is_other self.old row ≡ true }
        requires unsuspected { has self.old.suspects row ≡ false }
        requires column { column < self.old.rows.columns }
        requires in_form { IsInForm self.old.roster column word }
        requires grown { HasGrown self.old.roster column (seen self.old.rows row column) word }
        ensures after { self.new ≡ looked self.old row column word }
        ensures grown { NoWordFell self.old self.new }
        ensures form { HasForm self.new }
    {
        self.rows.look(row, column, word);
    }

    /// The next entry of its history went on its log.
    #[inline]
    pub fn append(&mut self)
        requires { may_append self.old ≡ true }
        ensures after { self.new ≡ appended self.old }
        ensures grown { NoWordFell self.old self.new }
        ensures form { HasForm self.new }
    {
        self.logged += 1;
    }

    /// Its own word of a column was pushed to the member `to`.
    #[inline]
    pub fn push(&mut self, to: u8, column: usize)
        requires to { to < self.old.roster }
        requires column { column < self.old.rows.columns }
        ensures after { self.new ≡ pushed self.old to column }
        ensures grown { NoWordFell self.old self.new }
        ensures form { HasForm self.new }
    {
        self.rows.pushed(to, column);
    }

    /// It takes the words of a row from a column on, as [`Replica::look`] takes one. They stand in a table, the
    /// one of column 0 at the index `first`.
    #[inline(always)]
    pub fn look_row(&mut self, row: u8, from: usize, table: &[u64], first: usize)
        requires row { row < self.old.roster }
        requires other { is_other self.old row ≡ true }
        requires unsuspected { has self.old.suspects row ≡ false }
        requires from { from ≤ self.old.rows.columns }
        requires within { first + self.old.rows.columns ≤ length table.now }
        requires in_form { (c : ℕ) → from ≤ c → c < self.old.rows.columns
            → IsInForm self.old.roster c (slice_index table.now (first + c)) }
        requires grown { (c : ℕ) → from ≤ c → c < self.old.rows.columns
            → HasGrown self.old.roster c (seen self.old.rows row c) (slice_index table.now (first + c)) }
        ensures after { let rows = looked_along row table.now first self.old.rows from
            (self.old.rows.columns - from) in self.new ≡ record self.old { rows = rows } }
        ensures grown { NoWordFell self.old self.new }
        ensures form { HasForm self.new }
    {
        self.rows.look_row(row, from, table, first);
    }

    /// Its own words that have changed, from a column on, are pushed to the member `to`, into a table in which
    /// the one of column 0 stands at the index `first`. Answers how many they were.
    #[inline(always)]
    pub fn push_row(&mut self, to: u8, from: usize, table: &mut [u64], first: usize) -> u32
        requires to { to < self.old.roster }
        requires from { from ≤ self.old.rows.columns }
        requires within { first + self.old.rows.columns ≤ length table.old }
        ensures after { let done = pushed_along to first
            (record { words = self.old.rows; table = table.old; count = 0 }) from
            (self.old.rows.columns - from) in
            (self.new ≡ record self.old { rows = done.words }) × (table.new ≡ done.table)
            × (result ≡ done.count) }
        ensures grown { NoWordFell self.old self.new }
        ensures form { HasForm self.new }
    {
        self.rows.push_row(to, from, table, first)
    }

    /// Does what an act is for.
    #[inline(always)]
    #[tactic(auto, using(dr_program::proofs::Accepting::own_is_there, dr_program::proofs::Accepting::others_is_there))]
    fn carry_out(&mut self, act: Act)
        requires may { allows self.old (Do act) ≡ true }
        requires free { is_free self.old (Do act) ≡ true }
        ensures { self.new ≡ done self.old act }
    {
        match act {
            Act::Beat => self.turns = self.turns.saturating_add(1),
            Act::Receive { sender } => self.receive(sender),
            Act::Send => self.send(),
            Act::Null => self.fill(),
            Act::Deliver => self.deliver(),
            Act::Publish => self.publish(),
            Act::Report => self.report(),
            Act::Mark => self.mark(),
            Act::Suspect { other } => self.suspect(other),
            Act::Finish => self.finish(),
            Act::Propose => self.accept(),
            Act::Accept => self.accept(),
            Act::Commit => self.committed = Some(self.value),
            Act::Halt { end } | Act::Crash { end } => self.end = Some(end),
        }
    }

    /// It ends its view. Its stamp stands in that view.
    #[inline(always)]
    fn leave(&mut self)
        requires may { may_finish self.old self.old.committed ≡ true }
        requires inside { is_inside self.old ≡ true }
        requires free { self.old.pending ≡ None }
        ensures after { self.new ≡ finished (acted self.old) }
        ensures form { HasForm self.new }
    {
        // As in `take`: it has its form before the fields change.
        let _ = self.me();
        self.stamp();
        self.finish();
    }

    /// It takes the next item of a sender.
    fn receive(&mut self, sender: u8)
        requires sender { sender < self.old.roster }
        requires may { may_receive self.old sender ≡ true }
        requires inside { is_inside self.old ≡ true }
        ensures { self.new ≡ received self.old sender }
    {
        let count = self.items.count(sender);
        let item = taken(&self.rows, &self.shape, sender, count);
        self.items.take(sender, item);
        show_items(&mut self.rows, &self.shape, &self.items, sender);
    }

    /// It puts its next message.
    fn send(&mut self)
        requires may { may_send self.old ≡ true }
        requires inside { is_inside self.old ≡ true }
        ensures { self.new ≡ sent self.old }
    {
        let index = self.next_index();
        let message = self.messages[index].copy();
        self.put(SentItem::Index(index as u32), Item::Text(message));
    }

    /// It fills its next place with a null.
    #[inline(always)]
    fn fill(&mut self)
        requires may { may_null self.old ≡ true }
        requires inside { is_inside self.old ≡ true }
        ensures { self.new ≡ nulled self.old }
    {
        self.put(SentItem::Null, Item::Null);
    }

    /// It puts an item under its name.
    #[inline(always)]
    fn put(&mut self, name: SentItem, item: Item)
        requires may { HasForm self.old → MayPut self.old name item }
        requires inside { is_inside self.old ≡ true }
        ensures { self.new ≡ put self.old name item }
    {
        let me = self.rows.me();
        put(
            &mut self.rows,
            &self.shape,
            self.members,
            self.items.count(me),
            &item,
        );
        self.sent.push(name).unwrap();
        self.items.take(me, item);
        show_items(&mut self.rows, &self.shape, &self.items, me);
    }

    /// It delivers its next place.
    fn deliver(&mut self)
        requires may { may_deliver self.old ≡ true }
        requires inside { is_inside self.old ≡ true }
        ensures { self.new ≡ delivered self.old }
    {
        self.ask_received();
        let sender = self.items.sender_at(self.next);
        self.history.deliver(sender, self.items.item_at(self.next));
        self.next.step(self.items.members().len());
    }

    /// Asks anew which places every member of the view is seen to have received, where the next place is
    /// none of those that it knows of.
    #[inline(always)]
    fn ask_received(&mut self)
        ensures { self.new ≡ self.old }
    {
        if self.next.place >= self.received {
            self.received = self.least_seen(RECEIVED_COLUMN);
        }
    }

    /// Its logged word follows its log.
    #[inline(always)]
    fn publish(&mut self)
        ensures { self.new ≡ published self.old }
    {
        self.rows.set_own(LOGGED_COLUMN, self.logged as u64);
    }

    /// It reports as durable what every member of its view is seen to have logged.
    #[inline(always)]
    fn report(&mut self)
        ensures { self.new ≡ reported self.old }
    {
        self.durable = self.least_seen(LOGGED_COLUMN);
    }

    /// It says that it holds everything, durably.
    #[inline(always)]
    fn mark(&mut self)
        ensures { self.new ≡ marked self.old }
    {
        self.rows.set_own(DONE_COLUMN, 1);
    }

    /// It suspects another member of its view, or wishes for a late one: it is wedged, which its own words
    /// say, and it looks at that member no more.
    fn suspect(&mut self, other: u8)
        requires may { may_suspect self.old other ≡ true }
        requires inside { is_inside self.old ≡ true }
        ensures { self.new ≡ suspected self.old other }
    {
        self.suspects.add(other);
        let wedge = Wedge {
            shape: self.shape,
            members: self.members,
            suspects: self.suspects.mask(),
            promise: self.suspects.unsuspected().least().unwrap(),
        };
        wedge.rewrite(&mut self.rows);
        self.rows.freeze(other);
    }

    /// An act is done: it counts, and its own beat word says so.
    #[inline(always)]
    fn stamp(&mut self)
        ensures { self.new ≡ acted self.old }
    {
        self.acts = self.acts.saturating_add(1);
        self.rows.set_own(BEAT_COLUMN, self.acts);
    }
}

/// Sets the own words that say how many items of the sender there are, and what the front of all
/// items is.
fn show_items(rows: &mut Rows, shape: &Shape, items: &Items, sender: u8)
    requires shape { HasShape shape.now rows.old }
    requires roster { items.now.roster ≡ shape.now.members }
    requires sender { sender < shape.now.members }
    requires recv { own rows.old (recv_column sender)
        ≤ recv_word (slice_index items.now.counts sender) false }
    requires received { own rows.old RECEIVED_COLUMN ≤ front items.now }
    ensures { rows.new ≡ with_own
        (with_own rows.old (recv_column sender) (recv_word (slice_index items.now.counts sender) false))
        RECEIVED_COLUMN (front items.now) }
{
    rows.set_own(
        shape.recv_column(sender),
        pack_recv(items.count(sender), false),
    );
    rows.set_own(RECEIVED_COLUMN, items.front());
}
