//! What a replica may do.
ghost use Rattle.std.specs.{Int.bit_at, Prelude.{◌≡◌, ℕ, ◌+◌, ◌<◌, ◌≤◌, ◌↔◌, ◌&&◌, ◌||◌, ◌==◌, length, nat_lt, not}};
ghost use Rattle.dr_history.specs.Members.{has};
ghost use Rattle.dr_program.specs.Replica.{all_done, count, greatest, has_majority, holds_all, is_due, is_inside, is_other, is_wedged, is_welcomer, least_seen, me, may_append, may_deliver, may_give, may_mark, may_null, may_publish, may_receive, may_report, may_send, may_suspect, next_index};
ghost use Rattle.dr_program.specs.Steps.{allows, allows_inside, has_cell, is_outside_step};
ghost use Rattle.dr_suspect.specs.Wishes.{may_wish};
ghost use Rattle.dr_entry.specs.declared.limits.TheConstants.{MAX_MEMBERS};
ghost use Rattle.dr_ring.specs.Slots.{IsReady, is_free, slot_of};
ghost use Rattle.dr_words.specs.declared.column.TheConstants.{RECEIVED_COLUMN};
ghost use Rattle.dr_words.specs.Columns.{columns_of};
ghost use Rattle.dr_words.specs.Masks.{without};
ghost use Rattle.dr_rows.specs.Words.{changed};

use super::Replica;
use dr_entry::{End, MAX_MEMBERS};
use dr_join::{newcomers, welcomer};
use dr_machine::{Act, Step};
use dr_pred::{LoggedFront, ReceivedFront, Watch, least_word};
use dr_ring::{free, is_ready, sweep};
use dr_suspect::may_wish;
use dr_words::{DONE_COLUMN, LOGGED_COLUMN, RECEIVED_COLUMN};

impl Replica {
    /// Whether this is another member of its view.
    #[inline]
    pub fn is_other(&self, member: u8) -> bool
        requires { member < self.now.roster }
        ensures { result ≡ is_other self.now member }
    {
        self.members.has(member) && member != self.rows.me()
    }

    /// Whether it may take a step, where it has no end.
    #[inline(always)]
    pub fn allows(&self, step: Step) -> bool
        ensures { result ≡ allows self.now step }
    {
        (is_outside_step(step) || self.is_inside()) && self.allows_inside(step)
    }

    /// Whether it may take a step, where it has no end, and is in its view or may take it outside.
    #[inline(always)]
    fn allows_inside(&self, step: Step) -> bool
        ensures { result ≡ allows_inside self.now step }
    {
        match step {
            Step::Do(act) => self.may(act),
            Step::Look { row, column } => self.may_look(row, column),
            Step::Push { to, column } => self.has_cell(to, column),
            Step::Append => self.may_append(),
            Step::LogVote { value } => self.may_vote(&value),
            Step::Welcome { late } => self.may_give(late),
            Step::Join => !self.is_inside(),
        }
    }

    /// Whether it is in its view: a late member is so once it has joined.
    #[inline(always)]
    pub fn is_inside(&self) -> bool
        ensures { result ≡ is_inside self.now }
    {
        self.members.has(self.rows.me())
    }

    /// Whether all of its view were in the view before.
    #[inline(always)]
    pub fn has_no_newcomers(&self) -> bool
        ensures { result ≡ (without self.now.members self.now.came_from == 0) }
    {
        newcomers(self.came_from, self.members).bits() == 0
    }

    /// Whether it came into its view with this member, is the least of those that were in the one before, and
    /// hasn't given it the letter yet. Out of line, as few members come late.
    #[inline(never)]
    pub fn may_give(&self, newcomer: u8) -> bool
        ensures { result ≡ may_give self.now newcomer }
    {
        newcomer < self.shape.members && self.is_welcomer() && self.lacks_letter(newcomer)
    }

    /// Whether a member came into its view with this one, and this one hasn't given it a letter.
    fn lacks_letter(&self, member: u8) -> bool
        requires { member < MAX_MEMBERS }
        ensures { result ≡ (has self.now.members member
            && (not (has self.now.came_from member) && not (has self.now.given member))) }
    {
        newcomers(self.came_from, self.members).has(member) && !self.given.has(member)
    }

    /// Whether it was in the view before, and is the least of the members of its view that were.
    fn is_welcomer(&self) -> bool
        ensures { result ≡ is_welcomer self.now }
    {
        let me = self.rows.me();
        self.came_from.has(me) && welcomer(self.came_from, self.members).unwrap_or(0) == me
    }

    /// Whether this is another member of the view that it doesn't suspect, and a column of its row.
    #[inline(always)]
    fn may_look(&self, row: u8, column: usize) -> bool
        ensures { result ≡ (not (has self.now.suspects row) && has_cell self.now row column) }
    {
        row < self.shape.members && !self.is_suspected(row) && self.has_cell(row, column)
    }

    /// Whether this is another member of the view, and a column of its row.
    #[inline(always)]
    fn has_cell(&self, row: u8, column: usize) -> bool
        ensures { result ≡ has_cell self.now row column }
    {
        row < self.shape.members && self.is_other(row) && column < self.shape.columns()
    }

    /// Whether it suspects or wishes for somebody. It then takes, puts and delivers no more items in its view.
    #[inline(always)]
    pub fn is_wedged(&self) -> bool
        ensures { result ≡ is_wedged self.now }
    {
        self.suspects.mask().bits() != 0
    }

    /// Whether it takes items, and one of the sender is there.
    #[inline(always)]
    pub fn may_receive(&self, sender: u8) -> bool
        requires { sender < self.now.roster }
        ensures { result ≡ may_receive self.now sender }
    {
        let count = self.items.count(sender);
        self.takes_from(sender) && is_ready(&self.rows, &self.shape, sender, count)
    }

    /// Whether it takes the next item of the sender once all words of it are seen: it isn't wedged, and the
    /// sender is another member of its view that has not yet sent as many as anyone has messages.
    #[inline]
    pub fn takes_from(&self, sender: u8) -> bool
        requires { sender < self.now.roster }
        ensures { result ≡ (not (is_wedged self.now)
            && (nat_lt (count self.now sender) (greatest self.now.totals) && is_other self.now sender)) }
    {
        !self.is_wedged() && self.items.has_room(sender) && self.is_other(sender)
    }

    /// Which of the next items of the sender are there, as many as a ring has slots: bit `i`, from the lowest
    /// on, is set exactly where all words were seen that the one behind `i` others needs.
    pub fn ready_items(&self, sender: u8) -> u16
        requires { sender < self.now.roster }
        ensures set { (i : ℕ) → i < self.now.window → (bit_at result i ≡ 1)
            ↔ IsReady (count self.now sender + i)
            (slot_of self.now.window self.now.rows sender (count self.now sender + i)) }
        ensures clear { (i : ℕ) → self.now.window ≤ i → bit_at result i ≡ 0 }
    {
        sweep(&self.rows, &self.shape, sender, self.items.count(sender))
    }

    /// Whether it isn't wedged, has a message left, and the slot of its next item is free.
    pub fn may_send(&self) -> bool
        ensures { result ≡ may_send self.now }
    {
        !self.is_wedged() && self.has_message_left() && self.has_free_slot()
    }

    /// Whether it isn't wedged, has no message left and more items of some sender than it has put, and
    /// the slot of its next item is free.
    pub fn may_null(&self) -> bool
        ensures { result ≡ may_null self.now }
    {
        !self.is_wedged()
            && !self.has_message_left()
            && self.items.is_behind(self.rows.me())
            && self.has_free_slot()
    }

    /// Whether it isn't wedged, every member of the view is seen to have received the next place, and
    /// there is room for an entry.
    pub fn may_deliver(&self) -> bool
        ensures { result ≡ may_deliver self.now }
    {
        !self.is_wedged()
            && (self.next.place < self.received || self.is_received())
            && self.history.has_room()
    }

    /// Whether every member of the view is seen to have received the next place.
    fn is_received(&self) -> bool
        ensures { result ≡ nat_lt self.now.next (least_seen self.now RECEIVED_COLUMN) }
    {
        let received = ReceivedFront {
            members: self.members,
            at: self.next.place,
        };
        // no word is above the greatest
        self.next.place < u64::MAX && received.holds(&self.rows)
    }

    /// Whether its history has an entry that isn't on its log.
    #[inline]
    pub fn may_append(&self) -> bool
        ensures { result ≡ may_append self.now }
    {
        self.logged < self.history.entries().len()
    }

    /// Whether its logged word is behind its log.
    #[inline]
    pub fn may_publish(&self) -> bool
        ensures { result ≡ may_publish self.now }
    {
        self.rows.own(LOGGED_COLUMN) < self.logged as u64
    }

    /// Whether every member of the view is seen to have logged more than it reported durable.
    pub fn may_report(&self) -> bool
        ensures { result ≡ may_report self.now }
    {
        let logged = LoggedFront {
            members: self.members,
            at: self.durable.saturating_add(1),
        };
        // no word is above the greatest
        self.durable < u64::MAX && logged.holds(&self.rows)
    }

    /// Whether it isn't wedged, holds everything, durably, and hasn't said so yet.
    pub fn may_mark(&self) -> bool
        ensures { result ≡ may_mark self.now }
    {
        !self.is_wedged()
            && self.rows.own(DONE_COLUMN) == 0
            && self.holds_all()
            && self.durable == self.history.entries().len() as u64
    }

    /// Whether every row of the view shows done.
    pub fn all_done(&self) -> bool
        ensures { result ≡ all_done self.now }
    {
        for member in self.items.members() {
            if self.rows.seen(*member, DONE_COLUMN) != 1 {
                return false;
            }
        }
        true
    }

    /// Whether this is another member of its view, or one that it may wish for, and it doesn't suspect or wish for
    /// it yet.
    pub fn may_suspect(&self, other: u8) -> bool
        ensures { result ≡ may_suspect self.now other }
    {
        other < self.shape.members
            && other != self.rows.me()
            && self.is_namable(other)
            && !self.is_suspected(other)
    }

    /// Whether this is a member of its view, or one that it may wish for.
    fn is_namable(&self, other: u8) -> bool
        requires { other < MAX_MEMBERS }
        ensures { result ≡ (has self.now.members other
            || may_wish self.now.history self.now.age self.now.late other) }
    {
        self.members.has(other) || may_wish(self.history.entries(), self.age, self.late, other)
    }

    /// Whether an end that is no fault is due: it is done, or a member that it doesn't suspect suspects
    /// it, or those that it doesn't suspect are no majority of its view, or the next view goes on without
    /// it.
    pub(super) fn is_due(&self, end: End) -> bool
        ensures { result ≡ is_due self.now end }
    {
        match end {
            End::Done => !self.is_wedged() && self.all_done(),
            End::Suspected { by } => {
                by < self.shape.members
                    && by != self.rows.me()
                    && self.suspects.is_named_by(&self.rows, by)
            }
            End::NoMajority { mask } => {
                self.has_no_majority() && mask == self.suspects.unsuspected().bits()
            }
            End::Excluded { view } => self.is_named() && view == self.next_view(),
            _ => false,
        }
    }

    /// Whether it is wedged and those that it doesn't suspect are no majority of its view.
    pub(super) fn has_no_majority(&self) -> bool
        ensures { result ≡ (is_wedged self.now && not (has_majority self.now)) }
    {
        self.is_wedged() && !self.suspects.has_majority()
    }

    /// Whether its own word of a column differs from the one last pushed to the member `to`.
    #[inline]
    pub fn has_changed(&self, to: u8, column: usize) -> bool
        requires to { to < self.now.roster }
        requires column { column < self.now.rows.columns }
        ensures { result ≡ changed self.now.rows to column }
    {
        self.rows.changed(to, column)
    }

    /// The least word of a column over the rows of its view.
    pub(super) fn least_seen(&self, column: usize) -> u64
        requires { column < columns_of self.now.roster self.now.window }
        ensures { result ≡ least_seen self.now column }
    {
        least_word(&self.rows, self.members, column).unwrap_or(u64::MAX)
    }

    /// The index of the next message that it puts, where one is left.
    #[inline]
    pub(super) fn next_index(&self) -> usize
        requires { next_index self.now < length self.now.messages }
        ensures { result ≡ next_index self.now }
    {
        self.base as usize + self.sent.len()
    }

    /// Whether a message is left. It puts nulls only behind the last, so where one is left all that it
    /// has put are messages.
    #[inline]
    fn has_message_left(&self) -> bool
        ensures { result ≡ nat_lt (next_index self.now) (length self.now.messages) }
    {
        self.base as usize + self.sent.len() < self.messages.len()
    }

    /// Whether the slot of its next item is free.
    #[inline]
    fn has_free_slot(&self) -> bool
        ensures { result ≡ is_free self.now.window self.now.rows self.now.members
            (count self.now (me self.now)) }
    {
        free(
            &self.rows,
            &self.shape,
            self.members,
            self.items.count(self.rows.me()),
        )
    }

    /// Whether its history has all messages of each member of its view.
    fn holds_all(&self) -> bool
        ensures { result ≡ holds_all self.now }
    {
        for member in self.items.members() {
            if self.history.messages_from(*member) != self.totals[usize::from(*member)] {
                return false;
            }
        }
        true
    }
}

/// Whether a member that is none of its view may take the step.
#[inline(always)]
fn is_outside_step(step: Step) -> bool
    ensures { result ≡ is_outside_step step }
{
    matches!(
        step,
        Step::Do(Act::Beat) | Step::Do(Act::Crash { .. }) | Step::Join
    )
}
