//! What is known of a replica.
ghost use Rattle.std.specs.Prelude.{◌≡◌, ◌+◌, ◌-◌, ◌*◌, ◌<◌, length, slice_get, Some, true};
ghost use Rattle.dr_history.specs.Members.{has};
ghost use Rattle.dr_machine.specs.Effects.{one_more};
ghost use Rattle.dr_program.specs.{Form.HasForm, Replica.{count, me, may_append}};
ghost use Rattle.dr_rows.specs.Words.{own, seen};

use super::Replica;
use dr_entry::{End, Entry, SentItem};
use dr_words::{Mask, Shape};

impl Replica {
    /// The member's own number.
    #[inline]
    pub fn me(&self) -> u8
        ensures me { result ≡ me self.now }
        ensures form { HasForm self.now }
    {
        self.rows.me()
    }

    /// The late members of the age.
    #[inline]
    pub fn late(&self) -> Mask
        ensures { result ≡ self.now.late }
    {
        self.late
    }

    /// The shape of the group's table.
    #[inline]
    pub fn shape(&self) -> Shape
        ensures members { result.members ≡ self.now.roster }
        ensures window { result.window ≡ self.now.window }
        ensures banks { result.banks ≡ self.now.banks }
    {
        self.shape
    }

    /// The number of its view, for which there is a bank.
    #[inline]
    pub fn view(&self) -> u8
        ensures view { result ≡ self.now.view }
        ensures bank { result < self.now.banks }
    {
        self.view
    }

    /// The number of the next view.
    #[inline]
    pub fn next_view(&self) -> u8
        ensures { result ≡ self.now.view + 1 }
    {
        let banks = self.shape.banks;
        prove!(self.view < banks);
        self.view + 1
    }

    /// The members of its view.
    #[inline]
    pub fn members(&self) -> Mask
        ensures { result ≡ self.now.members }
    {
        self.members
    }

    /// Whether it suspects a member.
    #[inline]
    pub fn is_suspected(&self, member: u8) -> bool
        requires { member < 16 }
        ensures { result ≡ has self.now.suspects member }
    {
        self.suspects.mask().has(member)
    }

    /// The number of its acts after one more, which is what that act's beat word says.
    #[inline]
    pub fn acts_after(&self) -> u64
        ensures { result ≡ one_more 64 self.now.acts }
    {
        self.acts.saturating_add(1)
    }

    /// Its own word of a column.
    #[inline]
    pub fn own(&self, column: usize) -> u64
        requires { column < self.now.rows.columns }
        ensures { result ≡ own self.now.rows column }
    {
        self.rows.own(column)
    }

    /// The word of a column that it last saw of a member; its own word in its own row.
    #[inline]
    pub fn seen(&self, row: u8, column: usize) -> u64
        requires row { row < self.now.roster }
        requires column { column < self.now.rows.columns }
        ensures { result ≡ seen self.now.rows row column }
    {
        self.rows.seen(row, column)
    }

    /// How many items of a member it has in its view.
    #[inline]
    pub fn count(&self, sender: u8) -> u32
        requires { sender < self.now.roster }
        ensures { result ≡ count self.now sender }
    {
        self.items.count(sender)
    }

    /// Its history.
    #[inline]
    pub fn history(&self) -> &[Entry]
        ensures { result.now ≡ self.now.history }
    {
        self.history.entries()
    }

    /// What it has put in its view.
    #[inline]
    pub fn sent(&self) -> &[SentItem]
        ensures { result.now ≡ self.now.sent }
    {
        self.sent.as_slice()
    }

    /// The next entry that goes on its log.
    pub fn next_entry(&self) -> Entry
        requires { may_append self.now ≡ true }
        ensures { slice_get self.now.history self.now.logged ≡ Some result }
    {
        self.history.entries()[self.logged].copy()
    }

    /// The number of entries on its log.
    #[inline]
    pub fn logged(&self) -> u64
        ensures { result ≡ self.now.logged }
    {
        self.logged as u64
    }

    /// How many messages of its own it has for the group.
    pub fn own_messages(&self) -> usize
        ensures { result ≡ length self.now.messages }
    {
        self.messages.len()
    }

    /// How many entries its history has room for.
    pub fn room(&self) -> usize
        ensures { result ≡ self.now.room }
    {
        self.history.room()
    }

    /// How many entries more its log may get in this age.
    pub fn appends_left(&self) -> usize
        ensures { result ≡ self.now.room - self.now.logged }
    {
        self.history.room().saturating_sub(self.logged)
    }

    /// How many votes more its log may get in this age.
    pub fn votes_left(&self) -> usize
        ensures { result ≡ self.now.banks * self.now.roster - length self.now.votes }
    {
        let most = usize::from(self.shape.banks) * usize::from(self.shape.members);
        most.saturating_sub(self.votes.len())
    }

    /// The number of entries that it reported durable.
    #[inline]
    pub fn durable(&self) -> u64
        ensures { result ≡ self.now.durable }
    {
        self.durable
    }

    /// The turns that it has begun.
    #[inline]
    pub fn turns(&self) -> u32
        ensures { result ≡ self.now.turns }
    {
        self.turns
    }

    /// How it ended, once it has.
    #[inline]
    pub fn end(&self) -> Option<End>
        ensures { result ≡ self.now.end }
    {
        self.end
    }
}
