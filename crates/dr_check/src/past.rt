//! What is known of the entries that were read.
ghost use Rattle.std.specs.Prelude.{◌≡◌, ◌<◌, ◌+◌, ◌-◌, ◌^◌, ◌%◌, ◌++◌, ◌∷◌, [], List, length, slice_index_or, slice_set, take};
ghost use Rattle.dr_entry.specs.declared.entry.Entry.{Entry as EntryOf};
ghost use Rattle.dr_history.specs.Order.{messages_from};
ghost use Rattle.dr_check.specs.Past.{IsPast};

use dr_entry::Entry;
use dr_history::GroupView;

/// As many as there are numbers of a sender.
pub(crate) const SENDERS: usize = 256;

/// What is known of the entries that were read: the view that they end in, and how many messages of each
/// sender they have.
#[derive(Drop)]
pub(crate) struct Past {
    pub(crate) view: Option<GroupView>,
    pub(crate) counts: [u64; SENDERS],
}

impl Past {
    /// Nothing was read.
    pub(crate) fn none() -> Past
        ensures { IsPast [] result }
    {
        Past {
            view: None,
            counts: [0; SENDERS],
        }
    }

    /// Counts one message more of a sender.
    fn count(&mut self, sender: u8)
        ensures view { self.new.view ≡ self.old.view }
        ensures counts { self.new.counts ≡ slice_set self.old.counts sender
            ((slice_index_or self.old.counts sender 0 + 1) % 2 ^ 64) }
        ensures small { sender < 256 }
    {
        let place = usize::from(sender);
        self.counts[place] = self.counts[place].wrapping_add(1);
    }

    /// Notes one entry more. There are fewer than 2 ^ 64 - 1 of them.
    fn add(&mut self, entry: &Entry)
        ensures { (read : List EntryOf) → length read < 2 ^ 64 - 1 → IsPast read self.old
            → IsPast (read ++ entry.now ∷ []) self.new }
    {
        match entry {
            Entry::View {
                age,
                number,
                members,
            } => self.view = Some(GroupView::new(*age, *number, *members)),
            Entry::Msg { sender, .. } => self.count(*sender),
        }
    }

    /// Notes entry `at`, the next one.
    pub(crate) fn note(&mut self, entries: &[Entry], at: usize)
        requires at { at < length entries.now }
        requires small { at < 2 ^ 64 - 1 }
        requires past { IsPast (take at entries.now) self.old }
        ensures { IsPast (take (at + 1) entries.now) self.new }
    {
        self.add(&entries[at]);
    }

    /// How many messages of this sender were read.
    pub(crate) fn count_of(&self, sender: u8) -> u64
        ensures { (read : List EntryOf) → IsPast read self.now
            → result ≡ length (messages_from sender read) }
    {
        self.counts[usize::from(sender)]
    }

    /// What is known of these entries.
    pub(crate) fn of(entries: &[Entry]) -> Past
        ensures { IsPast entries.now result }
    {
        let mut past = Past::none();
        for at in 0..entries.len() {
            past.note(entries, at);
        }
        past
    }
}
