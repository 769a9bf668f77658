ghost use Rattle.std.specs.Prelude.{◌≡◌, ℕ, ◌+◌, ◌^◌, ◌<◌, ◌≤◌, ◌++◌, ◌∷◌, [], IfOk, length, nat_lt, slice_index, vec_capacity};
ghost use Rattle.dr_history.specs.Order.{messages_from};

use dr_entry::{Entry, Item, Seq};
use std::alloc::{AllocError, Global};
use std::marker::Model;

/// What a member has delivered, with the number of messages of each member.
#[derive(Drop)]
pub(crate) struct History {
    entries: Vec<Entry>,
    room: usize,
    messages: Vec<u32>,
}

impl Model for History {
    ghost use Rattle.dr_replica.specs.History.{Kept};

    ghost Value = { Kept };

    ghost use Rattle.dr_replica.specs.Inside.{IsHistory, kept_of};

    ghost view = { kept_of };

    ghost invariant = { IsHistory };
}

impl History {
    ghost use Rattle.dr_replica.specs.History.{HasEntryRoom, delivered};

    /// The history of the entries `start` and the entry `view`, of members of a roster of so many,
    /// with room for so many entries. No later call takes memory.
    pub(crate) fn begin(
        alloc: Global,
        start: Seq<Entry>,
        view: Entry,
        roster: u8,
        room: usize,
    ) -> Result<History, AllocError>
        requires roster { roster ≤ 16 }
        requires within { length start + 1 ≤ room }
        requires small { room < 2 ^ 32 }
        ensures begun { IfOk result (λ history.
            history ≡ record { roster = roster; entries = start ++ view ∷ []; room = room }) }
    {
        let mut entries = start.into_vec();
        entries.reserve(room - entries.len())?;
        entries.push(view).unwrap();
        let mut messages = vec![in alloc; 0; usize::from(roster)]?;
        count_messages(&entries, &mut messages);
        Ok(History {
            entries,
            room,
            messages,
        })
    }

    /// The entries, in order.
    #[inline]
    pub(crate) fn entries(&self) -> &[Entry]
        ensures entries { result.now ≡ self.now.entries }
        ensures form { HasEntryRoom self.now }
    {
        self.entries.as_slice()
    }

    /// How many messages of a member there are.
    #[inline]
    pub(crate) fn messages_from(&self, member: u8) -> u32
        requires { member < self.now.roster }
        ensures { result ≡ length (messages_from member self.now.entries) }
    {
        self.messages[usize::from(member)]
    }

    /// How many entries there is room for, together.
    pub(crate) fn room(&self) -> usize
        ensures { result ≡ self.now.room }
    {
        self.room
    }

    /// Whether there is room for one more entry.
    #[inline]
    pub(crate) fn has_room(&self) -> bool
        ensures { result ≡ nat_lt (length self.now.entries) self.now.room }
    {
        self.entries.len() < self.room
    }

    /// Delivers an item of a member: a message is the next entry, a null leaves none.
    pub(crate) fn deliver(&mut self, sender: u8, item: &Item)
        requires sender { sender < self.old.roster }
        requires room { length self.old.entries < self.old.room }
        ensures { self.new ≡ delivered self.old sender item.now }
    {
        let Item::Text(message) = item else {
            return;
        };
        let index = self.messages[usize::from(sender)];
        let bytes = message.copy();
        self.messages[usize::from(sender)] = index + 1;
        self.entries
            .push(Entry::Msg {
                sender,
                index,
                bytes,
            })
            .unwrap();
    }

    /// Installs a View, the next entry.
    pub(crate) fn install(&mut self, view: Entry)
        requires view { (s : ℕ) → messages_from s (view ∷ []) ≡ [] }
        requires room { length self.old.entries < self.old.room }
        ensures { self.new ≡ record self.old { entries = self.old.entries ++ view ∷ [] } }
    {
        self.entries.push(view).unwrap();
    }

    /// Takes the entries of a letter in place of its own.
    pub(crate) fn take_letter(&mut self, letter: &[Entry])
        requires room { length letter.now ≤ self.old.room }
        ensures { self.new ≡ record self.old { entries = letter.now } }
    {
        self.entries.clear();
        add_copies(letter, &mut self.entries);
        self.messages.fill(0);
        count_messages(letter, &mut self.messages);
    }

    /// The entries as a list.
    pub(crate) fn into_entries(self) -> Seq<Entry>
        ensures { result ≡ self.entries }
    {
        Seq::of(self.entries)
    }
}

/// Adds copies of these entries to a list with room for them.
pub(crate) fn add_copies(from: &[Entry], into: &mut Vec<Entry>)
    requires { length into.old.items + length from.now ≤ vec_capacity into.old }
    ensures items { into.new.items ≡ into.old.items ++ from.now }
    ensures room { vec_capacity into.old ≤ vec_capacity into.new }
{
    for entry in from {
        into.push(entry.copy()).unwrap();
    }
}

/// Counts the messages of each member among these entries, where the counts are 0 before.
fn count_messages(entries: &[Entry], counts: &mut [u32])
    requires zero { (s : ℕ) → slice_index counts.old s ≡ 0 }
    requires few { length entries.now < 2 ^ 32 }
    ensures { (s : ℕ) → s < length counts.old
        → slice_index counts.new s ≡ length (messages_from s entries.now) }
{
    for entry in entries {
        if let Entry::Msg { sender, .. } = entry {
            let sender = usize::from(*sender);
            if sender < counts.len() {
                counts[sender] += 1;
            }
        }
    }
}
