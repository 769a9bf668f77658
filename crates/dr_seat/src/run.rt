//! The member of a seat in an age.
ghost use Rattle.std.specs.Prelude.{◌≡◌, ◌≤◌, ◌%◌, IfErr, None, OnErr, OnOk, Some, length};
ghost use Rattle.dr_entry.specs.Spelling.{IsValid};
ghost use Rattle.dr_machine.specs.Group.{IsGroup, IsPresent};
ghost use Rattle.dr_restart.specs.Groups.{group_of};
ghost use Rattle.dr_seat.specs.{Books.IsOfMember, Words.{AreFit, IsFirstUnfit, judged}};

use crate::book::{Book, Unwritten};
use crate::faults::Refused;
use crate::role::Role;
use crate::words::{Words, word_at};
use dr_door::{Deed, Door, Refused as Unfit, begun_door, receiver_of};
use dr_entry::{End, Entry, Record};
use dr_packet::WORD;
use dr_restart::Start;
use std::alloc::{AllocError, Global};

/// So many deeds that concern others are done at once: more than fit into a packet.
const AT_ONCE: usize = 128;

/// The member of a seat in an age.
#[derive(Drop)]
pub(crate) struct Run {
    door: Door,
    /// Words that are to be sent in one packet, and to whom.
    batch: Words,
    to: u8,
    /// Whether the member waits for an append.
    appends: bool,
    /// Whether its end was told.
    told: bool,
}

impl Run {
    /// The member of this role, before its first deed in the age of a start.
    ///
    /// # Errors
    ///
    /// Want of memory alone.
    pub(crate) fn begin(alloc: Global, role: &Role, start: &Start) -> Result<Run, AllocError>
        requires group { IsGroup (group_of role.now.script start.now) }
        requires present { IsPresent (group_of role.now.script start.now) role.now.me }
    {
        Ok(Run {
            door: begun_door(alloc, &role.script, start, 0, role.me)?,
            batch: Words::none(),
            to: 0,
            appends: false,
            told: false,
        })
    }

    /// The turns that its member has begun.
    pub(crate) fn turns(&self) -> u32
        ensures { result ≡ self.now.door.member.replica.turns }
    {
        self.door.turns()
    }

    pub(crate) fn history(&self) -> &[Entry]
        ensures { result.now ≡ self.now.door.member.replica.history }
    {
        self.door.history()
    }

    pub(crate) fn logged(&self) -> u64
        ensures { result ≡ self.now.door.member.replica.logged }
    {
        self.door.logged()
    }

    pub(crate) fn durable(&self) -> u64
        ensures { result ≡ self.now.door.member.replica.durable }
    {
        self.door.durable()
    }

    /// How its member has ended its age, where it has.
    pub(crate) fn end(&self) -> Option<End>
        ensures { result ≡ self.now.door.member.replica.end }
    {
        self.door.end()
    }

    /// Its end, where it wasn't told.
    pub(crate) fn end_due(&self) -> Option<End> {
        if self.told { None } else { self.door.end() }
    }

    /// Takes note that its end was told.
    pub(crate) fn end_told(&mut self) {
        self.told = true;
    }

    /// A turn begins, where it has come to the end of one.
    pub(crate) fn turn(&mut self) {
        let _ = self.door.turn();
    }

    /// Takes note that the last append to its log is done.
    pub(crate) fn settle(&mut self) {
        if self.appends {
            self.appends = false;
            let _ = self.door.appended();
        }
    }

    /// Does what is due, up to an append, a full packet or a turn's end.
    ///
    /// # Errors
    ///
    /// Those of the append.
    pub(crate) fn go_on(&mut self, book: &mut Book) -> Result<(), Unwritten>
        requires { book.old.stop ≡ None }
    {
        for _ in 0..AT_ONCE {
            match self.door.go() {
                Some(Deed::Push(index, word)) => {
                    if !self.push(index, word) {
                        return Ok(());
                    }
                }
                Some(Deed::Append(what)) => return self.append(&what, book),
                Some(Deed::Give { .. }) => {
                    let _ = self.door.given();
                }
                Some(Deed::Take) => {
                    let _ = self.door.taken(None);
                }
                _ => return Ok(()),
            }
        }
        Ok(())
    }

    /// Puts a word that it pushes to those that are sent together, where it may stand there. Answers whether it may.
    fn push(&mut self, index: usize, word: u64) -> bool {
        let to = receiver_of(&self.door.shape(), index);
        if !self.batch.has_room() || (!self.batch.is_empty() && self.to != to) {
            return false;
        }
        self.batch.put(index, word);
        self.to = to;
        let _ = self.door.pushed();
        true
    }

    /// A record that it appends goes to its log, once all words before it are sent.
    ///
    /// # Errors
    ///
    /// Want of memory; or the log failed.
    fn append(&mut self, what: &Record, book: &mut Book) -> Result<(), Unwritten>
        requires open { book.old.stop ≡ None }
        requires valid { IsValid what.now }
        requires kind { IsOfMember what.now }
    {
        if !self.batch.is_empty() {
            return Ok(());
        }
        book.append(what)?;
        self.appends = true;
        Ok(())
    }

    /// For whom the words are that are to be sent together, where there are any.
    pub(crate) fn receiver(&self) -> Option<u8> {
        if self.batch.is_empty() {
            return None;
        }
        Some(self.to)
    }

    /// The words that are to be sent together.
    pub(crate) fn batch(&self) -> &[u8]
        ensures short { length result.now ≤ 1320 }
        ensures whole { length result.now % 12 ≡ 0 }
    {
        self.batch.bytes()
    }

    /// Takes note that these words are on their way.
    pub(crate) fn sent(&mut self) {
        self.batch.clear();
    }

    /// The last words for a member from this place of the table on, as many as a packet takes. Answers from which
    /// place on there may be more.
    pub(crate) fn gather(&self, to: u8, from: usize, into: &mut Words) -> Option<usize> {
        let mut from = from;
        while into.has_room() {
            let packet = self.door.again(to, from)?;
            into.put(packet.index, packet.word);
            from = packet.index.saturating_add(1);
        }
        Some(from)
    }

    /// Takes words of a member, where none of them is refused. Answers whether one is news.
    ///
    /// # Errors
    ///
    /// Why the first one is refused that is. Nothing has changed then.
    pub(crate) fn take(&mut self, from: u8, words: &[u8]) -> Result<bool, Refused>
        ensures fit { OnOk result (AreFit self.old.door from words.now) }
        ensures unfit { IfErr result (IsFirstUnfit self.old.door from words.now) }
        ensures stays { OnErr result (self.new ≡ self.old) }
    {
        for k in 0..words.len() / WORD {
            let (index, word) = word_at(words, k * WORD);
            judge(&self.door, from, index, word)?;
        }
        let mut news = false;
        for k in 0..words.len() / WORD {
            let (index, word) = word_at(words, k * WORD);
            if matches!(self.door.came(index, word), Ok(true)) {
                news = true;
            }
        }
        Ok(news)
    }
}

/// Judges a word of a member before it is taken.
fn judge(door: &Door, from: u8, index: usize, word: u64) -> Result<(), Refused>
    ensures fit { OnOk result (judged door.now from index word ≡ None) }
    ensures unfit { IfErr result (λ why. judged door.now from index word ≡ Some why) }
{
    let shape = door.shape();
    if index / shape.columns() % usize::from(shape.members) != usize::from(from) {
        return Err(Refused::Place);
    }
    match door.judge(index, word) {
        None => Ok(()),
        Some(Unfit::Form) => Err(Refused::Form),
        Some(Unfit::Growth) => Err(Refused::Growth),
        Some(_) => Err(Refused::Place),
    }
}
