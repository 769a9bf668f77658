ghost use Rattle.std.specs.Prelude.{◌≡◌, ◌↔◌, ℕ, ◌<◌, ◌≤◌, ◌≢◌, nat_lt, length, IfErr, IfOk, IfSome, IsTrue, OnErr, OnOk, None, Some, false, option_map, slice_index, true};
ghost use Rattle.dr_door.specs.{Coming.{came_to, refusal}, Inside.IsKept, Letters.{IsNotTaken, Suits}, Sending.IsLastSent};
ghost use Rattle.dr_door.specs.Lone.{Leads, LeadsBy, after_asking, done_alone, due_of, failed, goes_on, pushed_on, went_on};
ghost use Rattle.dr_entry.specs.{Spelling.IsValid, declared.record.Record.Record};
ghost use Rattle.dr_history.specs.History.{up_to_view};
ghost use Rattle.dr_member.specs.Deeds.{IsWithin, is_act, is_append, is_before_turn, is_give, is_look, is_push, is_take, table_size};
ghost use Rattle.dr_program.specs.declared.deed.Deed.TheVariants as deeds;
ghost use Rattle.dr_program.specs.{Form.IsRunningMember, Replica.me, Running.next_deed};
ghost use Rattle.dr_turn.specs.Work.{deeds_left};

use crate::coming::refusal;
use crate::letters::suits;
use crate::refused::{NotDue, NotTaken, Refused};
use dr_entry::{End, Entry};
use dr_install::letter_end;
use dr_member::{Deed, LogWhy, Member};
use dr_program::Packet;
use dr_words::Shape;
use std::marker::Model;

/// One member of a group, with its own copy of the table.
///
/// [`Door::go`] takes it on, to what concerns others, or to the beginning of its next turn. Then it is for whoever
/// holds it: [`Door::turn`] begins the turn, [`Door::pushed`] takes note that what it pushes is on its way, and
/// [`Door::appended`] or [`Door::append_failed`] how the append to its log went. [`Door::given`] takes note that its
/// [`Door::letter`] for a late member is on its way, and [`Door::taken`] brings such a letter, or tells that none has
/// come; a letter that is lost leaves its member outside, and stalls nobody. [`Door::came`] takes the words that the
/// others push, at any time between two calls, and [`Door::again`] tells what it pushed last, also in views that it
/// has left, and after its end. Contracts see it as a member and the words of its table, which has room for the copies
/// of all: its own is what it sees, and in those of others stands what it pushed last.
#[derive(Drop)]
pub struct Door {
    member: Member,
    words: Vec<u64>,
}

impl Model for Door {
    ghost use Rattle.dr_door.specs.Lone.{Lone};

    ghost Value = { Lone };

    ghost use Rattle.dr_door.specs.Inside.{IsInsideDoor, door_inside};

    ghost view = { door_inside };

    ghost invariant = { IsInsideDoor };
}

impl Door {
    /// A member, over words of its table.
    pub(crate) fn over(member: Member, words: Vec<u64>) -> Door
        requires form { IsRunningMember member }
        requires kept { IsKept member.replica words.items }
        ensures { result ≡ record { member = member; words = words.items } }
    {
        Door { member, words }
    }

    /// Does the deeds that are due and concern nobody else, until another deed is due, or none, or a turn would
    /// begin. Answers that deed, and `None` where a turn would begin.
    pub fn go(&mut self) -> Option<Deed>
        ensures led { Leads self.old self.new }
        ensures due { result ≡ due_of self.new }
        // What it is to append is a valid record, whatever words have come.
        ensures valid { (what : Record) → result ≡ Some (deeds.Append what) → IsValid what }
    {
        while self.goes_on() {
            self.go_on();
        }
        self.due()
    }

    /// Whether its next deed concerns nobody else, and begins no turn.
    fn goes_on(&self) -> bool
        ensures { result ≡ goes_on self.now }
    {
        !self.member.at_beat() && matches!(self.member.next(), Deed::Look(_) | Deed::Act(..))
    }

    /// Does its next deed, which concerns nobody else and begins no turn, and with a look those of the row behind it.
    fn go_on(&mut self)
        requires { goes_on self.old ≡ true }
        ensures led { (n : ℕ) × LeadsBy n self.old self.new }
        ensures falls { deeds_left self.new.member < deeds_left self.old.member }
    {
        match self.next() {
            Deed::Look(_) => self.look_row(),
            Deed::Act(index, word) => self.act(index, word),
            _ => {}
        }
    }

    /// Its next deed.
    fn next(&self) -> Deed
        ensures deed { result ≡ next_deed self.now.member }
        ensures within { IsWithin (table_size self.now.member) result }
    {
        self.member.next()
    }

    /// Its next deed; `None` where it stands before a turn.
    fn due(&self) -> Option<Deed>
        ensures due { result ≡ due_of self.now }
        ensures valid { (what : Record) → result ≡ Some (deeds.Append what) → IsValid what }
    {
        if self.member.at_beat() {
            return None;
        }
        Some(self.member.next())
    }

    /// Takes its look, and those of the row behind it: one deed after the other, over words that stay as they are.
    fn look_row(&mut self)
        requires { is_look (next_deed self.old.member) ≡ true }
        ensures led { (n : ℕ) × LeadsBy n self.old self.new }
        ensures falls { deeds_left self.new.member < deeds_left self.old.member }
    {
        self.member.look_alone(self.words.as_slice());
    }

    /// Does an act, which stores this word at this index.
    fn act(&mut self, index: usize, word: u64)
        requires due { next_deed self.old.member ≡ deeds.Act index word }
        requires within { index < table_size self.old.member }
        ensures after { self.new ≡ done_alone self.old }
        ensures falls { deeds_left self.new.member < deeds_left self.old.member }
    {
        self.words[index] = word;
        self.member.acted();
    }

    /// Begins a turn.
    ///
    /// # Errors
    ///
    /// Exactly where it stands in a turn, or has ended. Nothing has changed then.
    pub fn turn(&mut self) -> Result<(), NotDue>
        ensures done { OnOk result ((is_before_turn self.old.member ≡ true) × (self.new ≡ done_alone self.old)) }
        ensures refused { OnErr result ((is_before_turn self.old.member ≡ false) × (self.new ≡ self.old)) }
    {
        if !self.at_turn() {
            return Err(NotDue);
        }
        self.begin();
        Ok(())
    }

    /// Does the act with which a turn begins.
    fn begin(&mut self)
        requires { is_act (next_deed self.old.member) ≡ true }
        ensures { self.new ≡ done_alone self.old }
    {
        match self.next() {
            Deed::Act(index, word) => self.act(index, word),
            _ => {}
        }
    }

    /// Whether it stands before a turn.
    fn at_turn(&self) -> bool
        ensures { result ≡ is_before_turn self.now.member }
    {
        self.member.at_beat()
    }

    /// Takes note that the word that it pushes is on its way. [`Door::again`] tells it from then on.
    ///
    /// # Errors
    ///
    /// Exactly where no push is due. Nothing has changed then.
    pub fn pushed(&mut self) -> Result<(), NotDue>
        ensures done { OnOk result ((is_push (next_deed self.old.member) ≡ true) × (self.new ≡ pushed_on self.old)) }
        ensures refused { OnErr result ((is_push (next_deed self.old.member) ≡ false) × (self.new ≡ self.old)) }
    {
        if !self.pushes() {
            return Err(NotDue);
        }
        self.push();
        Ok(())
    }

    /// Whether its next deed is a push.
    fn pushes(&self) -> bool
        ensures { result ≡ is_push (next_deed self.now.member) }
    {
        matches!(self.member.next(), Deed::Push(..))
    }

    /// Keeps the word that it pushes, which is on its way.
    fn push(&mut self)
        requires { is_push (next_deed self.old.member) ≡ true }
        ensures { self.new ≡ pushed_on self.old }
    {
        match self.next() {
            Deed::Push(index, word) => self.keep(index, word),
            _ => {}
        }
    }

    /// Keeps the word that it pushes at this index.
    fn keep(&mut self, index: usize, word: u64)
        requires due { next_deed self.old.member ≡ deeds.Push index word }
        requires within { index < table_size self.old.member }
        ensures { self.new ≡ pushed_on self.old }
    {
        self.words[index] = word;
        self.member.pushed();
    }

    /// The first of the words, by index from this one on, that it pushed last to the member `to`: for who sends them
    /// once more, as the first time may have been in vain. `None` where there is none.
    pub fn again(&self, to: u8, from: usize) -> Option<Packet>
        ensures some { IfSome result (λ p. IsLastSent self.now to p.index × (from ≤ p.index)
            × (p.word ≡ slice_index self.now.words p.index)) }
        ensures first { IfSome result (λ p. (k : ℕ) → from ≤ k → k < p.index → ¬ IsLastSent self.now to k) }
        ensures none { result ≡ None → (k : ℕ) → from ≤ k → ¬ IsLastSent self.now to k }
    {
        let shape = self.shape();
        let me = self.member.me();
        if to == me || shape.members <= to {
            return None;
        }
        for bank in 0..shape.banks {
            let first = shape.word_index(bank, to, me, 0);
            if let Some(index) = self.next_some(from.max(first), first + shape.columns()) {
                return Some(Packet {
                    index,
                    word: self.words[index],
                });
            }
        }
        None
    }

    /// The first place from this one on, and before that one, at which a word other than 0 stands.
    fn next_some(&self, from: usize, end: usize) -> Option<usize>
        requires { end ≤ length self.now.words }
        ensures some { IfSome result (λ index. (from ≤ index) × (index < end)
            × (slice_index self.now.words index ≢ 0)) }
        ensures first { IfSome result (λ index. (k : ℕ) → from ≤ k → k < index → slice_index self.now.words k ≡ 0) }
        ensures none { result ≡ None → (k : ℕ) → from ≤ k → k < end → slice_index self.now.words k ≡ 0 }
    {
        for index in from..end {
            if self.words[index] != 0 {
                return Some(index);
            }
        }
        None
    }

    /// Takes note that its log has the record that it appends, and outlives a crash.
    ///
    /// # Errors
    ///
    /// Exactly where no append is due. Nothing has changed then.
    pub fn appended(&mut self) -> Result<(), NotDue>
        ensures done { OnOk result ((is_append (next_deed self.old.member) ≡ true) × (self.new ≡ went_on self.old)) }
        ensures refused { OnErr result ((is_append (next_deed self.old.member) ≡ false) × (self.new ≡ self.old)) }
    {
        if !self.appends() {
            return Err(NotDue);
        }
        self.member.appended();
        Ok(())
    }

    /// Whether its next deed is an append.
    fn appends(&self) -> bool
        ensures { result ≡ is_append (next_deed self.now.member) }
    {
        matches!(self.member.next(), Deed::Append(_))
    }

    /// Takes note that its append failed, and why. Its next deed is its end.
    ///
    /// # Errors
    ///
    /// Exactly where no append is due. Nothing has changed then.
    pub fn append_failed(&mut self, why: &LogWhy) -> Result<(), NotDue>
        ensures done { OnOk result ((is_append (next_deed self.old.member) ≡ true)
            × (self.new ≡ failed why.now self.old)) }
        ensures refused { OnErr result ((is_append (next_deed self.old.member) ≡ false) × (self.new ≡ self.old)) }
    {
        if !matches!(self.member.next(), Deed::Append(_)) {
            return Err(NotDue);
        }
        self.member.append_failed(why);
        Ok(())
    }

    /// The letter that it gives to a late member: its history up to and with its last View.
    pub fn letter(&self) -> &[Entry]
        ensures { result.now ≡ up_to_view self.now.member.replica.history }
    {
        let history = self.member.history();
        &history[..letter_end(history)]
    }

    /// Takes note that it gave its letter to a late member, whether or not that ever has it.
    ///
    /// # Errors
    ///
    /// Exactly where no letter is due to be given. Nothing has changed then.
    pub fn given(&mut self) -> Result<(), NotDue>
        ensures done { OnOk result ((is_give (next_deed self.old.member) ≡ true) × (self.new ≡ went_on self.old)) }
        ensures refused { OnErr result ((is_give (next_deed self.old.member) ≡ false) × (self.new ≡ self.old)) }
    {
        if !self.gives() {
            return Err(NotDue);
        }
        self.member.given();
        Ok(())
    }

    /// Whether its next deed gives a letter.
    fn gives(&self) -> bool
        ensures { result ≡ is_give (next_deed self.now.member) }
    {
        matches!(self.member.next(), Deed::Give { .. })
    }

    /// Takes the letter for which it asks, and joins by it; or takes note that none has come: then it goes on, and
    /// asks again in a later turn.
    ///
    /// # Errors
    ///
    /// `NotDue` exactly where it asks for none; else `Unfit` exactly where the letter doesn't begin with its history,
    /// has an entry that is not valid, or doesn't fit it. Nothing has changed then.
    pub fn taken(&mut self, letter: Option<&[Entry]>) -> Result<(), NotTaken>
        ensures done { OnOk result ((is_take (next_deed self.old.member) ≡ true)
            × IfSome letter.entry (λ list. Suits self.old.member.replica list.now)
            × (self.new ≡ after_asking (option_map (λ list. list.now) letter.entry) self.old)) }
        ensures refused { IfErr result
            (IsNotTaken self.old.member (option_map (λ list. list.now) letter.entry)) }
        ensures stays { OnErr result (self.new ≡ self.old) }
    {
        if !self.takes() {
            return Err(NotTaken::NotDue);
        }
        if !self.suits(letter) {
            return Err(NotTaken::Unfit);
        }
        self.member.taken(letter);
        Ok(())
    }

    /// Whether a letter, where there is one, begins with its history, has valid entries alone, and fits it.
    fn suits(&self, letter: Option<&[Entry]>) -> bool
        ensures { IsTrue result ↔ IfSome letter.entry (λ list. Suits self.now.member.replica list.now) }
    {
        match letter {
            Some(list) => suits(self.member.replica(), list),
            None => true,
        }
    }

    /// Whether its next deed takes a letter.
    fn takes(&self) -> bool
        ensures { result ≡ is_take (next_deed self.now.member) }
    {
        matches!(self.member.next(), Deed::Take)
    }

    /// Takes a word that comes to the place of this index: it stands there then, where no greater one does. Answers
    /// whether it is a greater one.
    ///
    /// # Errors
    ///
    /// Exactly where [`Door::judge`] tells this. Nothing has changed then.
    pub fn came(&mut self, index: usize, word: u64) -> Result<bool, Refused>
        ensures came { IfOk result (λ is_news. (refusal self.old index word ≡ None)
            × (is_news ≡ nat_lt (slice_index self.old.words index) word)) }
        ensures refused { IfErr result (λ why. refusal self.old index word ≡ Some why) }
        ensures after { self.new ≡ came_to self.old index word }
    {
        if let Some(why) = self.judge(index, word) {
            return Err(why);
        }
        let stands = self.words[index];
        self.words[index] = stands.max(word);
        Ok(stands < word)
    }

    /// Why a word that comes to the place of this index is refused: the table has no such place; else it is in another
    /// member's copy; else in the member's own row; else the word is not in form; else it is greater than the one that
    /// stands there, and has not grown from it. `None` exactly where it is taken.
    pub fn judge(&self, index: usize, word: u64) -> Option<Refused>
        ensures why { result ≡ refusal self.now index word }
        ensures place { result ≡ None → index < length self.now.words }
    {
        if self.words.len() <= index {
            return Some(Refused::Place);
        }
        refusal(
            &self.shape(),
            self.member.me(),
            index,
            self.words[index],
            word,
        )
    }

    /// The shape of its group's table.
    pub fn shape(&self) -> Shape
        ensures members { result.members ≡ self.now.member.replica.roster }
        ensures window { result.window ≡ self.now.member.replica.window }
        ensures banks { result.banks ≡ self.now.member.replica.banks }
    {
        self.member.replica().shape()
    }

    /// Its number.
    pub fn me(&self) -> u8
        ensures { result ≡ me self.now.member.replica }
    {
        self.member.me()
    }

    /// How it ended; `None` exactly where it hasn't ended.
    pub fn end(&self) -> Option<End>
        ensures { result ≡ self.now.member.replica.end }
    {
        self.member.end()
    }

    /// The turns that it has begun.
    pub fn turns(&self) -> u32
        ensures { result ≡ self.now.member.replica.turns }
    {
        self.member.turns()
    }

    /// Its history.
    pub fn history(&self) -> &[Entry]
        ensures { result.now ≡ self.now.member.replica.history }
    {
        self.member.history()
    }

    /// The number of entries on its log.
    pub fn logged(&self) -> u64
        ensures { result ≡ self.now.member.replica.logged }
    {
        self.member.logged()
    }

    /// The number of entries that it reported durable.
    pub fn durable(&self) -> u64
        ensures { result ≡ self.now.member.replica.durable }
    {
        self.member.durable()
    }
}
