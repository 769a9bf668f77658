mod alone;
mod asking;
mod sweep;

ghost use Rattle.std.specs.Prelude.{◌≡◌, ◌≢◌, ◌+◌, ◌*◌, ◌-◌, ◌^◌, ◌<◌, ◌≤◌, ℕ, true, IfOk, IfSome, Some, [], drop, is_some, length, option_map, vec_capacity};
ghost use Rattle.dr_machine.specs.{Effects.one_more, declared.{event.Act.TheVariants.{Beat, Crash}, step.Step.TheVariants.Do}};
ghost use Rattle.dr_program.specs.declared.place.Part.TheVariants as parts;
ghost use Rattle.dr_program.specs.{Form.{CanBegin, IsRunningMember}, Replica.{is_wedged, me, value_due, vote_of}};
ghost use Rattle.dr_program.specs.{Program.end_of, Sight.MaySee, Turn.part_of};
ghost use Rattle.dr_program.specs.{Reading.step_of_member, Schedule.is_between_turns, Steps.{NoWordFell, index_in}};
ghost use Rattle.dr_program.specs.Running.{after_step, begun_running, broken_off, columns, crashes_now, deed_of, end_by, members, next_deed, next_step, push_or_crash, settled, took_letter};
ghost use Rattle.dr_form.specs.Letters.{IsFitting};
ghost use Rattle.dr_history.specs.History.{up_to_view};
ghost use Rattle.dr_member.specs.Deeds.{IsWithin, appended_entry, is_act, is_append, is_before_turn, is_give, is_push, is_take, table_size};
ghost use Rattle.dr_turn.specs.Work.{HasGrownTo, IsStill, deeds_left};

use crate::acts::{is_inside_after, take_act, take_letter};
use crate::bases::Bases;
use crate::fate::Fate;
use crate::search::{
    BEAT, DELIVERS, Due, LOOKS, PUBLISHES, PUSHES, RECEIVES, REPORTS, SENDS, due_at, go, leave_row,
    next_changed, part_of, settle,
};
use dr_entry::{End, Entry, MemberEnd, Record, Seq, Vote};
use dr_machine::Act;
use dr_program::{Deed, LogWhy, Part, Place, Setup};
use dr_replica::Replica;
use dr_suspect::Patience;
use dr_words::{BEAT_COLUMN, Mask};
use std::alloc::{AllocError, Global};
use std::marker::Model;
pub use sweep::{Access, Standing};

/// One running member of a group, in one age.
///
/// It goes through its turn place by place, and stands at a place at which there is something to do:
/// [`Member::next`] says what. Whoever runs the member does that, and then calls the method that
/// takes note of it: [`Member::looked`], [`Member::pushed`], [`Member::acted`], and
/// [`Member::appended`] or [`Member::append_failed`], [`Member::given`], once it has the letter that
/// [`Member::letter`] writes, and [`Member::taken`]; or it has the member take the looks or the pushes of a row
/// at once, by [`Member::look_row`] and [`Member::push_row`]. Each of these leaves the member with fewer deeds to
/// do, so it comes to its end.
#[derive(Drop)]
pub struct Member {
    replica: Replica,
    place: Place,
    fate: Fate,
    bases: Bases,
    /// Which of the next items are there of the member whose items it receives where it stands, bit by bit.
    ready: u16,
}

impl Model for Member {
    ghost use Rattle.dr_program.specs.Running.{Running};

    ghost Value = { Running };

    ghost use Rattle.dr_member.specs.Inside.{IsInsideMember, member_inside};

    ghost view = { member_inside };

    ghost invariant = { IsInsideMember };
}

impl Member {
    /// A member as its age opens, before its first turn, of which it takes at least one. No later
    /// call takes memory.
    pub fn begin(alloc: Global, setup: Setup) -> Result<Member, AllocError>
        requires ranges { CanBegin setup }
        requires turns { 1 ≤ setup.turns }
        ensures begun { IfOk result (λ member. member ≡ begun_running setup) }
        ensures form { IfOk result IsRunningMember }
    {
        let waits = Patience::new(setup.patience);
        let fate = Fate::begin(setup.turns, waits, setup.crashes, setup.suspicions);
        let rest = Setup {
            crashes: Seq::of(Vec::new(alloc)),
            suspicions: Seq::of(Vec::new(alloc)),
            ..setup
        };
        let replica = Replica::begin(alloc, rest)?;
        let bases = Bases::of(&replica);
        Ok(Member {
            replica,
            place: Place {
                part: BEAT,
                row: 0,
                column: 0,
            },
            fate,
            bases,
            ready: 0,
        })
    }

    /// What the member does next. An index in it is one of the table's.
    #[inline(always)]
    pub fn next(&self) -> Deed
        ensures deed { result ≡ next_deed self.now }
        ensures within { IsWithin (table_size self.now) result }
    {
        if let Some(end) = self.replica.end() {
            return Deed::Rest(end);
        }
        self.due_deed()
    }

    /// What the member, which has not ended, does next. An index in it is one of the table's.
    #[inline(always)]
    #[tactic(auto, using(dr_program::proofs::RunningPrograms::next_without_end))]
    pub fn due_deed(&self) -> Deed
        requires going { self.now.replica.end ≡ None }
        ensures deed { result ≡ next_deed self.now }
        ensures within { IsWithin (table_size self.now) result }
    {
        let Place { part, row, column } = self.place;
        // Written behind the pushes, looks, which are most of the deeds, are what the built program tests first.
        if part == PUSHES {
            return self.push_deed(row, column);
        }
        if part == LOOKS {
            return Deed::Look(self.look_index(row, column));
        }
        match due_at(&self.replica, &self.fate, self.place) {
            Due::Look => Deed::Look(self.look_index(row, column)),
            Due::Push => Deed::Push(self.push_index(row, column), self.replica.own(column)),
            Due::Append => Deed::Append(Record::Entry(self.replica.next_entry())),
            Due::Vote => Deed::Append(Record::Vote(self.next_vote())),
            Due::Give => Deed::Give { late: row },
            Due::Take => Deed::Take,
            Due::Act(_) => Deed::Act(
                self.look_index(self.me(), BEAT_COLUMN),
                self.replica.acts_after(),
            ),
        }
    }

    /// The entry of its history that the member, which has not ended, appends next; `None` where its next deed is
    /// no append, or one of a vote.
    #[inline]
    pub fn next_entry(&self) -> Option<&Entry>
        requires going { self.now.replica.end ≡ None }
        ensures { option_map (λ entry. entry.now) result ≡ appended_entry (next_deed self.now) }
    {
        match due_at(&self.replica, &self.fate, self.place) {
            Due::Append => Some(&self.replica.history()[self.replica.logged() as usize]),
            _ => None,
        }
    }

    /// Takes the word that its look saw. The word is in form, and has grown from the one last seen.
    pub fn looked(&mut self, word: u64)
        requires { MaySee self.old (step_of_member self.old) word }
        ensures after { self.new ≡ after_step word self.old }
        ensures form { IsRunningMember self.new }
        ensures grown { NoWordFell self.old.replica self.new.replica }
        ensures falls { deeds_left self.new < deeds_left self.old }
        ensures keeps { IsStill self.old self.new }
    {
        let Place { row, column, .. } = self.place;
        let next = column + 1;
        if next < self.bases.columns {
            // The place is written before the word, so that it needn't be read again.
            self.place.column = next;
            self.replica.look(row, column, word);
        } else {
            self.looked_last(word);
        }
    }

    /// Takes the word of the last look of a row. Out of line, it leaves the others a small loop.
    #[inline(never)]
    fn looked_last(&mut self, word: u64)
        requires sees { MaySee self.old (step_of_member self.old) word }
        requires last { columns self.old ≤ self.old.place.column + 1 }
        ensures after { self.new ≡ after_step word self.old }
        ensures form { IsRunningMember self.new }
        ensures grown { NoWordFell self.old.replica self.new.replica }
        ensures falls { deeds_left self.new < deeds_left self.old }
        ensures keeps { IsStill self.old self.new }
    {
        let Place { row, column, .. } = self.place;
        self.replica.look(row, column, word);
        self.replica.wait_for(&mut self.fate.waits, row);
        leave_row(&self.replica, &self.fate, &mut self.place, &mut self.ready);
    }

    /// Takes note that its push was done.
    pub fn pushed(&mut self)
        requires { is_push (next_deed self.old) ≡ true }
        ensures after { (word : ℕ) → self.new ≡ after_step word self.old }
        ensures form { IsRunningMember self.new }
        ensures grown { NoWordFell self.old.replica self.new.replica }
        ensures falls { deeds_left self.new < deeds_left self.old }
        ensures keeps { IsStill self.old self.new }
    {
        let Place {
            row: to,
            column,
            ..
        } = self.place;
        let columns = self.bases.columns;
        // Sought before the push is noted, so that what both read is read once.
        let next = next_changed(&self.replica, columns, to, column + 1);
        self.replica.push(to, column);
        self.fate.pushes = self.fate.pushes.saturating_add(1);
        if next < columns {
            self.place.column = next;
        } else {
            leave_row(&self.replica, &self.fate, &mut self.place, &mut self.ready);
        }
    }

    /// Does its act, whose beat word was stored. The act that ends a view leads it into the next one, whose
    /// words stand in another bank of the table.
    #[inline(never)]
    pub fn acted(&mut self)
        requires { is_act (next_deed self.old) ≡ true }
        ensures after { (word : ℕ) → self.new ≡ after_step word self.old }
        ensures form { IsRunningMember self.new }
        ensures grown { HasGrownTo self.old self.new }
        ensures falls { deeds_left self.new < deeds_left self.old }
        ensures keeps { IsStill self.old self.new }
    {
        match self.place.part {
            RECEIVES => self.act(Act::Receive {
                sender: self.place.row,
            }),
            SENDS => self.act(Act::Send),
            DELIVERS => self.act(Act::Deliver),
            PUBLISHES => self.act(Act::Publish),
            REPORTS => self.act(Act::Report),
            BEAT => self.beat(),
            _ => self.act_at_place(),
        }
    }

    /// Begins a turn. Out of line, it leaves the acts that come up most small.
    #[inline(never)]
    fn beat(&mut self)
        requires deed { is_act (next_deed self.old) ≡ true }
        requires step { next_step self.old ≡ Do Beat }
        ensures after { (word : ℕ) → self.new ≡ after_step word self.old }
        ensures form { IsRunningMember self.new }
        ensures grown { HasGrownTo self.old self.new }
        ensures falls { deeds_left self.new < deeds_left self.old }
        ensures keeps { IsStill self.old self.new }
    {
        self.act(Act::Beat);
    }

    /// Does the act of a part that comes up rarely. Out of line, it leaves the others small.
    #[inline(never)]
    fn act_at_place(&mut self)
        requires { is_act (next_deed self.old) ≡ true }
        ensures after { (word : ℕ) → self.new ≡ after_step word self.old }
        ensures form { IsRunningMember self.new }
        ensures grown { HasGrownTo self.old self.new }
        ensures falls { deeds_left self.new < deeds_left self.old }
        ensures keeps { IsStill self.old self.new }
    {
        if let Due::Act(act) = due_at(&self.replica, &self.fate, self.place) {
            self.act(act);
        }
    }

    /// Does this act, which is due. Each call has its own copy of it, in which the act is known.
    #[inline(always)]
    fn act(&mut self, act: Act)
        requires deed { is_act (next_deed self.old) ≡ true }
        requires step { next_step self.old ≡ Do act }
        ensures after { (word : ℕ) → self.new ≡ after_step word self.old }
        ensures form { IsRunningMember self.new }
        ensures grown { HasGrownTo self.old self.new }
        ensures falls { deeds_left self.new < deeds_left self.old }
        ensures keeps { IsStill self.old self.new }
    {
        go(&self.replica.shape(), &mut self.place);
        // Known where this is called, the part is not read again behind the act.
        let part = self.place.part;
        take_act(
            act,
            &mut self.replica,
            &mut self.fate,
            &mut self.bases,
            &mut self.ready,
        );
        let inside = is_inside_after(&self.replica, act);
        settle(
            &self.replica,
            &self.fate,
            &mut self.place,
            &mut self.ready,
            inside,
            part,
        );
    }

    /// Writes the letter that it gives: its history up to and with its last View. An empty list with room for a
    /// whole history takes it.
    pub fn letter(&self, into: &mut Vec<Entry>)
        requires empty { into.old.items ≡ [] }
        requires room { self.now.replica.room ≤ vec_capacity into.old }
        ensures { into.new.items ≡ up_to_view self.now.replica.history }
    {
        self.replica.write_letter(into);
    }

    /// Takes note that its letter was given to the member of its place's row.
    #[inline(never)]
    pub fn given(&mut self)
        requires { is_give (next_deed self.old) ≡ true }
        ensures after { (word : ℕ) → self.new ≡ after_step word self.old }
        ensures form { IsRunningMember self.new }
        ensures grown { NoWordFell self.old.replica self.new.replica }
        ensures falls { deeds_left self.new < deeds_left self.old }
        ensures keeps { IsStill self.old self.new }
    {
        let newcomer = self.place.row;
        go(&self.replica.shape(), &mut self.place);
        self.replica.give(newcomer);
        let inside = self.replica.is_inside();
        let part = self.place.part;
        settle(
            &self.replica,
            &self.fate,
            &mut self.place,
            &mut self.ready,
            inside,
            part,
        );
    }

    /// Takes its letter, if there is one: it comes into the view that the letter ends with, whose words stand in
    /// another bank of the table, and waits anew.
    #[inline(never)]
    pub fn taken(&mut self, letter: Option<&[Entry]>)
        requires due { is_take (next_deed self.old) ≡ true }
        requires fitting { IfSome letter (λ list. IsFitting self.old.replica list.now) }
        ensures after { self.new ≡ settled (took_letter (option_map (λ list. list.now) letter.entry) self.old) }
        ensures form { IsRunningMember self.new }
        ensures falls { deeds_left self.new < deeds_left self.old }
        ensures keeps { IsStill self.old self.new }
    {
        go(&self.replica.shape(), &mut self.place);
        take_letter(letter, &mut self.replica, &mut self.fate, &mut self.bases);
        let inside = self.replica.is_inside();
        let part = self.place.part;
        settle(
            &self.replica,
            &self.fate,
            &mut self.place,
            &mut self.ready,
            inside,
            part,
        );
    }

    /// Takes note that its log has the record that it appended.
    #[inline(never)]
    pub fn appended(&mut self)
        requires { is_append (next_deed self.old) ≡ true }
        ensures after { (word : ℕ) → self.new ≡ after_step word self.old }
        ensures form { IsRunningMember self.new }
        ensures grown { NoWordFell self.old.replica self.new.replica }
        ensures falls { deeds_left self.new < deeds_left self.old }
        ensures keeps { IsStill self.old self.new }
    {
        match *part_of(self.place) {
            Part::Vote => self.vote_appended(),
            _ => self.entry_appended(),
        }
    }

    /// Takes note that the append to its log failed, and why. Its next deed is its end.
    #[inline(never)]
    pub fn append_failed(&mut self, why: &LogWhy)
        requires { is_append (next_deed self.old) ≡ true }
        ensures after { self.new ≡ broken_off why.now self.old }
        ensures form { IsRunningMember self.new }
        ensures grown { NoWordFell self.old.replica self.new.replica }
        ensures falls { deeds_left self.new < deeds_left self.old }
        ensures keeps { IsStill self.old self.new }
        ensures ends { next_step self.new ≡ Do (Crash (end_by why.now)) }
    {
        self.fate.failed = Some(*why);
    }

    /// How it ended; `None` exactly where it hasn't ended.
    pub fn end(&self) -> Option<End>
        ensures end { result ≡ self.now.replica.end }
        ensures form { IsRunningMember self.now }
    {
        self.replica.end()
    }

    /// Whether it has ended, or stands before a turn.
    pub fn is_between_turns(&self) -> bool
        ensures { result ≡ is_between_turns (Some self.now) }
    {
        self.replica.end().is_some() || self.place.part == BEAT
    }

    /// Whether it has no end and stands before a turn.
    pub fn at_beat(&self) -> bool
        ensures { result ≡ is_before_turn self.now }
    {
        self.replica.end().is_none() && self.place.part == BEAT
    }

    /// Its number.
    pub fn me(&self) -> u8
        ensures { result ≡ me self.now.replica }
    {
        self.replica.me()
    }

    /// The late members of its age.
    pub fn late(&self) -> Mask
        ensures { result ≡ self.now.replica.late }
    {
        self.replica.late()
    }

    /// The turns that it has begun.
    pub fn turns(&self) -> u32
        ensures { result ≡ self.now.replica.turns }
    {
        self.replica.turns()
    }

    /// The number of its acts after one more, which is what that act's beat word says.
    pub fn acts_after(&self) -> u64
        ensures { result ≡ one_more 64 self.now.replica.acts }
    {
        self.replica.acts_after()
    }

    /// The number of words of its group's table.
    pub fn table_words(&self) -> usize
        ensures { result ≡ table_size self.now }
    {
        self.replica.shape().words()
    }

    /// Its history.
    pub fn history(&self) -> &[Entry]
        ensures { result.now ≡ self.now.replica.history }
    {
        self.replica.history()
    }

    /// The number of entries on its log.
    pub fn logged(&self) -> u64
        ensures { result ≡ self.now.replica.logged }
    {
        self.replica.logged()
    }

    /// The entries of its history that are not on its log.
    pub fn entries_due(&self) -> &[Entry]
        ensures { result.now ≡ drop self.now.replica.logged self.now.replica.history }
    {
        &self.replica.history()[self.replica.logged() as usize..]
    }

    /// How many entries more its log may get in this age.
    pub fn appends_left(&self) -> usize
        ensures { result ≡ self.now.replica.room - self.now.replica.logged }
    {
        self.replica.appends_left()
    }

    /// How many votes more its log may get in this age.
    pub fn votes_left(&self) -> usize
        ensures { result ≡ self.now.replica.banks * self.now.replica.roster
            - length self.now.replica.votes }
    {
        self.replica.votes_left()
    }

    /// The number of entries that it reported durable.
    pub fn durable(&self) -> u64
        ensures { result ≡ self.now.replica.durable }
    {
        self.replica.durable()
    }

    /// How it ended its age. It has ended.
    pub fn into_end(self) -> MemberEnd
        requires { is_some self.replica.end ≡ true }
        ensures { result ≡ end_of self }
    {
        self.replica.into_end()
    }

    /// Takes note that its log has the next entry of its history. It then stands where it publishes that, so
    /// there is nothing to seek.
    #[inline(always)]
    fn entry_appended(&mut self)
        requires due { is_append (next_deed self.old) ≡ true }
        requires at { part_of self.old.place ≢ parts.Vote }
        ensures after { (word : ℕ) → self.new ≡ after_step word self.old }
        ensures form { IsRunningMember self.new }
        ensures grown { NoWordFell self.old.replica self.new.replica }
        ensures falls { deeds_left self.new < deeds_left self.old }
        ensures keeps { IsStill self.old self.new }
    {
        go(&self.replica.shape(), &mut self.place);
        self.replica.append();
    }

    /// The vote that is due. Out of line, as few members vote.
    #[inline(never)]
    fn next_vote(&self) -> Vote
        requires { is_wedged self.now.replica ≡ true }
        ensures { result ≡ vote_of self.now.replica (value_due self.now.replica) }
    {
        self.replica.vote_of(self.replica.value_due())
    }

    /// Takes note that its log has its vote. Out of line, as few members vote.
    #[inline(never)]
    fn vote_appended(&mut self)
        requires due { is_append (next_deed self.old) ≡ true }
        requires at { part_of self.old.place ≡ parts.Vote }
        ensures after { (word : ℕ) → self.new ≡ after_step word self.old }
        ensures form { IsRunningMember self.new }
        ensures grown { NoWordFell self.old.replica self.new.replica }
        ensures falls { deeds_left self.new < deeds_left self.old }
        ensures keeps { IsStill self.old self.new }
    {
        go(&self.replica.shape(), &mut self.place);
        let value = self.replica.value_due();
        self.replica.vote(value);
        let inside = self.replica.is_inside();
        let part = self.place.part;
        settle(
            &self.replica,
            &self.fate,
            &mut self.place,
            &mut self.ready,
            inside,
            part,
        );
    }

    /// The deed that is due at a push: the push, or the end of a member that crashes just before it.
    #[inline(always)]
    fn push_deed(&self, to: u8, column: usize) -> Deed
        requires to { to < members self.now }
        requires column { column < columns self.now }
        ensures deed { result ≡ deed_of self.now (push_or_crash (crashes_now self.now) to column) }
        ensures within { IsWithin (table_size self.now) result }
    {
        if self.fate.crashes_now() {
            return Deed::Act(
                self.look_index(self.me(), BEAT_COLUMN),
                self.replica.acts_after(),
            );
        }
        Deed::Push(self.push_index(to, column), self.replica.own(column))
    }

    /// The index in the table of a word that the member sees, in its own copy.
    #[inline]
    fn look_index(&self, row: u8, column: usize) -> usize
        requires row { row < members self.now }
        requires column { column < columns self.now }
        ensures index { result ≡ index_in self.now.replica (me self.now.replica) row column }
        ensures within { result < table_size self.now }
    {
        self.bases.looks[usize::from(row)] + column
    }

    /// The index in the table of the member's word of a column, in the copy of the member `to`.
    #[inline]
    fn push_index(&self, to: u8, column: usize) -> usize
        requires to { to < members self.now }
        requires column { column < columns self.now }
        ensures index { result ≡ index_in self.now.replica to (me self.now.replica) column }
        ensures within { result < table_size self.now }
    {
        self.bases.pushes[usize::from(to)] + column
    }
}
