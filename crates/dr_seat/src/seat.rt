//! A seat.
ghost use Rattle.std.specs.Prelude.{◌≡◌, ◌≢◌, ◌⊎◌, ◌↔◌, ◌+◌, ◌<◌, ◌≤◌, None, Some, false, true, IfErr, IfOk, IfSome, IsTrue, OnErr, OnOk, ℕ, length, option_copied, slice_get};
ghost use Rattle.std.specs.{Borrow.sem, Io.BufRead.Rests};
ghost use Rattle.dr_desk.specs.declared.Task.{Task};
ghost use Rattle.dr_history.specs.Members.{has};
ghost use Rattle.dr_log_bytes.specs.Grammar.{StandFor};
ghost use Rattle.dr_packet.specs.Packets.{IsFault, IsPacket, IsShort};
ghost use Rattle.dr_program.specs.Running.{end_by};
ghost use Rattle.dr_seat.specs.{Duties.{HasNumber, IsDueOn, IsNoCall}, Opened.{IsLogFault, IsOpenFault, fault_by}, Roles.IsMine, Starting.IsFitStart};
ghost use Rattle.dr_seat.specs.Seats.{AreFitHere, AreUnfit, Gathers, IsCallDone, IsDue, IsFree, IsHeard, IsNext, IsOpen, IsOpenedBy, IsRefused, IsSpent, IsTaken, IsTold, IsUnheard, KeepsDue, MayFail, MayGoWithout, MayTellAgain, age_by, age_run, durable_by, history_of, logged_by, on_log, stage_of, turns_by};
ghost use Rattle.dr_seat.specs.contracts.seat.Seat.{the_row};
ghost use Rattle.dr_seat.specs.declared.due.Pending.TheVariants as kinds;
ghost use Rattle.dr_seat.specs.declared.faults.Refused.TheVariants as why;

use crate::book::{Book, Rising, Unwritten};
use crate::card::{NEW_LOG, read_card};
use crate::choosing::{Unchosen, choose_of};
use crate::due::{Due, Duty, Pending, Stage, Standing};
use crate::faults::{NotDue, OpenFault, Refused};
use crate::gathering::{Fitting, Gathering};
use crate::opening::Opening;
use crate::plan::Plan;
use crate::post::Post;
use crate::role::Role;
use crate::run::Run;
use crate::trial::{Next, Step, Trial};
use crate::words::Words;
use dr_desk::{Desk, Task};
use dr_door::LogWhy;
use dr_entry::{End, Entry};
use dr_log::{Log, MountWhy};
use dr_packet::{Call, Far, PART, PacketFault, Says, Way};
use dr_quorum::ChooseFault;
use dr_restart::Start;
use dr_words::Mask;
use std::alloc::Global;
use std::marker::Model;

/// The most bytes of a log: 2,147,483,648.
const LOG_LIMIT: u64 = 1 << 31;

/// After so many ticks all last words are sent again.
const AGAIN: u64 = 8;

/// One member of a group, from its log to its last delivery.
#[derive(Drop)]
pub struct Seat {
    alloc: Global,
    opening: Opening,
    book: Book,
    gathering: Gathering,
    /// Its member, while an age runs here.
    run: Option<Run>,
    post: Post,
    duty: Duty,
    /// Whether the end of its log was told.
    is_end_told: bool,
    ticks: u64,
    /// How many entries were known to be durable in the ages before.
    durable: u64,
}

impl Model for Seat {
    ghost use Rattle.dr_seat.specs.Seats.{SeatOf};

    ghost Value = { SeatOf };

    ghost use Rattle.dr_seat.specs.Inside.{IsInOrder, seat_inside};

    ghost view = { seat_inside };

    ghost invariant = { IsInOrder };
}

impl Seat {
    /// The seat of a member of a plan, by its card and its log. It is in no age yet.
    ///
    /// # Errors
    ///
    /// What is wrong with the card, else with the log; or want of memory.
    pub fn open(alloc: Global, plan: Plan, card: &[u8], log: &[u8]) -> Result<Seat, OpenFault>
        ensures opened { IfOk result (IsOpenedBy plan card.now log.now) }
        ensures fault { IfErr result (IsOpenFault plan card.now log.now) }
    {
        let (seal, me) = read_card(&plan, card)?;
        let log = mount(alloc, log)?;
        let ages = ages_on(&log);
        let role = Role::of(plan.script, seal, me);
        let gathering = Gathering::new(alloc)?;
        let mut seat = Seat {
            alloc,
            opening: Opening::of(role),
            book: Book::of(log),
            gathering,
            run: None,
            post: Post::new(ages),
            duty: Duty::none(),
            is_end_told: false,
            ticks: 0,
            durable: 0,
        };
        seat.gather();
        Ok(seat)
    }

    /// An opening begins anew, which goes without these members. What its member did in an age has ended.
    ///
    /// # Errors
    ///
    /// Exactly where the others are no majority, or the seat's member is among these, or its log has failed. Nothing
    /// has changed then.
    pub fn without(&mut self, missing: Mask) -> Result<(), NotDue>
        ensures may { OnOk result (MayGoWithout self.old missing) }
        ensures may_not { OnErr result (¬ MayGoWithout self.old missing) }
        ensures gathers { OnOk result (Gathers self.new) }
        ensures due { KeepsDue self.old self.new }
        ensures log { on_log self.new ≡ on_log self.old }
        ensures stays { OnErr result (self.new ≡ self.old) }
    {
        if !self.may_go_without(missing) {
            return Err(NotDue);
        }
        self.gathering.go_without(missing);
        self.gather();
        Ok(())
    }

    /// What is due: the same until it is answered. Each thing has a number that none has had before.
    pub fn next(&mut self) -> Due<'_>
        ensures same { ¬ IsFree self.old → IsTold self.old result }
        ensures number { IsFree self.old → HasNumber (self.old.duty.number + 1) result }
        ensures* told { sem 𝓛 (Rests the_row self.entry (λ new. IsNext self.old new result)) }
    {
        self.seek();
        self.due()
    }

    /// What is due, where it was sought.
    fn due(&self) -> Due<'_>
        ensures { IsTold self.now result }
    {
        let number = self.duty.number();
        match self.duty.pending() {
            Pending::Nothing => Due::Wait,
            Pending::Task(Task::Sync) => Due::Sync { number },
            Pending::Task(Task::Write { from, to }) => Due::Write {
                number,
                at: from,
                bytes: self.book.part(from, to),
            },
            Pending::Send(to) => Due::Send {
                number,
                to,
                packet: self.post.packet(),
            },
            Pending::End(end) => Due::End { number, end },
        }
    }

    /// Takes note that what has this number is done: its bytes are written, all is synced, the packet is on its way,
    /// the end is known.
    ///
    /// # Errors
    ///
    /// Exactly where nothing with this number is due. Nothing has changed then.
    pub fn did(&mut self, number: u64) -> Result<(), NotDue>
        ensures due { OnOk result (IsDue self.old number) }
        ensures not_due { OnErr result (¬ IsDue self.old number) }
        ensures free { OnOk result (IsFree self.new) }
        ensures number { OnOk result (self.new.duty.number ≡ number) }
        ensures log { on_log self.new ≡ on_log self.old }
        ensures call { OnOk result ((task : Task) → self.old.duty.pending ≡ kinds.Task task
            → IsCallDone self.old self.new) }
        ensures sent { OnOk result ((to : ℕ) → self.old.duty.pending ≡ kinds.Send to → IsSpent self.old self.new) }
        ensures stays { OnErr result (self.new ≡ self.old) }
    {
        let pending = match self.duty.answer(number) {
            Ok(pending) => pending,
            Err(fault) => return Err(fault),
        };
        self.answered(pending);
        Ok(())
    }

    /// Takes note that what has this number failed, and why. A packet counts as lost. Of a write or a sync what the
    /// disk has is not known: the seat does nothing more.
    ///
    /// # Errors
    ///
    /// Exactly where nothing with this number is due that can fail. Nothing has changed then.
    pub fn failed(&mut self, number: u64, why: LogWhy) -> Result<(), NotDue>
        ensures due { OnOk result (MayFail self.old number) }
        ensures not_due { OnErr result (¬ MayFail self.old number) }
        ensures free { OnOk result (IsFree self.new) }
        ensures number { OnOk result (self.new.duty.number ≡ number) }
        ensures log { on_log self.new ≡ on_log self.old }
        ensures broken { OnOk result ((task : Task) → self.old.duty.pending ≡ kinds.Task task
            → self.new.book.stop ≡ Some (end_by why)) }
        ensures lost { OnOk result ((to : ℕ) → self.old.duty.pending ≡ kinds.Send to → IsSpent self.old self.new) }
        ensures stays { OnErr result (self.new ≡ self.old) }
    {
        if !self.duty.can_fail() {
            return Err(NotDue);
        }
        let pending = match self.duty.answer(number) {
            Ok(pending) => pending,
            Err(fault) => return Err(fault),
        };
        self.unanswered(pending, why);
        Ok(())
    }

    /// Takes a packet, whoever sent it. Answers whether it is news.
    ///
    /// # Errors
    ///
    /// What is wrong with it. Nothing has changed then, unless memory was wanting.
    pub fn came(&mut self, packet: &[u8]) -> Result<bool, Refused>
        ensures taken { OnOk result (IsTaken self.old packet.now) }
        ensures fault { IfErr result (IsRefused self.old packet.now) }
        ensures stays { IfErr result (λ fault. fault ≢ why.OutOfMemory → self.new ≡ self.old) }
        ensures due { KeepsDue self.old self.new }
    {
        let (way, says) = match self.read(packet) {
            Ok(read) => read,
            Err(fault) => return Err(Refused::Packet(fault)),
        };
        if !self.is_mine(&way) {
            return Err(Refused::NotMine);
        }
        if !self.is_open() {
            return Err(Refused::Ended);
        }
        self.hear(&way, &says)
    }

    /// What a packet of its group and plan says, and which way it goes.
    ///
    /// # Errors
    ///
    /// A [`PacketFault`], the first in their order.
    fn read<'a>(&self, packet: &'a [u8]) -> Result<(Way, Says<'a>), PacketFault>
        ensures packet { IfOk result (λ read. IsPacket self.now.opening.role.seal packet.now read.0 read.1) }
        ensures fault { IfErr result (IsFault self.now.opening.role.seal packet.now) }
    {
        self.opening.role().read(packet)
    }

    /// Whether what goes this way is for its member, and by another one of the group.
    fn is_mine(&self, way: &Way) -> bool
        ensures mine { IsTrue result ↔ IsMine self.now.opening.role way.now }
        ensures number { IsTrue result → way.now.from < 16 }
    {
        self.opening.role().is_mine(way)
    }

    /// Whether its log hasn't failed.
    fn is_open(&self) -> bool
        ensures { IsTrue result ↔ IsOpen self.now }
    {
        self.book.is_open()
    }

    /// All last words for this member are due once more.
    pub fn again(&mut self, to: u8)
        ensures owed { MayTellAgain self.old to → has self.new.post.words to ≡ true }
        ensures stays { ¬ MayTellAgain self.old to → self.new ≡ self.old }
        ensures due { KeepsDue self.old self.new }
        ensures rest { self.new ≡ record self.old { post = self.new.post } }
    {
        if self.run.is_some() && self.opening.role().is_other(to) && self.opening.others().has(to) {
            self.post.owe_words(to);
        }
    }

    /// A turn begins, or what an opening waits for is asked again.
    ///
    /// # Errors
    ///
    /// Exactly where something is due, or its log has failed. No turn has begun then.
    pub fn tick(&mut self) -> Result<(), NotDue>
        ensures free { OnOk result (IsFree self.new) }
        ensures open { OnOk result (IsOpen self.old) }
        ensures not_due { OnErr result (IsOpen self.old → ¬ IsFree self.new) }
        ensures number { OnOk result (self.new.duty.number ≡ self.old.duty.number) }
        ensures stays { OnErr result (¬ IsFree self.old → self.new ≡ self.old) }
    {
        if !self.book.is_open() {
            return Err(NotDue);
        }
        self.seek();
        if !self.duty.is_free() {
            return Err(NotDue);
        }
        self.ticks = self.ticks.wrapping_add(1);
        let others = self.opening.others();
        if let Some(run) = &mut self.run {
            run.turn();
            if self.ticks % AGAIN == 0 {
                self.post.owe_all_words(others);
            }
        } else if self.opening.trial().is_some() {
            self.post.owe_tries(others);
        } else {
            self.post.owe_asks(self.opening.role().others());
            self.gathering.seek();
        }
        Ok(())
    }

    /// Where it stands.
    pub fn standing(&self) -> Standing
        ensures stage { result.stage ≡ stage_of self.now }
        ensures me { result.me ≡ self.now.opening.role.me }
        ensures age { result.age ≡ age_by self.now.opening.trial }
        ensures turns { result.turns ≡ turns_by self.now.run }
        ensures entries { result.entries ≡ length (history_of self.now) }
        ensures logged { result.logged ≡ logged_by (on_log self.now).entries self.now.run }
        ensures durable { result.durable ≡ durable_by self.now.durable self.now.run }
        ensures why { result.why ≡ self.now.gathering.why }
    {
        let (age, members) = match self.opening.trial() {
            Some(trial) => (trial.call.age, trial.call.set),
            None => (0, self.gathering.ready(self.opening.role()).bits()),
        };
        let (turns, entries, logged) = match &self.run {
            Some(run) => (run.turns(), run.history().len() as u64, run.logged()),
            None => {
                let entries = self.book.log().entries().len() as u64;
                (0, entries, entries)
            }
        };
        Standing {
            stage: self.stage(),
            me: self.opening.role().me,
            age,
            members,
            turns,
            entries,
            logged,
            durable: self.durable(),
            why: self.gathering.why(),
        }
    }

    /// The entry of this number of its history, from 0.
    pub fn entry(&self, number: usize) -> Option<&Entry>
        ensures { option_copied result ≡ slice_get (history_of self.now) number }
    {
        match &self.run {
            Some(run) => run.history().get(number),
            None => self.book.log().entries().get(number),
        }
    }

    /// How many entries are known to be durable.
    fn durable(&self) -> u64
        ensures { result ≡ durable_by self.now.durable self.now.run }
    {
        match &self.run {
            Some(run) => self.durable.max(run.durable()),
            None => self.durable,
        }
    }

    /// What it is about.
    fn stage(&self) -> Stage
        ensures { result ≡ stage_of self.now }
    {
        if !self.book.is_open() {
            return Stage::Broken;
        }
        match &self.run {
            Some(run) if run.end().is_some() => Stage::Ended,
            Some(_) => Stage::Runs,
            None if self.opening.trial().is_some() => Stage::Tries,
            None => Stage::Gathers,
        }
    }

    /// Whether an opening may go without these members.
    fn may_go_without(&self, missing: Mask) -> bool
        ensures { IsTrue result ↔ MayGoWithout self.now missing }
    {
        self.book.is_open() && self.opening.role().may_lack(missing)
    }

    // ---- what is due

    /// What was due is done.
    fn answered(&mut self, pending: Pending)
        requires free { IsFree self.old }
        ensures duty { self.new.duty ≡ self.old.duty }
        ensures log { on_log self.new ≡ on_log self.old }
        ensures call { (task : Task) → pending ≡ kinds.Task task → IsCallDone self.old self.new }
        ensures sent { (to : ℕ) → pending ≡ kinds.Send to → IsSpent self.old self.new }
    {
        match pending {
            Pending::Task(_) => {
                if self.book.did() {
                    self.settle();
                }
            }
            Pending::Send(_) => self.post.clear(),
            Pending::End(_) => self.end_told(),
            Pending::Nothing => {}
        }
    }

    /// What was due has failed.
    fn unanswered(&mut self, pending: Pending, why: LogWhy)
        requires free { IsFree self.old }
        ensures duty { self.new.duty ≡ self.old.duty }
        ensures log { on_log self.new ≡ on_log self.old }
        ensures broken { (task : Task) → pending ≡ kinds.Task task → self.new.book.stop ≡ Some (end_by why) }
        ensures lost { (to : ℕ) → pending ≡ kinds.Send to → IsSpent self.old self.new }
    {
        match pending {
            Pending::Task(_) => self.book.fail(end_by(why)),
            _ => self.post.clear(),
        }
    }

    /// Finds what is due, where nothing was.
    fn seek(&mut self)
        ensures stays { ¬ IsFree self.old → self.new ≡ self.old }
        ensures number { IsFree self.old → ¬ IsFree self.new → self.new.duty.number ≡ self.old.duty.number + 1 }
        ensures quiet { IsFree self.new → self.new.duty.number ≡ self.old.duty.number }
        ensures on { IsFree self.old → IsDueOn self.new.book self.new.duty.pending }
    {
        if self.is_free() {
            let pending = self.find_due();
            self.owe(pending);
        }
    }

    /// Whether nothing is due.
    fn is_free(&self) -> bool
        ensures { IsTrue result ↔ IsFree self.now }
    {
        self.duty.is_free()
    }

    /// This is due, with the next number, while there is one.
    fn owe(&mut self, pending: Pending)
        requires free { IsFree self.old }
        requires on { IsDueOn self.old.book pending }
        ensures number { ¬ IsFree self.new → self.new.duty.number ≡ self.old.duty.number + 1 }
        ensures quiet { IsFree self.new → self.new.duty.number ≡ self.old.duty.number }
        ensures on { IsDueOn self.new.book self.new.duty.pending }
    {
        self.duty.begin(pending);
    }

    /// What is due, where nothing was.
    fn find_due(&mut self) -> Pending
        requires free { IsFree self.old }
        ensures duty { self.new.duty ≡ self.old.duty }
        ensures on { IsDueOn self.new.book result }
    {
        if !self.book.is_open() {
            return self.end_due();
        }
        if let Some(task) = self.book.task() {
            return Pending::Task(task);
        }
        let to = self.work();
        if !self.book.is_open() {
            return self.end_due();
        }
        if let Some(task) = self.book.task() {
            return Pending::Task(task);
        }
        if let Some(to) = to {
            return Pending::Send(to);
        }
        match self.pay() {
            Some(to) => Pending::Send(to),
            None => self.end_due(),
        }
    }

    /// The end of its log, or of its member, where it wasn't told.
    fn end_due(&self) -> Pending
        ensures { IsDueOn self.now.book result }
    {
        let end = match (self.book.stop(), &self.run) {
            (Some(end), _) if !self.is_end_told => Some(end),
            (None, Some(run)) => run.end_due(),
            _ => None,
        };
        match end {
            Some(end) => Pending::End(end),
            None => Pending::Nothing,
        }
    }

    /// Takes note that the end was told.
    fn end_told(&mut self)
        ensures duty { self.new.duty ≡ self.old.duty }
        ensures log { on_log self.new ≡ on_log self.old }
    {
        if !self.book.is_open() {
            self.is_end_told = true;
        }
        if let Some(run) = &mut self.run {
            run.end_told();
        }
    }

    /// Does what its stage does. Answers for whom there is a packet then.
    fn work(&mut self) -> Option<u8>
        requires free { IsFree self.old }
        requires open { self.old.book.stop ≡ None }
        ensures { self.new.duty ≡ self.old.duty }
    {
        if self.run.is_some() {
            return self.run_on();
        }
        if self.opening.trial().is_some() {
            self.try_on();
        } else {
            self.gather_on();
        }
        None
    }

    /// The last append is done.
    fn settle(&mut self)
        ensures duty { self.new.duty ≡ self.old.duty }
        ensures book { self.new.book ≡ self.old.book }
    {
        match &mut self.run {
            Some(run) => run.settle(),
            None => {
                self.opening.settle();
                self.post.owe_tries(self.opening.others());
            }
        }
    }

    // ---- an age

    /// Does what is due in its age, up to an append, a packet or a turn's end. Answers for whom there is a packet.
    fn run_on(&mut self) -> Option<u8>
        requires free { IsFree self.old }
        requires open { self.old.book.stop ≡ None }
        ensures { self.new.duty ≡ self.old.duty }
    {
        let (Some(run), Some(trial)) = (&mut self.run, self.opening.trial()) else {
            return None;
        };
        if let Err(Unwritten::OutOfMemory) = run.go_on(&mut self.book) {
            self.gathering.because(Some(ChooseFault::OutOfMemory));
        }
        let to = run.receiver()?;
        let says = Says::Words {
            age: trial.call.age,
            words: run.batch(),
        };
        self.post.write(self.opening.role(), to, &says);
        run.sent();
        Some(to)
    }

    /// Takes words of a member.
    fn words(&mut self, from: u8, age: u16, words: &[u8]) -> Result<bool, Refused>
        ensures fit { OnOk result (AreFitHere self.old from age words.now) }
        ensures fault { IfErr result (AreUnfit self.old from age words.now) }
        ensures stays { OnErr result (self.new ≡ self.old) }
        ensures due { KeepsDue self.old self.new }
    {
        if self.age_run() != Some(age) {
            return Err(Refused::OtherAge { age });
        }
        let Some(run) = &mut self.run else {
            return Err(Refused::OtherAge { age });
        };
        run.take(from, words)
    }

    /// The age in which its member runs, or has ended.
    fn age_run(&self) -> Option<u16>
        ensures { result ≡ age_run self.now }
    {
        match (&self.run, self.opening.trial()) {
            (Some(_), Some(trial)) => Some(trial.call.age),
            _ => None,
        }
    }

    // ---- an opening

    /// It gathers logs, from none on. Its member's age has ended for it.
    fn gather(&mut self)
        ensures book { self.new.book ≡ self.old.book }
        ensures role { self.new.opening.role ≡ self.old.opening.role }
        ensures gathers { Gathers self.new }
        ensures due { KeepsDue self.old self.new }
    {
        self.durable = self.durable();
        self.run = None;
        self.opening.leave();
        self.gathering.anew();
        self.post.anew(self.opening.role().others());
    }

    /// Takes what another member says.
    fn hear(&mut self, way: &Way, says: &Says) -> Result<bool, Refused>
        requires open { self.old.book.stop ≡ None }
        requires from { way.now.from < 16 }
        ensures heard { OnOk result (IsHeard self.old way.now.from says.now) }
        ensures fault { IfErr result (IsUnheard self.old way.now.from says.now) }
        ensures stays { IfErr result (λ fault. fault ≢ why.OutOfMemory → self.new ≡ self.old) }
        ensures due { KeepsDue self.old self.new }
    {
        if let Says::Words { age, words } = says {
            return self.words(way.from, *age, words);
        }
        self.post.hear(way.ages);
        if self.opening.is_behind(way.ages) {
            self.gather();
        }
        match says {
            Says::Ask { length, at } => Ok(self.asked(way, *length, *at)),
            Says::Hand { length, at, bytes } => self.handed(way.from, *length, *at, bytes),
            Says::Try { call, far } => Ok(self.called(way.from, call, *far)),
            Says::Words { .. } => Ok(false),
        }
    }

    /// Another member asks for its log, and hands in its own with so many bytes.
    fn asked(&mut self, way: &Way, length: u64, at: u64) -> bool
        requires { way.now.from < 16 }
        ensures { KeepsDue self.old self.new }
    {
        let from = way.from;
        if self.run.is_some() && !self.opening.is_known(way.ages) {
            // It is told of the age, and asks again.
            self.post.owe_try(from);
            return false;
        }
        if self.run.is_some() || self.opening.is_left_by(from, length) {
            self.gather();
        }
        if self.opening.trial().is_some() {
            self.post.owe_try(from);
        }
        self.post.owe_hand(from, at);
        true
    }

    /// Another member hands in a part of its log, which has so many bytes.
    fn handed(&mut self, from: u8, length: u64, at: u64, part: &[u8]) -> Result<bool, Refused>
        requires { from < 16 }
        ensures fault { IfErr result (λ fault. fault ≡ why.OutOfMemory) }
        ensures due { KeepsDue self.old self.new }
    {
        if self.run.is_some() {
            return Ok(false);
        }
        if self.opening.is_left_by(from, length) {
            self.gather();
        }
        if self.opening.trial().is_some() {
            return Ok(false);
        }
        let Ok(taken) = self.gathering.take(from, length, at, part) else {
            return Err(Refused::OutOfMemory);
        };
        if taken.wants_more {
            self.post.owe_ask(from);
        }
        Ok(taken.is_news)
    }

    /// Another member is so far with a try.
    fn called(&mut self, from: u8, call: &Call, far: Far) -> bool
        requires open { self.old.book.stop ≡ None }
        requires from { from < 16 }
        ensures { KeepsDue self.old self.new }
    {
        if self.opening.trial().is_none() {
            self.follow(call);
        }
        let Some(trial) = self.opening.trial() else {
            return false;
        };
        if trial.call != *call {
            if trial.call.age < call.age {
                self.gather();
            }
            return false;
        }
        if self.run.is_some() {
            if far != Far::Up {
                self.post.owe_try(from);
            }
            return false;
        }
        self.opening.count(from, far)
    }

    /// Its log is handed in; and where it is the least of those that have handed in theirs, and waits for nobody, it
    /// calls them to a try.
    fn gather_on(&mut self)
        requires free { IsFree self.old }
        requires open { self.old.book.stop ≡ None }
        ensures { self.new.duty ≡ self.old.duty }
    {
        self.gathering.hand_in(self.book.log().len());
        if let Some(set) = self.gathering.called(self.opening.role()) {
            let lengths = self.gathering.lengths(self.opening.role(), set);
            if let Some(start) = self.choose(set) {
                self.vote(set, &lengths, start);
            }
        }
    }

    /// Takes part in a try to which another calls, where it has the same logs, and they make the same age.
    fn follow(&mut self, call: &Call)
        requires open { self.old.book.stop ≡ None }
        ensures { KeepsDue self.old self.new }
    {
        if self.book.task().is_some() {
            return;
        }
        match self.gathering.fitting(self.opening.role(), call) {
            Fitting::Differs => {}
            Fitting::Lacks(member) => self.post.owe_ask(member),
            Fitting::Fits => {
                let set = Mask::of(call.set);
                match self.choose(set) {
                    Some(start) if start.age == call.age => self.vote(set, &call.lengths, start),
                    _ => {}
                }
            }
        }
    }

    /// The start that the logs of a set make, where they make one.
    fn choose(&mut self, set: Mask) -> Option<Start>
        ensures start { IfSome result (IsFitStart self.old.opening.role.script self.old.opening.role.me) }
        ensures opening { self.new.opening ≡ self.old.opening }
        ensures book { self.new.book ≡ self.old.book }
        ensures duty { self.new.duty ≡ self.old.duty }
        ensures packet { self.new.post.packet ≡ self.old.post.packet }
    {
        let role = self.opening.role();
        match choose_of(self.alloc, role, set, self.book.log(), &self.gathering) {
            Ok(start) => Some(start),
            Err(Unchosen::NoLog { member }) => {
                self.gathering.forget(member);
                None
            }
            Err(Unchosen::Fault(why)) => {
                self.gathering.because(Some(why));
                None
            }
        }
    }

    /// Votes for a start, where its log is as it was handed in, and knows no age from this one on.
    fn vote(&mut self, set: Mask, lengths: &[u64; 16], start: Start)
        requires no_call { IsNoCall self.old.duty.pending }
        requires open { self.old.book.stop ≡ None }
        requires fit { IsFitStart self.old.opening.role.script self.old.opening.role.me start }
        ensures duty { self.new.duty ≡ self.old.duty }
        ensures packet { self.new.post.packet ≡ self.old.post.packet }
    {
        if self.book.log().len() != self.gathering.handed()
            || !self.book.knows_none_from(start.age)
        {
            return;
        }
        match self.book.vote(start.age, start.members) {
            Ok(()) => {}
            Err(Unwritten::OutOfMemory) => {
                self.gathering.because(Some(ChooseFault::OutOfMemory));
                return;
            }
            Err(Unwritten::Stopped) => return,
        }
        self.gathering.because(None);
        self.post.hear(u32::from(start.age) + 1);
        let call = Call {
            set: set.bits(),
            lengths: *lengths,
            age: start.age,
        };
        self.opening.enter(Trial { call, start });
    }

    /// Goes on in its try: once all have voted its log is brought up, and once all are up its member begins.
    fn try_on(&mut self)
        requires free { IsFree self.old }
        requires open { self.old.book.stop ≡ None }
        ensures { self.new.duty ≡ self.old.duty }
    {
        match self.opening.progress().next(self.opening.set()) {
            Next::Rises => self.rise(),
            Next::Begins => self.begin(),
            Next::Nothing => {}
        }
    }

    /// Brings its log up to the start, and puts View 0 behind it; or cuts it back first.
    fn rise(&mut self)
        requires free { IsFree self.old }
        requires open { self.old.book.stop ≡ None }
        ensures { self.new.duty ≡ self.old.duty }
    {
        let Some(trial) = self.opening.trial() else {
            return;
        };
        match self.book.bring_up(&trial.start) {
            Ok(Rising::Cuts) => self.opening.writes(Step::Cuts),
            Ok(Rising::Rises) => self.opening.writes(Step::Rises),
            Err(Unwritten::OutOfMemory) => self.gathering.because(Some(ChooseFault::OutOfMemory)),
            Err(Unwritten::Stopped) => {}
        }
    }

    /// Its member begins.
    fn begin(&mut self)
        ensures { self.new.duty ≡ self.old.duty }
    {
        let Some(trial) = self.opening.trial() else {
            return;
        };
        match Run::begin(self.alloc, self.opening.role(), &trial.start) {
            Ok(run) => self.run = Some(run),
            Err(_) => self.gathering.because(Some(ChooseFault::OutOfMemory)),
        }
    }

    // ---- packets

    /// Makes a packet that is owed, if one is. Answers for whom it is.
    fn pay(&mut self) -> Option<u8>
        ensures { self.new.duty ≡ self.old.duty }
    {
        if let Some((to, at)) = self.post.next_hand() {
            if self.gathering.handed() > 0 {
                return Some(self.pay_hand(to, at));
            }
        }
        if let Some(to) = self.post.next_try() {
            if let Some(trial) = self.opening.trial() {
                let (call, far) = (trial.call, self.opening.progress().far());
                return Some(self.pay_with(to, &Says::Try { call, far }));
            }
        }
        if let Some(to) = self.post.next_ask() {
            let (length, at) = (self.gathering.handed(), self.gathering.have(to));
            return Some(self.pay_with(to, &Says::Ask { length, at }));
        }
        self.pay_words()
    }

    /// Makes this packet.
    fn pay_with(&mut self, to: u8, says: &Says) -> u8
        requires { IsShort says.now }
        ensures { self.new.duty ≡ self.old.duty }
    {
        self.post.write(self.opening.role(), to, says);
        to
    }

    /// Makes the packet with the part of its log from a place on.
    fn pay_hand(&mut self, to: u8, at: u64) -> u8
        ensures { self.new.duty ≡ self.old.duty }
    {
        let length = self.gathering.handed();
        let last = length.saturating_sub(1);
        let at = at.min(last);
        let end = last.min(at.saturating_add(PART as u64));
        let bytes = self.book.part(at, end);
        let says = Says::Hand { length, at, bytes };
        self.post.write(self.opening.role(), to, &says);
        to
    }

    /// Makes the next packet with its last words for a member. Answers for whom it is, where there is one.
    fn pay_words(&mut self) -> Option<u8>
        ensures { self.new.duty ≡ self.old.duty }
    {
        let (to, place) = self.post.next_words()?;
        let (Some(run), Some(trial)) = (&self.run, self.opening.trial()) else {
            self.post.owe_no_words();
            return None;
        };
        let mut words = Words::none();
        let up_to = run.gather(to, place, &mut words);
        self.post.told(to, up_to);
        if words.is_empty() {
            return None;
        }
        let age = trial.call.age;
        let says = Says::Words {
            age,
            words: words.bytes(),
        };
        self.post.write(self.opening.role(), to, &says);
        Some(to)
    }
}

/// The end of a member whose log failed so.
fn end_by(why: LogWhy) -> End
    ensures { result ≡ end_by why }
{
    match why {
        LogWhy::DiskFault => End::DiskFault,
        LogWhy::LogFull { len } => End::LogFull { len },
    }
}

/// The log that these bytes are.
fn mount(alloc: Global, bytes: &[u8]) -> Result<Log<Desk>, OpenFault>
    ensures log { IfOk result (λ log. StandFor bytes.now log.content) }
    ensures whole { IfOk result (λ log. log.failed ≡ false) }
    ensures newer { IfOk result (λ log. log.content.newer ≡ true) }
    ensures fault { IfErr result (IsLogFault bytes.now) }
{
    if bytes.len() < NEW_LOG.len() {
        return Err(OpenFault::Empty);
    }
    let log = match Log::mount(alloc, Desk::of(alloc, bytes)?, LOG_LIMIT) {
        Ok(log) => log,
        Err(fault) => return Err(fault_of(fault.why)),
    };
    if !log.is_newer() {
        return Err(OpenFault::OldFormat);
    }
    Ok(log)
}

/// Why a log that wasn't mounted isn't one. A desk's calls never fail.
fn fault_of(why: MountWhy) -> OpenFault
    ensures { result ≡ fault_by why }
{
    match why {
        MountWhy::Damaged { at } => OpenFault::Damaged { at },
        MountWhy::OutOfMemory | MountWhy::DiskFault => OpenFault::OutOfMemory,
    }
}

/// How many ages a log knows: the greatest one of a View, a vote or an age vote, and one; or 0.
fn ages_on(log: &Log<Desk>) -> u32 {
    let mut ages = 0u32;
    for entry in log.entries() {
        if let Entry::View { age, .. } = entry {
            ages = ages.max(u32::from(*age) + 1);
        }
    }
    for vote in log.votes() {
        ages = ages.max(u32::from(vote.age) + 1);
    }
    for vote in log.age_votes() {
        ages = ages.max(u32::from(vote.age) + 1);
    }
    ages
}
