//! The log of a seat's member, and how far its disk is with it.
ghost use Rattle.std.specs.Prelude.{◌≡◌, ◌↔◌, ◌<◌, ◌≤◌, ◌+◌, ◌-◌, ◌^◌, min, None, true, false, All, IfOk, IsTrue, OnErr, OnOk, length, slice_get, slice_range};
ghost use Rattle.dr_entry.specs.Spelling.{IsValid, IsValidEntry};
ghost use Rattle.dr_history.specs.History.{IsPrefixOf};
ghost use Rattle.dr_seat.specs.Books.{IsOfMember};

use dr_desk::{Desk, Task};
use dr_entry::{End, Record};
use dr_log::{Log, LogFault};
use dr_opening::{CatchFault, catch_up, cut_back};
use dr_restart::Start;
use dr_words::Mask;
use std::alloc::AllocError;

/// Why a log has taken nothing.
#[derive(Clone, Copy, Debug, PartialEq, Eq)]
pub(crate) enum Unwritten {
    OutOfMemory,
    /// It failed, and takes nothing more.
    Stopped,
}

impl From<AllocError> for Unwritten {
    ghost use Rattle.std.specs.Prelude.{◌≡◌};
    ghost use Rattle.dr_seat.specs.declared.book.Unwritten.TheVariants.{OutOfMemory};

    ghost from_gives = { λ _ why. why ≡ OutOfMemory };

    fn from(_: AllocError) -> Self {
        Unwritten::OutOfMemory
    }
}

/// What a log has taken on its way to a start.
#[derive(Clone, Copy, Debug, PartialEq, Eq)]
pub(crate) enum Rising {
    /// A cut, back to what it and the start have in common.
    Cuts,
    /// What it lacked of the start, and View 0.
    Rises,
}

/// The log of a seat's member, of the newer format.
#[derive(Drop)]
pub(crate) struct Book {
    log: Log<Desk>,
    /// How many calls of the log's last append are done.
    done: usize,
    /// How its log failed, where it did: it takes nothing more then.
    stop: Option<End>,
    ghost whole: { stop ≡ None → log.failed ≡ false },
    ghost newer: { log.content.newer ≡ true },
}

impl Book {
    /// A log of which the call of its mount is to be done.
    pub(crate) fn of(log: Log<Desk>) -> Book
        requires whole { log.failed ≡ false }
        requires newer { log.content.newer ≡ true }
        ensures log { result.log ≡ log }
        ensures done { result.done ≡ 0 }
        ensures open { result.stop ≡ None }
    {
        Book {
            log,
            done: 0,
            stop: None,
        }
    }

    pub(crate) fn log(&self) -> &Log<Desk>
        ensures { result.now ≡ self.now.log }
    {
        &self.log
    }

    /// How its log failed, where it did.
    pub(crate) fn stop(&self) -> Option<End>
        ensures { result ≡ self.now.stop }
    {
        self.stop
    }

    /// Whether its log hasn't failed.
    pub(crate) fn is_open(&self) -> bool
        ensures { IsTrue result ↔ (self.now.stop ≡ None) }
    {
        self.stop.is_none()
    }

    /// The bytes of its disk from one place to another, as they are once all calls are done.
    pub(crate) fn part(&self, from: u64, to: u64) -> &[u8]
        ensures bytes { result.now ≡ slice_range self.now.log.disk.disk.state.content from to }
        ensures short { length result.now ≤ to - from }
    {
        let bytes = self.log.disk().bytes();
        let end = to.min(bytes.len() as u64);
        &bytes[from.min(end) as usize..end as usize]
    }

    /// Whether the log has no vote for this age or a later one.
    pub(crate) fn knows_none_from(&self, age: u16) -> bool {
        self.log.age_votes().iter().all(|vote| vote.age < age)
    }

    /// The next call of the last append that isn't done.
    pub(crate) fn task(&self) -> Option<Task>
        ensures { result ≡ slice_get self.now.log.disk.tasks self.now.done }
    {
        match self.log.disk().tasks().get(self.done) {
            Some(task) => Some(*task),
            None => None,
        }
    }

    /// Takes note that the next call is done. Answers whether it was the last one.
    pub(crate) fn did(&mut self) -> bool
        ensures log { self.new.log ≡ self.old.log }
        ensures stop { self.new.stop ≡ self.old.stop }
        ensures done { self.new.done ≡ min (self.old.done + 1) u64.MAX }
    {
        self.done = self.done.saturating_add(1);
        self.task().is_none()
    }

    /// Its log has failed so.
    pub(crate) fn fail(&mut self, end: End)
        ensures stop { self.new.stop ≡ Some end }
        ensures log { self.new.log ≡ self.old.log }
        ensures done { self.new.done ≡ self.old.done }
    {
        self.stop = Some(end);
    }

    /// A record that a member of an age has on its log goes to this one.
    ///
    /// # Errors
    ///
    /// Want of memory; or the log failed.
    pub(crate) fn append(&mut self, what: &Record) -> Result<(), Unwritten>
        requires open { self.old.stop ≡ None }
        requires valid { IsValid what.now }
        requires kind { IsOfMember what.now }
        ensures open { OnOk result (self.new.stop ≡ None) }
    {
        self.log.reserve(1, 1)?;
        self.stop = append_to(&mut self.log, what);
        self.done = 0;
        self.taken()
    }

    /// The vote for an age with these members goes to the log.
    ///
    /// # Errors
    ///
    /// Want of memory; or the log failed.
    pub(crate) fn vote(&mut self, age: u16, members: u16) -> Result<(), Unwritten>
        requires open { self.old.stop ≡ None }
        requires some { 0 < members }
        ensures open { OnOk result (self.new.stop ≡ None) }
    {
        self.log.reserve(0, 0)?;
        self.stop = vote_on(&mut self.log, age, members);
        self.done = 0;
        self.taken()
    }

    /// Brings the log up to a start, with View 0 of its members behind it; or cuts it first back to what it and the
    /// start have in common, where it has more.
    ///
    /// # Errors
    ///
    /// Want of memory; or the log failed.
    pub(crate) fn bring_up(&mut self, start: &Start) -> Result<Rising, Unwritten>
        requires open { self.old.stop ≡ None }
        requires some { 0 < start.now.members }
        requires valid { All IsValidEntry start.now.entries }
        requires few { length start.now.entries < 2 ^ 32 }
        ensures open { OnOk result (self.new.stop ≡ None) }
    {
        self.log.reserve(0, 0)?;
        let len = self.log.len();
        self.stop = cut_on(&mut self.log, start);
        let rises = self.stop.is_none() && self.log.len() == len;
        if rises {
            self.stop = raise_on(&mut self.log, start)?;
        }
        self.done = 0;
        self.taken()?;
        Ok(if rises { Rising::Rises } else { Rising::Cuts })
    }

    /// How it took an append.
    ///
    /// # Errors
    ///
    /// Exactly where the log failed.
    fn taken(&self) -> Result<(), Unwritten>
        ensures { OnOk result (self.now.stop ≡ None) }
    {
        if self.is_open() {
            Ok(())
        } else {
            Err(Unwritten::Stopped)
        }
    }
}

/// Appends a record of a member to a log. Answers how it failed, where it did.
fn append_to(log: &mut Log<Desk>, what: &Record) -> Option<End>
    requires valid { IsValid what.now }
    requires kind { IsOfMember what.now }
    requires spare_entry { 1 ≤ log.old.spare_entries }
    requires spare_vote { 1 ≤ log.old.spare_votes }
    requires whole { log.old.failed ≡ false }
    requires newer { log.old.content.newer ≡ true }
    ensures whole { result ≡ None → log.new.failed ≡ false }
    ensures newer { log.new.content.newer ≡ true }
{
    match log.append(what) {
        Ok(()) => None,
        Err(fault) => Some(end_of(fault)),
    }
}

/// Appends the vote for an age to a log. Answers how it failed, where it did.
fn vote_on(log: &mut Log<Desk>, age: u16, members: u16) -> Option<End>
    requires some { 0 < members }
    requires spare { 1 ≤ log.old.spare_others }
    requires whole { log.old.failed ≡ false }
    requires newer { log.old.content.newer ≡ true }
    ensures whole { result ≡ None → log.new.failed ≡ false }
    ensures newer { log.new.content.newer ≡ true }
{
    match log.vote_age(age, members) {
        Ok(()) => None,
        Err(fault) => Some(end_of(fault)),
    }
}

/// Cuts a log back to what it and a start have in common. Answers how it failed, where it did.
fn cut_on(log: &mut Log<Desk>, start: &Start) -> Option<End>
    requires few { length start.now.entries < 2 ^ 32 }
    requires spare { 1 ≤ log.old.spare_others }
    requires whole { log.old.failed ≡ false }
    requires newer { log.old.content.newer ≡ true }
    ensures part { result ≡ None → IsPrefixOf log.new.content.entries start.now.entries }
    ensures whole { result ≡ None → log.new.failed ≡ false }
    ensures newer { log.new.content.newer ≡ true }
{
    match cut_back(start, log) {
        Ok(()) => None,
        Err(fault) => Some(end_of(fault)),
    }
}

/// Brings a log up to a start, and puts View 0 behind it. Answers how it failed, where it did.
///
/// # Errors
///
/// Want of memory alone. The log hasn't failed then.
fn raise_on(log: &mut Log<Desk>, start: &Start) -> Result<Option<End>, AllocError>
    requires valid { All IsValidEntry start.now.entries }
    requires some { 0 < start.now.members }
    requires part { IsPrefixOf log.old.content.entries start.now.entries }
    requires whole { log.old.failed ≡ false }
    requires newer { log.old.content.newer ≡ true }
    ensures whole { IfOk result (λ end. end ≡ None → log.new.failed ≡ false) }
    ensures err { OnErr result (log.new.failed ≡ false) }
    ensures newer { log.new.content.newer ≡ true }
{
    match catch_up(start, Mask::of(start.members), log) {
        Ok(()) => Ok(None),
        Err(CatchFault::OutOfMemory) => Err(AllocError),
        Err(CatchFault::DiskFault) => Ok(Some(End::DiskFault)),
        Err(CatchFault::LogFull { len }) => Ok(Some(End::LogFull { len })),
    }
}

/// The end of a member whose log failed so.
fn end_of(fault: LogFault) -> End {
    match fault {
        LogFault::DiskFault => End::DiskFault,
        LogFault::LogFull { len } => End::LogFull { len },
    }
}
