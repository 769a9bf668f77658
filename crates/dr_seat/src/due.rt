//! What a seat has to be done, and where it stands.
ghost use Rattle.dr_seat.specs.Duties.{CanFail};
ghost use Rattle.std.specs.Prelude.{◌≡◌, ◌≢◌, ◌⊎◌, ◌↔◌, ◌<◌, ◌+◌, IfOk, IsTrue, OnErr, OnOk};

use crate::faults::NotDue;
use dr_desk::Task;
use dr_entry::End;
use dr_quorum::ChooseFault;

/// What is due: one thing, the same until it is answered.
#[derive(Clone, Copy, Debug, PartialEq, Eq)]
pub enum Due<'a> {
    /// These bytes go to this place of the log's file.
    Write {
        number: u64,
        at: u64,
        bytes: &'a [u8],
    },
    /// All that was written to the log's file is to outlive a crash.
    Sync {
        number: u64,
    },
    /// This packet goes to this member.
    Send {
        number: u64,
        to: u8,
        packet: &'a [u8],
    },
    /// The member has ended its age so.
    End {
        number: u64,
        end: End,
    },
    /// Nothing, before a packet comes or a tick.
    Wait,
}

/// What a seat is about.
#[derive(Clone, Copy, Debug, PartialEq, Eq)]
pub enum Stage {
    /// It gathers logs, to open an age.
    Gathers,
    /// It is in a try to open an age.
    Tries,
    /// Its member runs in an age.
    Runs,
    /// Its member has ended its age.
    Ended,
    /// Its log failed: it does nothing more.
    Broken,
}

/// Where a seat stands.
#[derive(Clone, Copy, Debug, PartialEq, Eq)]
pub struct Standing {
    pub stage: Stage,
    pub me: u8,
    /// The age that it tries to open, or runs in, or has ended; and those that are in it, as a mask. Of a seat that
    /// gathers, 0 and the members that have handed in their logs.
    pub age: u16,
    pub members: u16,
    /// The turns that its member has begun in its age.
    pub turns: u32,
    /// The entries of its history, those on its log, and those that it knows to be durable. What is durable outlives
    /// whatever comes; entries behind it may be gone in a later age.
    pub entries: u64,
    pub logged: u64,
    pub durable: u64,
    /// Why the logs that were gathered make no start, where they don't.
    pub why: Option<ChooseFault>,
}

/// What is due, and was handed out or will be.
#[derive(Clone, Copy, Debug, PartialEq, Eq)]
pub(crate) enum Pending {
    Nothing,
    Task(Task),
    Send(u8),
    End(End),
}

/// The one thing that is due, and its number.
#[derive(Drop)]
pub(crate) struct Duty {
    pending: Pending,
    number: u64,
}

impl Duty {
    /// Nothing, so far.
    pub(crate) fn none() -> Duty
        ensures { result ≡ record { pending = Pending.Nothing; number = 0 } }
    {
        Duty {
            pending: Pending::Nothing,
            number: 0,
        }
    }

    pub(crate) fn pending(&self) -> Pending
        ensures { result ≡ self.now.pending }
    {
        self.pending
    }

    pub(crate) fn number(&self) -> u64
        ensures { result ≡ self.now.number }
    {
        self.number
    }

    /// Whether nothing is due.
    pub(crate) fn is_free(&self) -> bool
        ensures { IsTrue result ↔ (self.now.pending ≡ Pending.Nothing) }
    {
        self.pending == Pending::Nothing
    }

    /// Whether what is due may fail: a write, a sync or a packet.
    pub(crate) fn can_fail(&self) -> bool
        ensures { IsTrue result ↔ CanFail self.now.pending }
    {
        match self.pending {
            Pending::Task(_) | Pending::Send(_) => true,
            Pending::End(_) | Pending::Nothing => false,
        }
    }

    /// This is due, with the next number, while there is one.
    pub(crate) fn begin(&mut self, pending: Pending)
        ensures some { self.old.number < u64.MAX → pending ≢ Pending.Nothing
            → self.new ≡ record { pending = pending; number = self.old.number + 1 } }
        ensures none { pending ≡ Pending.Nothing → self.new ≡ self.old }
        ensures used_up { self.old.number ≡ u64.MAX → self.new ≡ self.old }
        ensures which { self.old.pending ≡ Pending.Nothing
            → (self.new.pending ≡ pending) ⊎ (self.new.pending ≡ Pending.Nothing) }
        ensures unnumbered { self.old.pending ≡ Pending.Nothing → self.new.pending ≡ Pending.Nothing
            → self.new.number ≡ self.old.number }
        ensures numbered { self.old.pending ≡ Pending.Nothing → self.new.pending ≢ Pending.Nothing
            → self.new.number ≡ self.old.number + 1 }
    {
        if pending != Pending::Nothing && self.number < u64::MAX {
            self.number += 1;
            self.pending = pending;
        }
    }

    /// What has this number is answered.
    ///
    /// # Errors
    ///
    /// Exactly where nothing with this number is due. Nothing has changed then.
    pub(crate) fn answer(&mut self, number: u64) -> Result<Pending, NotDue>
        ensures value { IfOk result (λ pending. pending ≡ self.old.pending) }
        ensures due { OnOk result ((self.old.pending ≢ Pending.Nothing) × (number ≡ self.old.number)) }
        ensures done { OnOk result (self.new ≡ record { pending = Pending.Nothing; number = number }) }
        ensures not_due { OnErr result ((self.old.pending ≡ Pending.Nothing) ⊎ (number ≢ self.old.number)) }
        ensures stays { OnErr result (self.new ≡ self.old) }
    {
        if self.is_free() || number != self.number {
            return Err(NotDue);
        }
        let pending = self.pending;
        self.pending = Pending::Nothing;
        Ok(pending)
    }
}
