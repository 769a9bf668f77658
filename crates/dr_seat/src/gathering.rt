//! What a seat gathers to open an age.
ghost use Rattle.std.specs.Prelude.{◌≡◌, ◌<◌, ℕ};

use crate::hands::{Hands, Taken};
use crate::role::Role;
use dr_packet::Call;
use dr_quorum::ChooseFault;
use dr_words::Mask;
use std::alloc::{AllocError, Global};

/// What a seat gathers to open an age.
#[derive(Drop)]
pub(crate) struct Gathering {
    hands: Hands,
    /// Those that the opening goes without.
    missing: Mask,
    /// How many bytes its own log has as it is handed in; 0 where it isn't.
    handed: u64,
    /// Whether what was handed in has changed since a start was sought.
    news: bool,
    /// Why no start was chosen, where it was sought.
    why: Option<ChooseFault>,
}

/// Whether a seat has the logs that a call names.
#[derive(Clone, Copy, Debug, PartialEq, Eq)]
pub(crate) enum Fitting {
    Fits,
    /// It lacks that of this member.
    Lacks(u8),
    /// It never will, as the call isn't for its own log as it is handed in.
    Differs,
}

impl Gathering {
    /// Nothing, with nobody missing.
    pub(crate) fn new(alloc: Global) -> Result<Gathering, AllocError> {
        Ok(Gathering {
            hands: Hands::new(alloc)?,
            missing: Mask::empty(),
            handed: 0,
            news: true,
            why: None,
        })
    }

    /// Nobody has handed in a log yet.
    pub(crate) fn anew(&mut self) {
        self.hands.anew();
        self.handed = 0;
        self.news = true;
        self.why = None;
    }

    /// The opening goes without these.
    pub(crate) fn go_without(&mut self, missing: Mask) {
        self.missing = missing;
    }

    /// How many bytes its own log has as it is handed in; 0 where it isn't.
    pub(crate) fn handed(&self) -> u64 {
        self.handed
    }

    /// Why no start was chosen, where it was sought.
    pub(crate) fn why(&self) -> Option<ChooseFault>
        ensures { result ≡ self.now.why }
    {
        self.why
    }

    pub(crate) fn because(&mut self, why: Option<ChooseFault>) {
        self.why = why;
    }

    /// A start is to be sought again.
    pub(crate) fn seek(&mut self) {
        self.news = true;
    }

    /// Its own log is handed in with so many bytes, where it isn't yet.
    pub(crate) fn hand_in(&mut self, size: u64) {
        if self.handed == 0 {
            self.handed = size;
            self.news = true;
        }
    }

    /// The bytes of another member's log.
    pub(crate) fn bytes_of(&self, member: u8) -> &[u8]
        requires { member < 16 }
    {
        self.hands.of(member).bytes()
    }

    /// How many bytes of another member's log are here.
    pub(crate) fn have(&self, member: u8) -> u64
        requires { member < 16 }
    {
        self.hands.of(member).have()
    }

    /// Forgets another member's log.
    pub(crate) fn forget(&mut self, member: u8) {
        self.hands.clear(member);
    }

    /// Takes a part of another member's log, which has so many bytes. Answers what comes of it.
    ///
    /// # Errors
    ///
    /// Want of memory alone.
    pub(crate) fn take(
        &mut self,
        member: u8,
        size: u64,
        at: u64,
        part: &[u8],
    ) -> Result<Taken, AllocError>
        requires { member < 16 }
    {
        let taken = self.hands.take(member, size, at, part)?;
        self.news = self.news || taken.changes;
        Ok(taken)
    }

    /// Who has handed in a whole log, itself among them where it has.
    pub(crate) fn ready(&self, role: &Role) -> Mask {
        let mut ready = Mask::empty();
        for m in 0..role.script.members {
            if self.is_ready(role.me, m) {
                ready = ready.with(m);
            }
        }
        ready
    }

    /// Whether this member has handed in a whole log.
    fn is_ready(&self, me: u8, member: u8) -> bool
        requires { member < 16 }
    {
        if member == me {
            return self.handed > 0;
        }
        self.hands.has(member)
    }

    /// Those whom its member calls to a try, where it is the least of those that have handed in their logs, and
    /// waits for nobody. It is asked once for each change.
    pub(crate) fn called(&mut self, role: &Role) -> Option<Mask> {
        if !self.news {
            return None;
        }
        self.news = false;
        let ready = self.ready(role);
        let wanted = role.roster().without(self.missing);
        if ready.least() != Some(role.me) || wanted.without(ready) != Mask::empty() {
            return None;
        }
        Some(ready)
    }

    /// How many bytes each log of a set has; 0 for whoever isn't in it.
    pub(crate) fn lengths(&self, role: &Role, set: Mask) -> [u64; 16] {
        let mut lengths = [0; 16];
        for m in 0..role.script.members {
            if set.has(m) {
                lengths[usize::from(m)] = self.length_of(role.me, m);
            }
        }
        lengths
    }

    /// How many bytes the log of this member has.
    fn length_of(&self, me: u8, member: u8) -> u64
        requires { member < 16 }
    {
        if member == me {
            return self.handed;
        }
        self.hands.of(member).size()
    }

    /// Whether it has the logs that a call names.
    pub(crate) fn fitting(&self, role: &Role, call: &Call) -> Fitting
        ensures { (member : ℕ) → result ≡ Fitting.Lacks member → member < 16 }
    {
        let set = Mask::of(call.set);
        let me = usize::from(role.me);
        if self.handed == 0 || !set.has(role.me) || call.lengths[me] != self.handed {
            return Fitting::Differs;
        }
        if set.without(role.roster()) != Mask::empty() {
            return Fitting::Differs;
        }
        for m in 0..role.script.members {
            if set.has(m) && role.is_other(m) && !self.has_all_of(m, call.lengths[usize::from(m)]) {
                return Fitting::Lacks(m);
            }
        }
        Fitting::Fits
    }

    /// Whether it has all of another member's log of so many bytes.
    fn has_all_of(&self, member: u8, size: u64) -> bool
        requires { member < 16 }
    {
        let hand = self.hands.of(member);
        hand.size() == size && hand.is_whole()
    }
}
