//! A pace that keeps members in step.

use crate::pace::Pace;
use crossbeam_utils::Backoff;
use std::alloc::{AllocError, Global};
use std::sync::atomic::{AtomicU32, AtomicU64, Ordering};

/// Waits after each turn until all other members have come as far or have ended, for at most so many looks
/// at each of them, and counts these waits. Where it has missed none, the members ran at once.
#[derive(Drop)]
pub struct MeetPace {
    /// The turn that each member has taken last; one that has ended is past all turns.
    turns: Vec<AtomicU64>,
    limit: u64,
    missed: AtomicU32,
    met: AtomicU32,
}

impl MeetPace {
    /// For so many members, with so many looks for a wait.
    ///
    /// # Errors
    ///
    /// Want of memory alone.
    pub fn new(alloc: Global, members: u8, limit: u64) -> Result<MeetPace, AllocError> {
        let mut turns = Vec::with_capacity(alloc, usize::from(members))?;
        for _ in 0..members {
            turns.push(AtomicU64::new(0))?;
        }
        Ok(MeetPace {
            turns,
            limit,
            missed: AtomicU32::new(0),
            met: AtomicU32::new(0),
        })
    }

    /// The number of waits that ran out.
    pub fn missed(&self) -> u32 {
        self.missed.load(Ordering::SeqCst)
    }

    /// The number of waits that ended because all others had come.
    pub fn met(&self) -> u32 {
        self.met.load(Ordering::SeqCst)
    }

    /// Shows how far a member has come.
    fn show(&self, member: u8, turn: u64) {
        if let Some(word) = self.turns.get(usize::from(member)) {
            word.store(turn, Ordering::SeqCst);
        }
    }

    fn have_come(&self, turn: u64) -> bool {
        self.turns
            .iter()
            .all(|word| word.load(Ordering::SeqCst) >= turn)
    }
}

impl Pace for MeetPace {
    fn turn(&self, member: u8, turn: u32) {
        let turn = u64::from(turn);
        self.show(member, turn);
        let backoff = Backoff::new();
        for _ in 0..self.limit {
            if self.have_come(turn) {
                self.met.fetch_add(1, Ordering::SeqCst);
                return;
            }
            backoff.snooze();
        }
        self.missed.fetch_add(1, Ordering::SeqCst);
    }

    fn rest(&self, member: u8) {
        self.show(member, u64::MAX);
    }
}
