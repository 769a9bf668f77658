//! A pace that lets one member run first.

use crate::pace::Pace;
use crossbeam_utils::Backoff;
use std::sync::atomic::{AtomicBool, AtomicU32, Ordering};

/// Holds all members but one after each of their turns until that one has ended, for at most so many looks,
/// and counts the waits that ran out.
#[derive(Drop)]
pub struct HoldPace {
    first: u8,
    limit: u64,
    has_rested: AtomicBool,
    missed: AtomicU32,
}

impl HoldPace {
    /// With this member first, and so many looks for a wait.
    pub fn new(first: u8, limit: u64) -> HoldPace {
        HoldPace {
            first,
            limit,
            has_rested: AtomicBool::new(false),
            missed: AtomicU32::new(0),
        }
    }

    /// The number of waits that ran out.
    pub fn missed(&self) -> u32 {
        self.missed.load(Ordering::SeqCst)
    }
}

impl Pace for HoldPace {
    fn turn(&self, member: u8, _turn: u32) {
        if member == self.first {
            return;
        }
        let backoff = Backoff::new();
        for _ in 0..self.limit {
            if self.has_rested.load(Ordering::SeqCst) {
                return;
            }
            backoff.snooze();
        }
        self.missed.fetch_add(1, Ordering::SeqCst);
    }

    fn rest(&self, member: u8) {
        if member == self.first {
            self.has_rested.store(true, Ordering::SeqCst);
        }
    }
}
