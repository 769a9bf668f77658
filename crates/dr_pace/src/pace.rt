//! What a run in threads calls, and the pace of the program.
//!
//! After an idle turn the program's pace goes on to back off until its `Backoff` is completed, as the last steps
//! of one yield. One that only spins lets a member use up its turns while the thread that it waits for has no
//! processor: on a busy machine members ended as `spent` after a million turns, where with this one they were
//! done. Every turn counts, also an idle one: were such turns free, a member that waits for one that crashed
//! would never end.

use crossbeam_utils::Backoff;
use std::thread::yield_now;

/// More snoozes than any [`Backoff`] takes until it is completed.
const MAX_SNOOZES: u32 = 64;

/// What a run in threads calls. No call answers anything.
pub trait Pace {
    /// The member has taken this turn, from 1.
    fn turn(&self, member: u8, turn: u32);

    /// The same, called in its place where the turn was idle: its beat was the member's only act in it, and others
    /// have to push something new.
    fn idle(&self, member: u8, turn: u32) {
        self.turn(member, turn);
    }

    /// The member has ended.
    fn rest(&self, member: u8);
}

/// Yields the processor once after a turn. After an idle one it backs off: it spins for a while, and then yields the
/// processor a few times, so that a member doesn't use up its turns while others wait for a processor.
#[derive(Drop)]
pub struct SnoozePace;

impl Pace for SnoozePace {
    fn turn(&self, _member: u8, _turn: u32) {
        yield_now();
    }

    fn idle(&self, _member: u8, _turn: u32) {
        let backoff = Backoff::new();
        for _ in 0..MAX_SNOOZES {
            if backoff.is_completed() {
                return;
            }
            backoff.snooze();
        }
    }

    fn rest(&self, _member: u8) {}
}
