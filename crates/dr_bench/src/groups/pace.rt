//! Paces to measure threads by, and one that takes times.

use crossbeam_utils::{Backoff, CachePadded};
use dr_entry::MAX_MEMBERS;
use dr_pace::Pace;
use std::alloc::{AllocError, Global};
use std::sync::atomic::{AtomicU64, Ordering};
use std::time::{Clock, Duration};

/// How often a [`Backoff`] spins for longer each time.
const SPINS: u32 = 7;

/// Goes on at once after each turn.
#[derive(Drop)]
pub struct FreePace;

impl Pace for FreePace {
    fn turn(&self, _member: u8, _turn: u32) {}

    fn rest(&self, _member: u8) {}
}

/// Spins after each turn as long as `SnoozePace` does after an idle one before it yields.
#[derive(Drop)]
pub struct SpinPace;

impl Pace for SpinPace {
    fn turn(&self, _member: u8, _turn: u32) {
        let backoff = Backoff::new();
        for _ in 0..SPINS {
            backoff.spin();
        }
    }

    fn rest(&self, _member: u8) {}
}

/// Another pace, and how long turns took, and what it did after them.
#[derive(Drop)]
pub struct TimedPace<'a, C: Clock, P: Pace> {
    clock: &'a C,
    pace: P,
    times: Vec<CachePadded<Times>>,
}

/// The times of one member, in nanoseconds, but for its first turn.
#[derive(Drop)]
struct Times {
    turns: AtomicU64,
    turning: AtomicU64,
    /// The least time of a turn: of one in which nothing is new.
    least: AtomicU64,
    backing_off: AtomicU64,
    /// When it went on after its last turn.
    went_on: AtomicU64,
}

/// The times of all members together, in nanoseconds.
#[derive(Clone, Copy, Debug, PartialEq, Eq)]
pub struct Sums {
    pub turns: u64,
    pub turning: u64,
    pub least: u64,
    pub backing_off: u64,
}

impl<'a, C: Clock, P: Pace + Drop> TimedPace<'a, C, P> {
    /// This pace, by this clock.
    pub fn new(alloc: Global, clock: &'a C, pace: P) -> Result<TimedPace<'a, C, P>, AllocError> {
        let mut times = Vec::with_capacity(alloc, MAX_MEMBERS)?;
        for _ in 0..MAX_MEMBERS {
            times.push(CachePadded::new(Times {
                turns: AtomicU64::new(0),
                turning: AtomicU64::new(0),
                least: AtomicU64::new(u64::MAX),
                backing_off: AtomicU64::new(0),
                went_on: AtomicU64::new(0),
            }))?;
        }
        Ok(TimedPace { clock, pace, times })
    }

    /// The times until now.
    pub fn sums(&self) -> Sums {
        let mut sums = Sums {
            turns: 0,
            turning: 0,
            least: u64::MAX,
            backing_off: 0,
        };
        for times in self.times.as_slice() {
            sums.turns = sums.turns.wrapping_add(read(&times.turns));
            sums.turning = sums.turning.wrapping_add(read(&times.turning));
            sums.least = sums.least.min(read(&times.least));
            sums.backing_off = sums.backing_off.wrapping_add(read(&times.backing_off));
        }
        sums
    }

    /// Takes the time of a turn that has ended now; answers when that was.
    fn time_turn(&self, times: &CachePadded<Times>, turn: u32) -> u64 {
        let came = self.now();
        if turn > 1 {
            let turning = came.wrapping_sub(read(&times.went_on));
            add(&times.turns, 1);
            add(&times.turning, turning);
            times
                .least
                .store(read(&times.least).min(turning), Ordering::SeqCst);
        }
        came
    }

    /// Takes the time of what the pace has done since then.
    fn time_pace(&self, times: &CachePadded<Times>, came: u64) {
        let went_on = self.now();
        add(&times.backing_off, went_on.wrapping_sub(came));
        times.went_on.store(went_on, Ordering::SeqCst);
    }

    fn now(&self) -> u64 {
        match self.clock.monotonic() {
            Ok(time) => nanos(time),
            Err(_) => 0,
        }
    }
}

impl<'a, C: Clock, P: Pace + Drop> Pace for TimedPace<'a, C, P> {
    fn turn(&self, member: u8, turn: u32) {
        if let Some(times) = self.times.get(usize::from(member)) {
            let came = self.time_turn(times, turn);
            self.pace.turn(member, turn);
            self.time_pace(times, came);
        }
    }

    fn idle(&self, member: u8, turn: u32) {
        if let Some(times) = self.times.get(usize::from(member)) {
            let came = self.time_turn(times, turn);
            self.pace.idle(member, turn);
            self.time_pace(times, came);
        }
    }

    fn rest(&self, member: u8) {
        self.pace.rest(member);
    }
}

fn nanos(time: Duration) -> u64 {
    let seconds = time.as_secs().wrapping_mul(1_000_000_000);
    seconds.wrapping_add(u64::from(time.subsec_nanos()))
}

fn read(word: &AtomicU64) -> u64 {
    word.load(Ordering::SeqCst)
}

/// Adds to a word that no other thread writes.
fn add(word: &AtomicU64, more: u64) {
    word.store(read(word).wrapping_add(more), Ordering::SeqCst);
}
