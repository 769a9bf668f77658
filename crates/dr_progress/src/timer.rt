//! What tells how much time has passed.
ghost use Rattle.std.specs.Prelude.{◌≡◌, ◌≤◌, ℕ, IfSome};

use std::time::{Clock, Instant};

/// Tells how much time has passed.
pub trait Timer {
    // What it has told last, in milliseconds.
    ghost told: { Self → ℕ };

    /// How many milliseconds have passed, no fewer than it has told before; `None` where that is not known.
    fn read(&mut self) -> Option<u64>
        ensures later { told self.old ≤ told self.new }
        ensures reading { IfSome result (λ now. now ≡ told self.new) };
}

/// A timer over a clock of std, which runs from when it was made.
#[derive(Drop)]
pub struct ClockTimer<'a, C: Clock> {
    clock: &'a C,
    start: Option<Instant>,
    told: u64,
}

impl<'a, C: Clock> ClockTimer<'a, C> {
    /// A timer over this clock.
    pub fn new(clock: &'a C) -> ClockTimer<'a, C>
        ensures { result.told ≡ 0 }
    {
        ClockTimer {
            clock,
            start: Instant::now(clock).ok(),
            told: 0,
        }
    }
}

impl<C: Clock> Timer for ClockTimer<'_, C> {
    ghost told = { λ timer. timer.told };

    fn read(&mut self) -> Option<u64> {
        let elapsed = self.start?.elapsed(self.clock).ok()?;
        let millis = u64::try_from(elapsed.as_millis()).ok()?;
        self.told = self.told.max(millis);
        Some(self.told)
    }
}

/// A timer for tests: each reading tells so many milliseconds more than the one before, up to the first one
/// that fails.
#[derive(Debug, Drop)]
pub struct SteppedTimer {
    step: u64,
    readings: u64,
    told: u64,
}

impl SteppedTimer {
    /// A timer that goes on by so many milliseconds at each of so many readings.
    pub fn new(step: u64, readings: u64) -> SteppedTimer
        ensures { result.told ≡ 0 }
    {
        SteppedTimer {
            step,
            readings,
            told: 0,
        }
    }
}

impl Timer for SteppedTimer {
    ghost told = { λ timer. timer.told };

    fn read(&mut self) -> Option<u64> {
        self.readings = self.readings.checked_sub(1)?;
        self.told = self.told.checked_add(self.step)?;
        Some(self.told)
    }
}
