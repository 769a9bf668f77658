//! How far a simulated run is, said on a terminal now and then once it takes more than two seconds.
#![tactic(auto)]

mod beside;
mod line;
mod progress;
mod timer;
mod watching;

pub use progress::Progress;
pub use timer::{ClockTimer, SteppedTimer, Timer};
pub use watching::{watch_next_with_progress, watch_with_progress};
