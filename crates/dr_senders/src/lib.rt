//! Senders: for each member a thread of its own pushes messages into a ring, out of which they are taken.
//!
//! An app's messages are settled as it is handed in (`left`): they are a list that its value has, so what was
//! pushed can be told before any thread has run. An app that makes up its mind later is none. A ring has room
//! for all that an app may give, 4,096 messages, so a push never finds it full, and no app waits; its memory
//! is taken before its thread starts, and pushing takes none. Where that of a later ring is refused, threads
//! that have started end by themselves. A thread that can't be started costs only time: the closure comes
//! back, and the caller runs it before the first round; one contract serves both. The join hands the producer
//! back, so that the rest is taken where both ends of the ring stand in one thread: that nothing is left, and
//! nothing came twice, is a fact of the ring.
#![tactic(auto)]

mod app;
mod inbox;
mod pushing;
mod sender;
mod senders;

pub use app::{App, ListApp};
pub use senders::Senders;
