//! A drill: a large script made from a number.
//!
//! Five members have 400 messages of 32 letters each, and two of them crash before they have pushed anything,
//! so that the others suspect them and go on in a next view. The letters come from the generator of seeded
//! runs.
//!
//! Letters are drawn member by member, and the script runs in lockstep.
#![tactic(auto)]

mod script;

pub use script::make;
