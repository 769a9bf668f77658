//! Who takes the deeds of an age.
//!
//! The mode is a value, and how an age is played in each is one definition by cases (`IsPlayed`). What an age
//! promises stands once, for both (`IsAge`); only what needs a schedule is said of `sim` alone.

/// How the members of an age come to take their deeds.
#[derive(Clone, Copy, Debug, PartialEq, Eq)]
pub enum Mode {
    /// One deed after the other, by the schedule of the script.
    Sim,
    /// All at once, each member in a thread of its own. No schedule tells which deed comes first.
    Run,
}
