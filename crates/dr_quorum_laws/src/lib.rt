//! Laws of restarts from a majority: whatever logs are missing, an age keeps all that was durable in the one
//! before, through any list of tries to open it.
//!
//! It speaks of lists of entries and of votes, and knows no disk. What logs make a start is `IsChosenStart`
//! of `dr_restart`, what stops leave of an age is `AreLeft`, and what a try makes of logs is `IsTry` there.
//! `HoldSince` has what any tries may make of the logs that were left.
//!
//! `HoldSince` goes by whether a log has View 0 of the age that has ended: one that a try has cut to less is
//! one of earlier ages. That tries chose sound starts (`AreSoundTries`), and that other logs have no later
//! vote (`HaveNoLaterVotes`), are premises beside it, which each try keeps. The laws are of reached worlds;
//! those of `dr_quorum` with the same names take a list of events.
#![tactic(auto)]

mod laws;

pub use laws::{
    age_votes_take_nothing_away, all_logs_are_enough, all_logs_give_the_longest, choices_are_one,
    choices_are_sound, choices_go_by_messages, durable_entries_last, held_by_try,
    kept_after_choice, kept_by_majority, missing_logs_are_of_earlier_ages,
    returning_logs_are_enough, votes_left_are_one,
};
