//! An age of a script in threads, from its opening to the ends of its members: each takes its deeds in a thread
//! of its own, over the words of one board, with its log.
//!
//! Which deed comes when is up to the threads. Each is one step on the board, or, with a letter, a few; so
//! the rule of the board says of the members at the end that they have come from its beginning by some
//! order of deeds.
//!
//! A run halves its hand and runs both halves at once, so `n` members take `n - 1` new threads, and what
//! comes back is put together in the same order; all that cuts lists stands in one function apart. Each log
//! gets its room in its own thread, before the first deed. So want of memory may end one half while the other
//! comes to its end: the age is given up, and a log has what it had and maybe more, and its disk tells what
//! it told or at no moment lost anything, two cases, since of a log that nobody has called no clause could
//! say that it is safe.
//!
//! A thread that can't be had is no error: the kit's join calls one half after the other, every contract
//! holds, but the members of the later half find the others at their ends, and spend their turns. No status
//! tells this apart from too few turns. `run` leaves the schedule aside: a script is one text for both
//! commands, and threads know no order.
#![tactic(auto)]

mod age;
mod member;
mod script_age;

pub use age::run_age;
pub use script_age::run_script_age;
