//! The text of a summary, age by age: one history as rows, the members as columns, and below it what was
//! delivered by nobody, which planned faults never came, and how the members ended. The same as a JSON object.
#![tactic(auto)]

mod age;
mod columns;
mod ends;
mod faults;
mod histories;
mod labels;
mod laws;
mod marks;
mod objects;
mod rows;
mod undelivered;

pub use age::push_age;
pub use columns::push_aligned;
pub use histories::longest;
pub use laws::histories_are_fronts;
pub use objects::push_age_object;
