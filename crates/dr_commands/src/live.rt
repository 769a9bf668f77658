//! The command `live`: the messages of each member are pushed by a thread of its own while the ages of the
//! group run.
//!
//! Rule 15 is told here and by no reader of scripts: a script that breaks it is one for every other command.
//! Its path is `/`, as no one key breaks it. Printed are numbers alone, since texts of threads are to be the
//! same each time where all are done; delivered is what the longest history of the last age has.

mod lines;
mod rounds;
mod running;

pub use rounds::{Rounds, rounds_of};
pub use running::run_lived;
