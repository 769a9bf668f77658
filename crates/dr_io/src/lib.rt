//! The outside of the program: what it reads from and writes to.
//!
//! Each object has as a meaning a count of faults that never falls. A call answers [`Failed`] only
//! where the count rose in that call. An object over memory also tells which bytes it has left or
//! holds; one over a file or a terminal does not.
//!
//! A read or a write that a signal interrupts is tried again, and is no fault.
#![tactic(auto)]

mod failed;
mod input_source;
mod memory_sink;
mod memory_source;
mod output_sink;
mod plan;
mod sink;
mod source;

pub use failed::Failed;
pub use input_source::InputSource;
pub use memory_sink::MemorySink;
pub use memory_source::MemorySource;
pub use output_sink::OutputSink;
pub use plan::Plan;
pub use sink::Sink;
pub use source::Source;
