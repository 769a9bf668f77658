//! Prints what has come of an opening.
use crate::choices::printing::fault_text;
use dr_opening::{CatchFault, NotOpened, OpenFault};
use dr_restart::Start;
use std::alloc::{AllocError, Global};

/// The age that was opened, or why none was.
pub(crate) fn text_of(alloc: Global, answer: Result<Start, NotOpened>) -> anyhow::Result<String> {
    match answer {
        Ok(start) => Ok(format!(in alloc;
            "age {} start {}",
            start.age,
            start.entries.as_slice().len()
        )?),
        Err(NotOpened::Unchosen(fault)) => fault_text(alloc, &fault),
        Err(NotOpened::Unfinished(fault)) => unfinished_text(alloc, &fault),
    }
}

fn unfinished_text(alloc: Global, fault: &OpenFault) -> anyhow::Result<String> {
    let member = fault.member;
    let text = match fault.why {
        CatchFault::OutOfMemory => return Err(AllocError.into()),
        CatchFault::DiskFault => format!(in alloc; "the disk of member {member} failed")?,
        CatchFault::LogFull { len } => format!(in alloc;
            "the log of member {member} is full at {len}"
        )?,
    };
    Ok(text)
}
