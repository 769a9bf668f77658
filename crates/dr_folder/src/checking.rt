//! What is found of a folder of logs.

ghost use Rattle.std.specs.Prelude.{◌≡◌, IfOk, length};
ghost use Rattle.dr_script.specs.Ranges.{HasGroupRanges};
ghost use Rattle.dr_folder.specs.Checked.{IsFolderCheck};

use crate::advice::{Advice, advice_on};
use crate::file::LogFile;
use crate::foretelling::foretell;
use crate::survey::{Survey, surveys_of};
use dr_restart::Start;
use dr_script::Script;
use dr_text::Last;
use std::alloc::{AllocError, Global};

/// What is found of a folder of logs.
#[derive(Debug, Drop)]
pub struct FolderCheck {
    /// What the file of each member has.
    pub surveys: Vec<Survey>,
    /// What the next run starts with, or its last line, by which it is refused.
    pub next: Result<Start, Last>,
    /// What may be done where it is refused for its logs.
    pub advice: Advice,
}

/// What the files of a script's members have, what the next run of the script over them starts with or is refused
/// by, and what may be done.
///
/// # Errors
///
/// Want of memory alone.
pub fn check_folder(
    alloc: Global,
    script: &Script,
    files: Vec<LogFile>,
) -> Result<FolderCheck, AllocError>
    requires ranges { HasGroupRanges script.now }
    requires all { length files.items ≡ script.now.members }
    ensures { IfOk result (IsFolderCheck script.now files.items) }
{
    let mut files = files;
    let surveys = surveys_of(alloc, files.as_slice())?;
    match foretell(alloc, script, files.as_slice()) {
        Ok(start) => Ok(FolderCheck {
            surveys,
            next: Ok(start),
            advice: Advice::NotNeeded,
        }),
        Err(Some(last)) => {
            let advice = match last {
                Last::AgesUsedUp => Advice::NotNeeded,
                _ => advice_on(alloc, script, files.as_mut_slice(), &surveys)?,
            };
            Ok(FolderCheck {
                surveys,
                next: Err(last),
                advice,
            })
        }
        Err(None) => Err(AllocError),
    }
}
