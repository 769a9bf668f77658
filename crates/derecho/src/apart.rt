//! What stands on standard error behind a report: why it ended so, and what may be done.

use dr_commands::wrong_words;
use dr_entry::MAX_MEMBERS;
use dr_intake::{LOGS_REFUSED, SCRIPT_REFUSED, USAGE};
use dr_yard::FileYard;
use std::alloc::Global;

/// Says on standard error what was wrong with files and words, and which program tells more.
pub(crate) fn tell_apart(
    rt: &HostRuntime,
    alloc: Global,
    words: &[String],
    status: u8,
    yard: &FileYard<HostRuntime>,
) {
    for member in 0..MAX_MEMBERS as u8 {
        if let Some(trouble) = yard.trouble(member) {
            let _ = eprintln!(rt; "derecho: {trouble}");
        }
    }
    if let Some(kind) = yard.unsealed() {
        let _ = eprintln!(rt; "derecho: the older seals stand, as these can't be written: {kind}");
    }
    let _ = match status {
        USAGE => tell_wrong(rt, alloc, words),
        SCRIPT_REFUSED => match words {
            [word, ..] if word.as_str() == "check" => Ok(()),
            _ => eprintln!(rt; "derecho: derecho_tools explain < SCRIPT tells why"),
        },
        LOGS_REFUSED => {
            eprintln!(rt; "derecho: derecho_tools folder FOLDER < SCRIPT tells what the logs are")
        }
        _ => Ok(()),
    };
}

/// Says which word was wrong.
fn tell_wrong(rt: &HostRuntime, alloc: Global, words: &[String]) -> std::io::Result<()> {
    match wrong_words(alloc, words) {
        Ok(wrong) => eprintln!(rt; "derecho: {wrong}"),
        Err(_) => Ok(()),
    }
}
