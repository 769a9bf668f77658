//! Runs the ages of a group by a script, and prints what each of its members delivered.
#![tactic(auto)]

mod apart;

use crate::apart::tell_apart;
use dr_commands::derecho;
use dr_intake::{OUT_OF_MEMORY, words_of};
use dr_io::{InputSource, OutputSink};
use dr_pace::SnoozePace;
use dr_yard::FileYard;
use std::process::ExitCode;

fn main(rt: HostRuntime) -> ExitCode {
    let alloc = rt.alloc();
    let Ok(files) = rt.clone() else {
        return ExitCode::from(OUT_OF_MEMORY);
    };
    let Ok(words) = words_of(&rt, alloc) else {
        return ExitCode::from(OUT_OF_MEMORY);
    };
    let mut source = InputSource::new(rt.stdin());
    let mut sink = OutputSink::new(rt.stdout());
    let mut yard = FileYard::new(files);
    let ended = derecho(
        &rt,
        alloc,
        &words,
        &mut source,
        &mut sink,
        &mut yard,
        &SnoozePace,
    );
    tell_apart(&rt, alloc, &words, ended.status, &yard);
    ExitCode::from(ended.status)
}
