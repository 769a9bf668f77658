//! Looks at scripts, at their runs and at logs: the first word says what with.
#![tactic(auto)]

mod folders;
mod logs;
mod reports;
mod texts;
mod tool;
mod unread;

use crate::folders::look_at_folder;
use crate::logs::print_logs;
use crate::reports::{JUDGE_USAGE, judge_files};
use crate::texts::{HELP, USAGE_TEXT, VERSION};
use crate::tool::Tool;
use dr_intake::{DONE, OUT_OF_MEMORY, USAGE, WRITE_FAULT, words_of};
use dr_io::{InputSource, OutputSink};
use dr_progress::{ClockTimer, Progress};
use dr_text::write_all;
use dr_tools::{explain, summarize, sweep, trace};
use std::alloc::Global;
use std::io::IsTerminal;
use std::process::ExitCode;
use std::thread::Threads;

fn main(rt: HostRuntime) -> ExitCode {
    let alloc = rt.alloc();
    let Ok(words) = words_of(&rt, alloc) else {
        return ExitCode::from(OUT_OF_MEMORY);
    };
    ExitCode::from(answer(&rt, &rt, alloc, &words))
}

/// Does what the words ask for, and answers the status.
fn answer(
    rt: &HostRuntime,
    threads: &(impl Threads + Sync),
    alloc: Global,
    words: &[String],
) -> u8 {
    let [first, rest @ ..] = words else {
        return say(rt, USAGE_TEXT, USAGE);
    };
    match Tool::named(first.as_str()) {
        Some(tool) => call(rt, threads, alloc, tool, rest),
        None if !rest.is_empty() => say(rt, USAGE_TEXT, USAGE),
        None => match first.as_str() {
            "--help" => say_help(rt, USAGE_TEXT, HELP),
            "--version" => say(rt, VERSION, DONE),
            _ => say(rt, USAGE_TEXT, USAGE),
        },
    }
}

/// Looks with a tool, or tells how it is called.
fn call(
    rt: &HostRuntime,
    threads: &(impl Threads + Sync),
    alloc: Global,
    tool: Tool,
    words: &[String],
) -> u8 {
    match words {
        [word] if word.as_str() == "--help" => say_help(rt, tool.usage(), tool.help()),
        _ => look(rt, threads, alloc, tool, words),
    }
}

/// Looks with a tool at what standard input has, or at the files that the words name.
fn look(
    rt: &HostRuntime,
    threads: &(impl Threads + Sync),
    alloc: Global,
    tool: Tool,
    words: &[String],
) -> u8 {
    let mut source = InputSource::new(rt.stdin());
    let mut sink = OutputSink::new(rt.stdout());
    let errors = rt.stderr();
    let is_terminal = errors.is_terminal();
    let mut progress = Progress::new(
        alloc,
        ClockTimer::new(rt),
        OutputSink::new(errors),
        is_terminal,
    );
    match tool {
        Tool::Summary => summarize(threads, alloc, words, &mut source, &mut sink, &mut progress),
        Tool::Trace => trace(threads, alloc, words, &mut source, sink, &mut progress).status,
        Tool::Explain => explain(alloc, words, &mut source, &mut sink),
        Tool::Sweep => sweep(threads, alloc, words, &mut source, &mut sink, &mut progress),
        Tool::Judge => match words {
            [script, report] => judge_files(rt, alloc, script.as_str(), report.as_str()),
            _ => say(rt, JUDGE_USAGE, USAGE),
        },
        Tool::Log => print_logs(rt, alloc, words),
        Tool::Folder => look_at_folder(rt, alloc, words),
    }
}

/// Writes how it is called and what it does, and answers the status.
fn say_help(rt: &HostRuntime, usage: &str, help: &str) -> u8 {
    match say(rt, usage, DONE) {
        DONE => say(rt, help, DONE),
        status => status,
    }
}

/// Writes a text, and answers this status, where nothing is in the way.
fn say(rt: &HostRuntime, text: &str, due: u8) -> u8 {
    match write_all(&mut OutputSink::new(rt.stdout()), text.as_bytes()) {
        Ok(()) => due,
        Err(_) => WRITE_FAULT,
    }
}
