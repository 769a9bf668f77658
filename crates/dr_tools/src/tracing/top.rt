ghost use Rattle.std.specs.Prelude.{◌≡◌, ◌⊎◌, ◌∷◌, ◌++◌, ℕ, List, Option, Some, [], Contains};
ghost use Rattle.dr_progress.specs.Progress.{IsQuiet};
ghost use Rattle.dr_ages.specs.Ages.{HaveSomebodyPrompt, all_with};
ghost use Rattle.dr_script.specs.{Ranges.HasRanges, Reading.reading_of};
ghost use Rattle.dr_seeing.specs.Output.{HasTold};
ghost use Rattle.dr_tools.specs.Trace.{IsTraceAnswer, IsRunTold, IsTraced, IsTracedFor, Wrote, WroteOne, end_status, picture_ending, trace_usage, traced_end_line};

use crate::tracing::chart::Drawing;
use crate::tracing::lines::Lines;
use crate::tracing::picture::{Picturing, is_lockstep};
use crate::tracing::words::{Asked, Form, asked_of};
use dr_ages::Part;
use dr_intake::{
    OUT_OF_MEMORY, USAGE, Unread, WRITE_FAULT, read_for, script_or_refusal, status_of,
};
use dr_io::{Sink, Source};
use dr_outcome::{are_all_late, watch_in_memory};
use dr_picture::Window;
use dr_progress::{Progress, Timer, watch_with_progress};
use dr_script::Script;
use dr_seeing::{Chart, Output, Trouble};
use dr_text::Last;
use std::alloc::Global;
use std::thread::Threads;

/// How it is called.
pub const TRACE_USAGE: &str =
    "usage: derecho_tools trace [lines|svg [FROM TO]] [--late L] < SCRIPT\n";

/// What closes a picture.
const CLOSING: &str = "</text>\n</svg>\n";

/// How a call ended: its status, and the sink.
#[derive(Drop)]
pub struct Traced<K: Sink> {
    pub status: u8,
    pub sink: K,
}

/// Reads a script from the source, simulates its group as `derecho sim` does, without folders of logs, and
/// tells the sink what happens, in order. The last line and the status are those of `derecho sim`.
///
/// Without words it is told as a chart; with the word `lines` as a line for each event; with the word `svg` as
/// a picture, of all turns or of those from one to another, in which the last line stands. Behind these words
/// `--late L` names members that are late. A picture is written at the end, and while it is drawn the progress
/// says how far it is; the other texts are written as the run goes on. Where memory is wanting, and where a
/// call of the sink fails, a front part of it is written.
pub fn trace<R: Threads + Sync, S: Source, K: Sink, T: Timer, E: Sink>(
    rt: &R,
    alloc: Global,
    words: &[String],
    source: &mut S,
    sink: K,
    progress: &mut Progress<T, E>,
) -> Traced<K>
    ensures told { WroteOne
        (λ text due. IsTraceAnswer words.now (S.left source.old) (S.left source.new)
        (S.faults source.old) (S.faults source.new) (text, due))
        (K.held sink) (K.held result.sink) (K.faults sink) (K.faults result.sink) result.status }
    // 2 for words, and where all members of the script that was read are late, 3 for a text that is no script, 4 for
    // a read, 5 for a write, 8 for turns that were spent, 9 for a member without a majority of its view, 10 for
    // memory, and else 0.
    ensures statuses { Contains (0 ∷ 2 ∷ 3 ∷ 4 ∷ 5 ∷ 8 ∷ 9 ∷ 10 ∷ []) result.status }
    // No fault is hidden.
    ensures read_fault_told { (S.faults source.new ≡ S.faults source.old)
        ⊎ Contains (4 ∷ 10 ∷ 5 ∷ []) result.status }
    // How far it is is said to a terminal alone, and no sooner than after two seconds.
    ensures quiet { IsQuiet progress.old progress.new }
{
    let output = Output::new(alloc, sink);
    match read_for(alloc, asked_of(words), source) {
        Ok((asked, bytes)) => trace_bytes(rt, alloc, asked, &bytes, output, progress),
        Err(Unread::Usage) => usage(output),
        Err(Unread::SourceFault) => end(output, Some(Last::SourceFault)),
        Err(Unread::OutOfMemory) => end(output, None),
    }
}

/// Says how the program is called.
fn usage<K: Sink>(output: Output<K>) -> Traced<K>
    ensures { (held : Option (List ℕ)) (fell : ℕ) → HasTold held fell [] output
        → Wrote held (K.held result.sink) fell (K.faults result.sink) result.status 2 trace_usage }
{
    let mut output = output;
    output.tell(TRACE_USAGE);
    finish(output, USAGE)
}

/// Tells the run of what was read, where it is a script.
fn trace_bytes<R: Threads + Sync, K: Sink, T: Timer, E: Sink>(
    rt: &R,
    alloc: Global,
    asked: Asked,
    bytes: &[u8],
    output: Output<K>,
    progress: &mut Progress<T, E>,
) -> Traced<K>
    ensures wrote { (held : Option (List ℕ)) (fell : ℕ) → HasTold held fell [] output
        → WroteOne (IsTracedFor asked (reading_of bytes.now)) held (K.held result.sink)
        fell (K.faults result.sink) result.status }
    ensures quiet { IsQuiet progress.old progress.new }
{
    match script_or_refusal(alloc, bytes) {
        Ok(script) => trace_script(rt, alloc, asked, &script, output, progress),
        Err(line) => end(output, line),
    }
}

/// Tells the run of a script, unless all its members are late: then nothing is run, and it says how the program
/// is called.
fn trace_script<R: Threads + Sync, K: Sink, T: Timer, E: Sink>(
    rt: &R,
    alloc: Global,
    asked: Asked,
    script: &Script,
    output: Output<K>,
    progress: &mut Progress<T, E>,
) -> Traced<K>
    requires { HasRanges script.now }
    ensures wrote { (held : Option (List ℕ)) (fell : ℕ) → HasTold held fell [] output
        → WroteOne (IsTraced asked script.now) held (K.held result.sink)
        fell (K.faults result.sink) result.status }
    ensures quiet { IsQuiet progress.old progress.new }
{
    let part = Part::with_late(asked.late);
    if are_all_late(script, &part) {
        return usage(output);
    }
    trace_run(rt, alloc, asked.form, script, &part, output, progress)
}

/// Tells the run of a script in this form.
fn trace_run<R: Threads + Sync, K: Sink, T: Timer, E: Sink>(
    rt: &R,
    alloc: Global,
    form: Form,
    script: &Script,
    part: &Part,
    output: Output<K>,
    progress: &mut Progress<T, E>,
) -> Traced<K>
    requires ranges { HasRanges script.now }
    requires some { HaveSomebodyPrompt script.now part.now }
    ensures wrote { (held : Option (List ℕ)) (fell : ℕ) → HasTold held fell [] output
        → WroteOne (IsRunTold form script.now part.now) held (K.held result.sink)
        fell (K.faults result.sink) result.status }
    ensures quiet { IsQuiet progress.old progress.new }
{
    match form {
        Form::Lines => trace_lines(rt, alloc, script, part, Lines::new(alloc, output)),
        Form::Chart => match Chart::new(alloc, script.members, is_lockstep(script)) {
            Ok(chart) => trace_chart(rt, alloc, script, part, Drawing { output, chart }),
            Err(_) => end(output, None),
        },
        Form::Picture { from, to } => match Picturing::new(alloc, script, Window { from, to }) {
            Ok(picturing) => trace_picture(rt, alloc, script, part, picturing, output, progress),
            Err(_) => end(output, None),
        },
    }
}

/// Tells the run of a script, a line for each event.
fn trace_lines<R: Threads + Sync, K: Sink>(
    rt: &R,
    alloc: Global,
    script: &Script,
    part: &Part,
    lines: Lines<K>,
) -> Traced<K>
    requires ranges { HasRanges script.now }
    requires some { HaveSomebodyPrompt script.now part.now }
    ensures { (held : Option (List ℕ)) (fell : ℕ) → HasTold held fell [] lines.output
        → WroteOne (IsRunTold Form.Lines script.now part.now) held (K.held result.sink)
        fell (K.faults result.sink) result.status }
{
    let mut lines = lines;
    let outcome = watch_in_memory(rt, alloc, script, part, &mut lines);
    end(lines.output, outcome.last)
}

/// Tells the run of a script as a chart.
fn trace_chart<R: Threads + Sync, K: Sink>(
    rt: &R,
    alloc: Global,
    script: &Script,
    part: &Part,
    drawing: Drawing<K>,
) -> Traced<K>
    requires ranges { HasRanges script.now }
    requires some { HaveSomebodyPrompt script.now part.now }
    ensures { (held : Option (List ℕ)) (fell : ℕ) → HasTold held fell [] drawing
        → WroteOne (IsRunTold Form.Chart script.now part.now) held (K.held result.sink)
        fell (K.faults result.sink) result.status }
{
    let mut drawing = drawing;
    let outcome = watch_in_memory(rt, alloc, script, part, &mut drawing);
    end(drawing.output, outcome.last)
}

/// Draws the run of a script on a picture, and tells it.
fn trace_picture<R: Threads + Sync, K: Sink, T: Timer, E: Sink>(
    rt: &R,
    alloc: Global,
    script: &Script,
    part: &Part,
    picturing: Picturing,
    output: Output<K>,
    progress: &mut Progress<T, E>,
) -> Traced<K>
    requires ranges { HasRanges script.now }
    requires some { HaveSomebodyPrompt script.now part.now }
    ensures wrote { (from to : ℕ) (held : Option (List ℕ)) (fell : ℕ) → HasTold held fell [] output
        → WroteOne (IsRunTold (Form.Picture from to) script.now part.now) held (K.held result.sink)
        fell (K.faults result.sink) result.status }
    ensures quiet { IsQuiet progress.old progress.new }
{
    let mut picturing = picturing;
    let outcome = watch_with_progress(rt, alloc, script, part, &mut picturing, progress);
    let Ok(drawn) = picturing.finish(alloc) else {
        return end(output, None);
    };
    match &outcome.last {
        Some(last) => hang(output, drawn.as_str(), last),
        None => end(output, None),
    }
}

/// Tells a picture, with the last line in it, and writes what waits.
fn hang<K: Sink>(output: Output<K>, drawn: &str, last: &Last) -> Traced<K>
    ensures { (held : Option (List ℕ)) (fell : ℕ) → HasTold held fell [] output
        → Wrote held (K.held result.sink) fell (K.faults result.sink) result.status
        (end_status (Some last.now)) (drawn.now ++ picture_ending (Some last.now)) }
{
    let mut output = output;
    output.tell(drawn);
    output.tell_last(last);
    output.tell(CLOSING);
    finish(output, status_of(last))
}

/// Tells the last line, and writes what waits. There is none where memory was wanting.
fn end<K: Sink>(output: Output<K>, last: Option<Last>) -> Traced<K>
    ensures wrote { (held : Option (List ℕ)) (fell : ℕ) (text : List ℕ) → HasTold held fell text output
        → Wrote held (K.held result.sink) fell (K.faults result.sink) result.status
        (end_status last) (text ++ traced_end_line last) }
    ensures status { Contains (end_status last ∷ 10 ∷ 5 ∷ []) result.status }
{
    let mut output = output;
    match &last {
        Some(line) => {
            output.tell_last(line);
            finish(output, status_of(line))
        }
        None => finish(output, OUT_OF_MEMORY),
    }
}

/// Writes what waits, and answers this status, where nothing is in the way.
fn finish<K: Sink>(output: Output<K>, due: u8) -> Traced<K>
    ensures wrote { (held : Option (List ℕ)) (fell : ℕ) (text : List ℕ) → HasTold held fell text output
        → Wrote held (K.held result.sink) fell (K.faults result.sink) result.status due text }
    ensures status { Contains (due ∷ 10 ∷ 5 ∷ []) result.status }
{
    let (sink, trouble) = output.finish();
    let status = match trouble {
        None => due,
        Some(Trouble::Sink) => WRITE_FAULT,
        Some(Trouble::Memory) => OUT_OF_MEMORY,
    };
    Traced { status, sink }
}
