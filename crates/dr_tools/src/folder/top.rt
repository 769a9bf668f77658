ghost use Rattle.std.specs.Prelude.{◌≡◌, ◌⊎◌, IfOk, option_map, string_bytes};
ghost use Rattle.dr_script.specs.{Ranges.HasRanges, Reading.reading_of};
ghost use Rattle.dr_tools.specs.Folder.{CheckTold, IsCheckAnswer, IsFolderAnswer, IsSaidOf, folder_named};

use crate::folder::reading::read_files;
use dr_folder::{FolderCheck, check_folder, folder_report, warnings_of};
use dr_intake::{Answer, read_for, script_or_refusal, tell};
use dr_io::{Sink, Source};
use dr_literals::value_word;
use dr_script::Script;
use dr_text::write_all;
use dr_yard::Trouble;
use std::alloc::{AllocError, Global};
use std::fmt::Write;
use std::fs::File;
use std::rt::Files;

/// How it is called.
pub const FOLDER_USAGE: &str = "usage: derecho_tools folder FOLDER < SCRIPT\n";

/// Reads a script from the source, and the logs of its group in the folder that the words name, and writes to the
/// sink what they are and what the next run over them would do. It answers the status.
pub fn check_logs<R: Files<File = File> + AllocGlobal, S: Source, K: Sink, E: Sink>(
    rt: &R,
    alloc: Global,
    words: &[String],
    source: &mut S,
    sink: &mut K,
    errors: &mut E,
) -> u8
    ensures told { CheckTold words.now (S.left source.old) (S.left source.new)
        (S.faults source.old) (S.faults source.new) (K.held sink.old) (K.held sink.new)
        (K.faults sink.old) (K.faults sink.new) result }
    // No fault is hidden.
    ensures write_fault_told { (K.faults sink.new ≡ K.faults sink.old) ⊎ (result ≡ 5) }
{
    tell(answer_for(rt, alloc, words, source, errors), sink)
}

/// What is to be said for these words.
fn answer_for<R: Files<File = File> + AllocGlobal, S: Source, E: Sink>(
    rt: &R,
    alloc: Global,
    words: &[String],
    source: &mut S,
    errors: &mut E,
) -> Result<Answer, AllocError>
    ensures { IfOk result (λ a. IsCheckAnswer words.now (S.left source.old) (S.left source.new)
        (S.faults source.old) (S.faults source.new) (string_bytes a.text, a.status)) }
{
    match read_for(alloc, folder_named(words), source) {
        Ok((folder, bytes)) => answer_to(rt, alloc, folder, &bytes, errors),
        Err(why) => Answer::of_unread(alloc, FOLDER_USAGE, why),
    }
}

/// What is to be said of the logs in a folder, where these bytes are a script.
fn answer_to<R: Files<File = File> + AllocGlobal, E: Sink>(
    rt: &R,
    alloc: Global,
    folder: &str,
    bytes: &[u8],
    errors: &mut E,
) -> Result<Answer, AllocError>
    ensures { IfOk result (λ a. IsSaidOf (reading_of bytes.now) (string_bytes a.text, a.status)) }
{
    match script_or_refusal(alloc, bytes) {
        Ok(script) => answer_to_script(rt, alloc, folder, &script, errors),
        Err(line) => Answer::of_refusal(alloc, line),
    }
}

/// What is to be said of the logs in a folder.
fn answer_to_script<R: Files<File = File> + AllocGlobal, E: Sink>(
    rt: &R,
    alloc: Global,
    folder: &str,
    script: &Script,
    errors: &mut E,
) -> Result<Answer, AllocError>
    requires { HasRanges script.now }
    ensures { IfOk result (λ a. IsFolderAnswer script.now (string_bytes a.text, a.status)) }
{
    let mut troubles = Vec::new(alloc);
    let files = read_files(rt, alloc, folder, script.members, &mut troubles)?;
    let check = check_folder(alloc, script, files)?;
    tell_apart(alloc, &troubles, &check, errors)?;
    folder_report(alloc, &check)
}

/// Says what is wrong with files, and what is worth a look. Nobody is told where that can't be written.
fn tell_apart<E: Sink>(
    alloc: Global,
    troubles: &[Trouble],
    check: &FolderCheck,
    errors: &mut E,
) -> Result<(), AllocError> {
    let mut text = String::new(alloc);
    for trouble in troubles {
        writeln!(text, "{trouble}")?;
    }
    text.push_str(warnings_of(alloc, check)?.as_str())?;
    let _ = write_all(errors, text.as_bytes());
    Ok(())
}

/// The folder that the words name: one word, which is not empty and begins with no dash.
fn folder_named<'a>(words: &'a [String]) -> Option<&'a str>
    ensures { option_map (λ folder. folder.now) result ≡ folder_named words.now }
{
    match words {
        [word] => value_word(word.as_str()),
        _ => None,
    }
}
