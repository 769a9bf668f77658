//! What a file has.

ghost use Rattle.std.specs.Prelude.{◌≡◌, false, IfOk};
ghost use Rattle.dr_folder.specs.declared.file.LogFile.TheVariants as files;
ghost use Rattle.dr_folder.specs.Surveys.{AreSurveys, HasLog, IsSurvey};

use crate::file::LogFile;
use dr_entry::{Seq, Text};
use dr_log_bytes::{Block, Content, FIRST_GATE, block_at, format_of};
use std::alloc::{AllocError, Global};

/// A file that is no longer is a log that is being made.
const EMPTY: usize = 9;

/// What the file of a member has.
#[derive(Debug, Drop)]
pub enum Survey {
    Missing,
    /// A file that can't be read, for this reason.
    Unread {
        why: Text,
    },
    /// A file of so many bytes, which is an empty log.
    Empty {
        len: usize,
    },
    /// A file of so many bytes, which begins as a log on which this is. Then at this place a gate is closed, or
    /// the bytes are damaged.
    Log {
        len: usize,
        content: Content,
        at: usize,
        closed: bool,
    },
}

/// What each of these files has.
pub(crate) fn surveys_of(alloc: Global, files: &[LogFile]) -> Result<Vec<Survey>, AllocError>
    ensures { IfOk result (λ surveys. AreSurveys files.now surveys.items) }
{
    let mut surveys = Vec::new(alloc);
    for member in 0..files.len() {
        let survey = survey_of(alloc, &files[member])?;
        surveys.push(survey)?;
    }
    Ok(surveys)
}

/// What a file has.
fn survey_of(alloc: Global, file: &LogFile) -> Result<Survey, AllocError>
    ensures { IfOk result (IsSurvey file.now) }
{
    match file {
        LogFile::Missing => Ok(Survey::Missing),
        LogFile::Unread { why } => Ok(Survey::Unread {
            why: Text::of(String::from_str(alloc, why.as_str())?),
        }),
        LogFile::Bytes(bytes) => survey_bytes(alloc, bytes),
    }
}

/// What a file of these bytes has.
fn survey_bytes(alloc: Global, bytes: &Seq<u8>) -> Result<Survey, AllocError>
    ensures { IfOk result (IsSurvey (files.Bytes bytes.now)) }
{
    let bytes = bytes.as_slice();
    let len = bytes.len();
    if len <= EMPTY {
        return Ok(Survey::Empty { len });
    }
    let front = front_of(alloc, bytes)?;
    Ok(Survey::Log {
        len,
        content: front.content,
        at: front.at,
        closed: front.closed,
    })
}

/// What bytes begin with.
#[derive(Drop)]
struct Front {
    content: Content,
    at: usize,
    closed: bool,
}

/// Reads the records of a log up to the first closed gate, or as far as they go.
fn front_of(alloc: Global, bytes: &[u8]) -> Result<Front, AllocError>
    ensures { IfOk result (λ front. HasLog bytes.now front.content front.at front.closed) }
{
    let Some(newer) = format_of(bytes) else {
        let content = Content::empty(alloc, true);
        return Ok(broken_off(content, 0));
    };
    let mut content = Content::empty(alloc, newer);
    let mut at = FIRST_GATE;
    loop {
        match block_at(bytes, at) {
            Block::Record(record, len) => {
                if !content.may_take(&record) {
                    return Ok(broken_off(content, at));
                }
                let size = 1 + len;
                content.take(record, size as u64)?;
                at += size;
            }
            Block::Closed => {
                return Ok(Front {
                    content,
                    at,
                    closed: true,
                });
            }
            Block::Broken => return Ok(broken_off(content, at)),
        }
    }
}

/// What bytes begin with that break off at a place.
fn broken_off(content: Content, at: usize) -> Front
    ensures content { result.content ≡ content }
    ensures at { result.at ≡ at }
    ensures closed { result.closed ≡ false }
{
    Front {
        content,
        at,
        closed: false,
    }
}
