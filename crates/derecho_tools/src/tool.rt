use crate::logs::LOG_USAGE;
use crate::reports::JUDGE_USAGE;
use crate::texts::{
    EXPLAIN_HELP, FOLDER_HELP, JUDGE_HELP, LOG_HELP, SUMMARY_HELP, SWEEP_HELP, TRACE_HELP,
};
use dr_tools::{EXPLAIN_USAGE, FOLDER_USAGE, SUMMARY_USAGE, SWEEP_USAGE, TRACE_USAGE};

/// What to look with.
#[derive(Clone, Copy, Debug, PartialEq, Eq)]
pub(crate) enum Tool {
    /// The summary of a run.
    Summary,
    /// What happens in a run, in order.
    Trace,
    /// Why a script is refused, and how many turns are enough for one that isn't.
    Explain,
    /// How a script ends by many seeds.
    Sweep,
    /// Whether a report is right.
    Judge,
    /// The records of log files.
    Log,
    /// What the next run over a folder of logs would do.
    Folder,
}

impl Tool {
    /// The tool that a word names.
    pub(crate) fn named(word: &str) -> Option<Tool> {
        match word {
            "summary" => Some(Tool::Summary),
            "trace" => Some(Tool::Trace),
            "explain" => Some(Tool::Explain),
            "sweep" => Some(Tool::Sweep),
            "judge" => Some(Tool::Judge),
            "log" => Some(Tool::Log),
            "folder" => Some(Tool::Folder),
            _ => None,
        }
    }

    /// How it is called.
    pub(crate) fn usage(self) -> &'static str {
        match self {
            Tool::Summary => SUMMARY_USAGE,
            Tool::Trace => TRACE_USAGE,
            Tool::Explain => EXPLAIN_USAGE,
            Tool::Sweep => SWEEP_USAGE,
            Tool::Judge => JUDGE_USAGE,
            Tool::Log => LOG_USAGE,
            Tool::Folder => FOLDER_USAGE,
        }
    }

    /// What it does.
    pub(crate) fn help(self) -> &'static str {
        match self {
            Tool::Summary => SUMMARY_HELP,
            Tool::Trace => TRACE_HELP,
            Tool::Explain => EXPLAIN_HELP,
            Tool::Sweep => SWEEP_HELP,
            Tool::Judge => JUDGE_HELP,
            Tool::Log => LOG_HELP,
            Tool::Folder => FOLDER_HELP,
        }
    }
}
