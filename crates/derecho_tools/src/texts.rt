/// How the program is called.
pub(crate) const USAGE_TEXT: &str =
    "usage: derecho_tools (summary|trace|explain|sweep|judge|log|folder) ..\n";

/// Which program this is: its version, and the logic that its proofs are of.
pub(crate) const VERSION: &str = "derecho_tools 1.0, proved by the logic dac8208d650f15bf\n";

/// What stands below that in the help.
pub(crate) const HELP: &str =
    "\n  summary  runs a script as `derecho sim` does, and sums it up: tables, or a JSON object
  trace    tells what happens in that run, in order: a chart, lines, or a picture
  explain  says why a script is refused; of one that isn't, how many turns are enough
  sweep    runs a script by many seeds: how the runs end, or a smaller script that ends so
  judge    says whether the report of a run is right
  log      prints log files, record by record
  folder   reads the logs of a folder, and tells what a run over them would do

derecho_tools WORD --help says how each is called, derecho_tools --version which one this is.
";

/// What stands in the help of a tool, below how it is called.
pub(crate) const SUMMARY_HELP: &str =
    "\nRuns a script as `derecho sim` does. For each age it prints one history, with the members as
columns, what nobody delivered, which faults never came, how the members ended, and how many
turns were enough.

  json      the same as a JSON object
  --late L  the members that are late: numbers with commas, ascending
";

pub(crate) const TRACE_HELP: &str =
    "\nRuns a script as `derecho sim` does, and tells what happens, in order: as a chart with a column
for each member.

  lines          a line for each event
  svg [FROM TO]  a picture in SVG, of all turns or of those from one to another
  --late L       the members that are late: numbers with commas, ascending
";

pub(crate) const EXPLAIN_HELP: &str =
    "\nSays why `derecho` refuses a script. Of one that it runs it tells how many turns are enough, how
many its group takes, which faults never come, and which say the same as others.
";

pub(crate) const SWEEP_HELP: &str =
    "\nRuns a script by COUNT seeds from FROM on, or by its own schedule once for each point at which
member M may crash, and counts how the runs end.

  --shrink OUTCOME      a smaller script that ends so, of the first of these runs that does: without
                        faults and messages that it can do without; an outcome is what stands last in
                        a row, or what stands there behind the colon, and blanks in it don't count
  --shrink-all OUTCOME  one with fewer turns and shorter messages too: none of them can be one less
  --late L              the members that are late: numbers with commas, ascending
";

pub(crate) const JUDGE_HELP: &str =
    "\nReads a script and the report of a run of it, each from its file, and says whether the report is
right. It tells the first flaw and its line, as `derecho check` does; where two histories differ,
the two entries stand below it, each behind its line.
";

pub(crate) const LOG_HELP: &str =
    "\nPrints log files: the records of each, by the places at which they stand, and how it ends. It
writes no file.
";

pub(crate) const FOLDER_HELP: &str =
    "\nReads the logs of a script's group in a folder. It tells what each is, and what the next run over
them would start with, or by what it would be refused.

  --accept I  first the log of member I is sealed as it is, or as a new one where there is none:
              what stood on another log of I, and on no other, is lost; nothing else is written
";
