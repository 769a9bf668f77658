//! This part reads a script and reports of it, line by line, and prints how each is judged. What it
//! has to print was worked out by hand.
//!
//! A line that begins with a brace is a script. One that begins with `#` says what the lines behind it show,
//! and is printed. At a line `?` the report that was gathered is judged. Every other line is one of a report;
//! behind one that ends with a backslash there is no line feed.
use dr_check::verdict_on;
use dr_script::read_script;
use dr_text::push_last;
use std::alloc::Global;

/// Prints what becomes of these lines.
pub(crate) fn show(rt: &HostRuntime, lines: &str) -> anyhow::Result<()> {
    let alloc = rt.alloc();
    let mut script = String::new(alloc);
    let mut report = String::new(alloc);
    for line in lines.lines() {
        if line.starts_with('{') {
            script = String::from_str(alloc, line)?;
        } else if line.starts_with('#') {
            println!(rt; "{line}")?;
        } else if line == "?" {
            let line = line_for(alloc, script.as_str(), report.as_str())?;
            print!(rt; "{line}")?;
            report.clear();
        } else if let Some(part) = line.strip_suffix('\\') {
            report.push_str(part)?;
        } else {
            report.push_str(line)?;
            report.push_str("\n")?;
        }
    }
    Ok(())
}

/// The line that says how a report of a script is judged.
fn line_for(alloc: Global, script: &str, report: &str) -> anyhow::Result<String> {
    let script = read_script(alloc, script.as_bytes())?;
    let verdict = verdict_on(alloc, &script, report.as_bytes())?;
    let mut text = String::new(alloc);
    push_last(&mut text, &verdict.line())?;
    Ok(text)
}
