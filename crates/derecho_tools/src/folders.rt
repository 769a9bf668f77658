use dr_io::{InputSource, OutputSink};
use dr_literals::number_word;
use dr_tools::check_logs;
use dr_yard::accept_log;
use std::alloc::Global;

/// How many members a group may have.
const MEMBERS: u64 = 16;

/// Looks at the logs of a folder, where `--accept I` stands behind it once that of member `I` was accepted.
pub(crate) fn look_at_folder(rt: &HostRuntime, alloc: Global, words: &[String]) -> u8 {
    let words = match words {
        [folder, option, number] if option.as_str() == "--accept" => {
            match number_word(number.as_str()) {
                Some(member) if member < MEMBERS => {
                    accept(rt, folder.as_str(), member as u8);
                    &words[..1]
                }
                _ => words,
            }
        }
        _ => words,
    };
    check_logs(
        rt,
        alloc,
        words,
        &mut InputSource::new(rt.stdin()),
        &mut OutputSink::new(rt.stdout()),
        &mut OutputSink::new(rt.stderr()),
    )
}

/// Accepts the log of a member, and says on standard error what that means.
fn accept(rt: &HostRuntime, folder: &str, member: u8) {
    let _ = match accept_log(rt, folder, member) {
        Ok(Some(_)) => eprintln!(rt;
            "member-{member}.log is sealed as it is: what stood on another one, and on no other log, is lost"
        ),
        Ok(None) => eprintln!(rt;
            "member-{member}.log counts as a new one: what stood on an older one, and on no other log, is lost"
        ),
        Err(reason) => eprintln!(rt; "member-{member}.log isn't accepted, as it {reason}"),
    };
}
