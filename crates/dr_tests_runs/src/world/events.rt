//! Events by their names and numbers.
use dr_entry::{End, MAX_MEMBERS, Value};
use dr_world::Event;

/// The event of this name whose member is the first of these numbers, where there is one.
pub(crate) fn event_of(name: &str, numbers: &[u8]) -> Option<Event> {
    let m = *numbers.first()?;
    match name {
        "beat" => Some(Event::Beat { m }),
        "send" => Some(Event::Send { m }),
        "null" => Some(Event::Null { m }),
        "deliver" => Some(Event::Deliver { m }),
        "append" => Some(Event::Append { m }),
        "publish" => Some(Event::Publish { m }),
        "report" => Some(Event::Report { m }),
        "mark" => Some(Event::Mark { m }),
        "propose" => Some(Event::Propose { m }),
        "accept" => Some(Event::Accept { m }),
        "commit" => Some(Event::Commit { m }),
        "finish" => Some(Event::Finish { m }),
        "join" => Some(Event::Join { m }),
        "crash" => Some(Event::Crash {
            m,
            end: End::Crashed,
        }),
        "vote" => Some(Event::LogVote {
            m,
            value: value_of(numbers),
        }),
        _ => event_with(name, m, numbers.get(1..)?),
    }
}

/// The event of this name of a member that has more numbers.
fn event_with(name: &str, m: u8, numbers: &[u8]) -> Option<Event> {
    match (name, numbers) {
        ("receive", &[s]) => Some(Event::Receive { m, s }),
        ("suspect", &[j]) => Some(Event::Suspect { m, j }),
        ("welcome", &[j]) => Some(Event::Welcome { m, j }),
        ("excluded", &[view]) => Some(Event::Halt {
            m,
            end: End::Excluded { view },
        }),
        ("look", &[i, c]) => Some(Event::Look {
            m,
            i,
            c: usize::from(c),
        }),
        ("push", &[j, c]) => Some(Event::Push {
            m,
            j,
            c: usize::from(c),
        }),
        _ => None,
    }
}

/// The value of a vote: behind its member stand the mask of the members that it names, and the counts of the
/// trim.
fn value_of(numbers: &[u8]) -> Value {
    let mut trim = [0; MAX_MEMBERS];
    for (count, number) in trim.iter_mut().zip(numbers.iter().skip(2)) {
        *count = u32::from(*number);
    }
    Value {
        leavers: numbers.get(1).map_or(0, |names| u16::from(*names)),
        trim,
    }
}
