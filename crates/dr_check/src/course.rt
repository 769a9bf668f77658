//! What may come next in a text that is read line by line.
ghost use Rattle.std.specs.Prelude.{◌≡◌, ◌<◌, ◌-◌, ◌^◌};
ghost use Rattle.dr_check.specs.Course.{beginning, next_course, age_course, entry_course, member_course};

use crate::line::Line;

/// What has come of the age that is being read: how many entries it started with, how many entries are still
/// to come of a start or a history, and how many members have come; and whether the last line has come.
/// Between ages all members have come.
#[derive(Clone, Copy, Debug)]
pub(crate) struct Course {
    pub(crate) start: u64,
    pub(crate) left: u64,
    pub(crate) member: u8,
    pub(crate) ended: bool,
}

impl Course {
    /// Nothing has come.
    pub(crate) fn begin(members: u8) -> Course
        ensures { result ≡ beginning members }
    {
        Course {
            start: 0,
            left: 0,
            member: members,
            ended: false,
        }
    }

    /// What comes of a line, where it may come in a report of so many members.
    pub(crate) fn next(self, members: u8, line: &Line) -> Option<Course>
        ensures { result ≡ next_course members self line.now }
    {
        if self.ended {
            None
        } else if self.left > 0 {
            self.entry_course(line)
        } else if self.member < members {
            self.member_course(line)
        } else {
            self.age_course(line)
        }
    }

    fn entry_course(self, line: &Line) -> Option<Course>
        requires { 0 < self.left }
        ensures { result ≡ entry_course self line.now }
    {
        match line {
            Line::Entry(_) => Some(Course {
                left: self.left - 1,
                ..self
            }),
            _ => None,
        }
    }

    fn member_course(self, line: &Line) -> Option<Course>
        requires { self.member < 2 ^ 8 - 1 }
        ensures { result ≡ member_course self line.now }
    {
        match line {
            Line::Present {
                member,
                history,
                ..
            } if *member == self.member && self.start <= *history => Some(Course {
                left: *history - self.start,
                member: self.member + 1,
                ..self
            }),
            Line::Absent { member } if *member == self.member => Some(Course {
                member: self.member + 1,
                ..self
            }),
            _ => None,
        }
    }

    fn age_course(self, line: &Line) -> Option<Course>
        ensures { result ≡ age_course self line.now }
    {
        match line {
            Line::Age { start, .. } => Some(Course {
                start: *start,
                left: *start,
                member: 0,
                ended: false,
            }),
            Line::Last => Some(Course {
                ended: true,
                ..self
            }),
            _ => None,
        }
    }
}
