use crate::past::Past;
use crate::report::{ReportAge, ReportMember};
use dr_script::Script;

/// An entry's place: the place in the history of a member of an age, and what is known of the entries before
/// it.
#[derive(Clone, Copy)]
pub(crate) struct EntryPlace<'a> {
    pub(crate) script: &'a Script,
    pub(crate) age: &'a ReportAge,
    pub(crate) member: &'a ReportMember,
    pub(crate) at: usize,
    pub(crate) past: &'a Past,
}
