ghost use Rattle.std.specs.Prelude.{◌≡◌, IfOk};
ghost use Rattle.dr_script.specs.Places.{path_text};

use dr_entry::Text;
use std::alloc::{AllocError, Global};

/// A place in the text of a script at which a rule can be broken.
#[derive(Clone, Copy)]
pub(crate) enum Passage {
    /// The whole text.
    Whole,
    Members,
    Window,
    Turns,
    Patience,
    Ages,
    Messages,
    /// The texts of a member.
    Texts { member: usize },
    /// One text of a member, counted from 0.
    Text { member: usize, index: usize },
    Faults,
    /// One fault, counted from 0.
    Fault { index: usize },
    Schedule,
}

impl Passage {
    /// The path of the place, from the whole text down.
    pub(crate) fn path(self, alloc: Global) -> Result<Text, AllocError>
        ensures { IfOk result (λ path. path ≡ path_text self) }
    {
        let path = match self {
            Passage::Whole => String::from_str(alloc, "/")?,
            Passage::Members => String::from_str(alloc, "/members")?,
            Passage::Window => String::from_str(alloc, "/window")?,
            Passage::Turns => String::from_str(alloc, "/turns")?,
            Passage::Patience => String::from_str(alloc, "/patience")?,
            Passage::Ages => String::from_str(alloc, "/ages")?,
            Passage::Messages => String::from_str(alloc, "/messages")?,
            Passage::Texts { member } => format!(in alloc; "/messages/{member}")?,
            Passage::Text { member, index } => format!(in alloc; "/messages/{member}/{index}")?,
            Passage::Faults => String::from_str(alloc, "/faults")?,
            Passage::Fault { index } => format!(in alloc; "/faults/{index}")?,
            Passage::Schedule => String::from_str(alloc, "/schedule")?,
        };
        Ok(Text::of(path))
    }
}

/// A rule that is broken, by its number from 1 to 14, and the first place at which it is.
#[derive(Clone, Copy)]
pub(crate) struct Broken {
    pub(crate) rule: u8,
    pub(crate) place: Passage,
}
