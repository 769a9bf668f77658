//! The watcher that draws a picture.
use dr_member::Member;
use dr_picture::{Picture, Window};
use dr_restart::Start;
use dr_script::{Schedule, Script};
use dr_sim::Watcher;
use std::alloc::{AllocError, Global};

/// Draws a picture, which is kept in memory until the run is over.
#[derive(Drop)]
pub(crate) struct Picturing {
    picture: Picture,
    /// Whether memory was wanting for what was to be drawn. Nothing more is drawn from then on.
    is_wanting: bool,
}

impl Picturing {
    /// A watcher that draws on an empty picture these turns of a run of the script.
    pub(crate) fn new(
        alloc: Global,
        script: &Script,
        window: Window,
    ) -> Result<Picturing, AllocError> {
        Ok(Picturing {
            picture: Picture::new(alloc, script.members, is_lockstep(script), window)?,
            is_wanting: false,
        })
    }

    /// The picture, up to the words behind which the last line is to stand.
    pub(crate) fn finish(self, alloc: Global) -> Result<String, AllocError> {
        let mut text = String::new(alloc);
        if self.is_wanting {
            return Err(AllocError);
        }
        self.picture.push_to(&mut text)?;
        Ok(text)
    }
}

/// Whether a script runs by whole turns.
pub(crate) fn is_lockstep(script: &Script) -> bool {
    matches!(script.schedule, Schedule::Lockstep)
}

impl Watcher for Picturing {
    ghost use Rattle.std.specs.Prelude.{⊤};

    ghost opens = { λ old start new. ⊤ };

    ghost sees = { λ old member table new. ⊤ };

    ghost closes = { λ old members table new. ⊤ };

    fn open(&mut self, start: &Start) {
        if !self.is_wanting {
            let drawn = self.picture.open(start.age, start.entries.as_slice().len());
            self.is_wanting = drawn.is_err();
        }
    }

    fn takes_note(&self) -> bool {
        true
    }

    fn see(&mut self, member: &Member, _table: &[u64]) {
        if !self.is_wanting {
            self.is_wanting = self.picture.see(member).is_err();
        }
    }

    fn close(&mut self, members: &[Option<Member>], _table: &[u64]) {
        if !self.is_wanting {
            self.is_wanting = self.picture.close(members).is_err();
        }
    }
}
