ghost use Rattle.std.specs.Prelude.{◌≡◌, Bool, true, false, ◌||◌, ◌↔◌, IsTrue};

use crate::Watch;
use dr_rows::Rows;
use std::marker::Model;

/// A watch that answers once: at the first poll at which it holds.
///
/// Contracts see the watch, and whether a poll has answered true.
#[derive(Drop)]
pub struct Once<W> {
    watch: W,
    answered: bool,
}

impl<W> Model for Once<W> {
    ghost use Rattle.std.specs.Prelude.{Bool};

    ghost Value = { W × Bool };

    ghost view = { λ o. (o.watch, o.answered) };
}

impl<W: Watch> Once<W> {
    /// Waits for the watch; no poll has answered yet.
    pub fn new(w: W) -> Once<W>
        ensures { result ≡ (w, false) }
    {
        Once {
            watch: w,
            answered: false,
        }
    }

    /// Whether this is the first poll at which the watch holds.
    pub fn poll(&mut self, rows: &Rows) -> bool
        requires { W.fits self.old.0 rows.now }
        ensures first { IsTrue result ↔ ((self.old.1 ≡ false) × W.waits_for self.old.0 rows.now) }
        ensures after { self.new ≡ (self.old.0, self.old.1 || result) }
    {
        if self.answered {
            return false;
        }
        self.answered = self.watch.holds(rows);
        self.answered
    }
}
