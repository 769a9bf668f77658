ghost use Rattle.std.specs.Prelude.{◌↔◌, IsTrue};

use dr_rows::Rows;

/// Something that a member waits for in its rows, and that goes on to hold where the rows grow.
pub trait Watch {
    ghost use Rattle.dr_rows.specs.Words.{Words};
    ghost use Rattle.dr_pred.specs.Group.{RowsGrown};

    // which rows may be asked: those of a group, which has all members that the watch names
    ghost fits: { Self → Words → Type 0 };

    // what the watch waits for
    ghost waits_for: { Self → Words → Type 0 };

    /// Whether it holds in the rows.
    fn holds(&self, rows: &Rows) -> bool
        requires { fits self.now rows.now }
        ensures { IsTrue result ↔ waits_for self.now rows.now };

    // what holds goes on to hold
    ghost lasts: { (w : Self) (old new : Words) → fits w old → fits w new → RowsGrown old new
        → waits_for w old → waits_for w new };
}
