ghost use Rattle.std.specs.Prelude.{◌↔◌, IsTrue, MatchOption};
ghost use Rattle.dr_lead.specs.{Accepts.{RowShows, promise_of}, Changes.MayAccept, Standings.IsStanding};

use crate::Standing;
use crate::accepts::{all_tag, promise, shown, tag};
use dr_entry::Value;
use dr_rows::Rows;

/// The value that the member accepts now: the one that the row of the promised member shows, which is
/// another member and unsuspected, and whose accept words all have the tag of its ballot.
///
/// The words of a proposal are seen one by one, so it is taken only once it has come whole. Whoever asks is
/// wedged and has committed nothing in this view.
pub fn try_accept(rows: &Rows, s: &Standing) -> Option<Value>
    requires { IsStanding rows.now s.now }
    ensures { MatchOption result (¬ MayAccept rows.now s.now)
        (λ v. MayAccept rows.now s.now
        × RowShows rows.now s.now.members (promise_of rows.now s.now.me) v) }
{
    if may_accept(rows, s) {
        Some(promised_value(rows, s))
    } else {
        None
    }
}

/// The value that the row of the promised member shows, whether or not it has come whole.
pub fn promised_value(rows: &Rows, s: &Standing) -> Value
    requires { IsStanding rows.now s.now }
    ensures { RowShows rows.now s.now.members (promise_of rows.now s.now.me) result }
{
    let promised = promise(rows, &s.shape, s.me);
    shown(rows, &s.shape, s.members, promised)
}

// Whether the member may accept.
fn may_accept(rows: &Rows, s: &Standing) -> bool
    requires { IsStanding rows.now s.now }
    ensures { IsTrue result ↔ MayAccept rows.now s.now }
{
    let promised = promise(rows, &s.shape, s.me);
    s.caught_up
        && promised != s.me
        && s.unsuspected().has(promised)
        && tag(rows, &s.shape, s.me) != promised + 1
        && all_tag(rows, &s.shape, s.members, promised, promised + 1)
}
