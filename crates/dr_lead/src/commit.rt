ghost use Rattle.std.specs.Prelude.{◌↔◌, IsTrue, MatchOption};
ghost use Rattle.dr_words.specs.Masks.{IsMajorityOf};
ghost use Rattle.dr_lead.specs.{Accepts.RowShows, Changes.{MayCommit, tagged_members}, Standings.IsStanding};

use crate::Standing;
use crate::accepts::{shown, tag};
use dr_entry::{MAX_MEMBERS, Value};
use dr_lane::count_equal;
use dr_rows::Rows;
use dr_words::unpack_accept;

/// The value that the member commits now: its own, where its tag is that of more than half of the view.
/// Rows of suspected members count too, as they were last seen.
///
/// Whoever asks is wedged and has committed nothing in this view.
pub fn try_commit(rows: &Rows, s: &Standing) -> Option<Value>
    requires { IsStanding rows.now s.now }
    ensures { MatchOption result (¬ MayCommit rows.now s.now)
        (λ v. MayCommit rows.now s.now × RowShows rows.now s.now.members s.now.me v) }
{
    let own = tag(rows, &s.shape, s.me);
    if own != 0 && is_tagged_by_most(rows, s, own) {
        Some(shown(rows, &s.shape, s.members, s.me))
    } else {
        None
    }
}

// Whether the rows of more than half of the view have this tag.
fn is_tagged_by_most(rows: &Rows, s: &Standing, own: u8) -> bool
    requires { IsStanding rows.now s.now }
    ensures { IsTrue result ↔ IsMajorityOf (tagged_members rows.now s.now own) s.now.members }
{
    let mut words = [0; MAX_MEMBERS];
    let count = rows.column_of(s.shape.leavers_column(), s.members.bits(), &mut words);
    let mut tags = [0; MAX_MEMBERS];
    for i in 0..count {
        tags[i] = u64::from(unpack_accept(words[i]).1);
    }
    2 * count_equal(&tags[..count], u64::from(own)) > count
}
