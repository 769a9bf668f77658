ghost use Rattle.std.specs.Prelude.{◌≡◌, ℕ, ◌↔◌, true, IsTrue, MatchOption};
ghost use Rattle.dr_history.specs.Members.{has};
ghost use Rattle.dr_words.specs.Masks.{IsInRoster};
ghost use Rattle.dr_pred.specs.{Group.IsOfShape, Watches.AllCountsFinal};
ghost use Rattle.dr_lead.specs.{Accepts.AllPromise, Standings.{IsStanding, unsuspected}};
ghost use Rattle.dr_lead.specs.Changes.{IsFirstValue, IsHighest, IsProposal, IsUntagged, MayPropose};

use crate::Standing;
use crate::accepts::{all_promise, promise, shown, tag};
use dr_entry::{MAX_MEMBERS, Value};
use dr_pred::{AllFinal, Watch};
use dr_rows::Rows;
use dr_trim::trim_of;
use dr_words::{Mask, Shape};

/// The value that the member proposes now by its own ballot. Where unsuspected rows show proposals, it is
/// that of the highest tag, as the least row with this tag shows it. Else the suspects leave, those that it
/// wishes for come, and of each member of the view as many items are delivered as all unsuspected members have
/// received.
///
/// The unsuspected members have promised exactly this member: in a row that has promised a later one, words
/// of two proposals may stand side by side. Whoever asks is wedged and has committed nothing in this view.
pub fn try_propose(rows: &Rows, s: &Standing) -> Option<Value>
    requires { IsStanding rows.now s.now }
    ensures { MatchOption result (¬ MayPropose rows.now s.now)
        (λ v. MayPropose rows.now s.now × IsProposal rows.now s.now v) }
{
    if may_propose(rows, s) {
        Some(proposal(rows, s))
    } else {
        None
    }
}

// Whether the member may propose.
fn may_propose(rows: &Rows, s: &Standing) -> bool
    requires { IsStanding rows.now s.now }
    ensures { IsTrue result ↔ MayPropose rows.now s.now }
{
    let of = s.unsuspected();
    s.caught_up
        && promise(rows, &s.shape, s.me) == s.me
        && tag(rows, &s.shape, s.me) != s.me + 1
        && of.is_majority_of(s.members)
        && are_final(rows, s, of)
        && all_promised(rows, s, of)
}

// Whether in the rows of the members of `of` all counts of the view's senders are final.
fn are_final(rows: &Rows, s: &Standing, of: Mask) -> bool
    requires standing { IsStanding rows.now s.now }
    requires of { IsInRoster rows.now.members of }
    ensures { IsTrue result ↔ AllCountsFinal of s.now.members rows.now }
{
    let watch = AllFinal {
        shape: s.shape,
        of,
        senders: s.members,
    };
    watch.holds(rows)
}

// Whether in the rows of the members of `of` all accept words of the view have the own promise.
fn all_promised(rows: &Rows, s: &Standing, of: Mask) -> bool
    requires standing { IsStanding rows.now s.now }
    requires of { IsInRoster rows.now.members of }
    ensures { IsTrue result ↔ ((i : ℕ) → has of i ≡ true
        → AllPromise rows.now s.now.members i s.now.me) }
{
    for row in 0..MAX_MEMBERS as u8 {
        if of.has(row) && !all_promise(rows, &s.shape, s.members, row, s.me) {
            return false;
        }
    }
    true
}

// The value to propose.
fn proposal(rows: &Rows, s: &Standing) -> Value
    requires { IsStanding rows.now s.now }
    ensures { IsProposal rows.now s.now result }
{
    match highest(rows, &s.shape, s.unsuspected()) {
        Some(row) => shown(rows, &s.shape, s.members, row),
        None => first_value(rows, s),
    }
}

// The least of the rows of the members of `of` that have the highest tag; `None` where none has a tag.
fn highest(rows: &Rows, shape: &Shape, of: Mask) -> Option<u8>
    requires shape { IsOfShape shape.now rows.now }
    requires of { IsInRoster rows.now.members of }
    ensures { MatchOption result (IsUntagged rows.now of) (IsHighest rows.now of) }
{
    let mut highest = None;
    let mut most = 0;
    for row in 0..MAX_MEMBERS as u8 {
        if of.has(row) && tag(rows, shape, row) > most {
            highest = Some(row);
            most = tag(rows, shape, row);
        }
    }
    highest
}

// The value of a member that sees no proposal.
fn first_value(rows: &Rows, s: &Standing) -> Value
    requires { IsStanding rows.now s.now }
    ensures { IsFirstValue rows.now s.now result }
{
    Value {
        leavers: s.suspects.bits(),
        trim: trim_of(rows, &s.shape, s.unsuspected(), s.members),
    }
}
