//! How a wedged replica votes for what becomes of its view.
ghost use Rattle.std.specs.Prelude.{◌≡◌, ◌||◌, None, is_some, length, true};
ghost use Rattle.dr_entry.specs.declared.limits.TheConstants.{MAX_MEMBERS};
ghost use Rattle.dr_lead.specs.Standings.{IsStanding};
ghost use Rattle.dr_program.specs.{Form.HasForm, Steps.NoWordFell};
ghost use Rattle.dr_program.specs.Replica.{accepted, is_named, is_others, is_own, is_wedged, may_accept, may_commit, may_propose, may_vote, me, promise, value_due, vote_of, voted};
ghost use Rattle.dr_rows.specs.Words.{seen};
ghost use Rattle.dr_words.specs.Choices as choices;

use super::Replica;
use crate::acceptance::Acceptance;
use dr_entry::{Value, Vote};
use dr_lead::{Standing, promised_value, try_accept, try_commit, try_propose};
use dr_words::Mask;

impl Replica {
    /// Whether it is wedged, has committed nothing, has logged its history, and its rows allow it to
    /// propose or to accept.
    #[inline]
    pub fn votes(&self) -> bool
        ensures { result ≡ may_vote self.now (value_due self.now) }
    {
        self.is_wedged() && self.committed.is_none() && !self.may_append() && self.may_choose()
    }

    /// Whether it may vote for a value.
    pub fn may_vote(&self, value: &Value) -> bool
        ensures { result ≡ may_vote self.now value.now }
    {
        self.votes() && *value == self.value_due()
    }

    /// The value that it votes for, where it may: the one that it proposes, or the one that the member
    /// that it has promised shows. It is wedged.
    pub fn value_due(&self) -> Value
        requires wedged { is_wedged self.now ≡ true }
        ensures { result ≡ value_due self.now }
    {
        let standing = self.standing();
        if let Some(value) = try_propose(&self.rows, &standing) {
            has_all_trims(value);
            return value;
        }
        let value = promised_value(&self.rows, &standing);
        has_all_trims(value);
        value
    }

    /// Its vote for a value.
    pub fn vote_of(&self, value: Value) -> Vote
        ensures { result ≡ vote_of self.now value }
    {
        Vote {
            age: self.age,
            view: self.view,
            ballot: self.promise(),
            members: self.shape.members,
            value,
        }
    }

    /// Its vote for a value went on its log, and waits to be acted on.
    pub fn vote(&mut self, value: Value)
        requires may { may_vote self.old value ≡ true }
        requires free { self.old.pending ≡ None }
        ensures after { self.new ≡ voted self.old value }
        ensures grown { NoWordFell self.old self.new }
        ensures form { HasForm self.new }
    {
        let vote = self.vote_of(value);
        self.votes.push(vote).unwrap();
        self.pending = Some(vote);
    }

    /// Whether a vote waits to be acted on.
    #[inline]
    pub fn waits(&self) -> bool
        ensures { result ≡ is_some self.now.pending }
    {
        self.pending.is_some()
    }

    /// Whether the vote that waits is by its own ballot.
    #[inline]
    pub(super) fn is_to_propose(&self) -> bool
        ensures { result ≡ is_own (me self.now) self.now.pending }
    {
        match &self.pending {
            Some(vote) => vote.ballot == self.rows.me(),
            None => false,
        }
    }

    /// Whether the vote that waits is by another member's ballot.
    #[inline]
    pub(super) fn is_to_accept(&self) -> bool
        ensures { result ≡ is_others (me self.now) self.now.pending }
    {
        match &self.pending {
            Some(vote) => vote.ballot != self.rows.me(),
            None => false,
        }
    }

    /// Whether it is wedged, has committed nothing, and its rows allow it to commit.
    #[inline]
    pub fn may_commit(&self) -> bool
        ensures { result ≡ may_commit self.now }
    {
        self.is_wedged() && self.committed.is_none() && self.sees_majority()
    }

    /// Whether the value that it has committed names it as one that leaves.
    #[inline]
    pub fn is_named(&self) -> bool
        ensures { result ≡ is_named (me self.now) self.now.committed }
    {
        match &self.committed {
            Some(value) => Mask::of(value.leavers).has(self.rows.me()),
            None => false,
        }
    }

    /// It accepts the value of the vote that waits.
    pub(super) fn accept(&mut self)
        requires { is_some self.old.pending ≡ true }
        ensures { self.new ≡ accepted self.old }
    {
        let vote = self.pending.unwrap();
        let acceptance = Acceptance {
            shape: self.shape,
            members: self.members,
            tag: vote.ballot + 1,
            value: vote.value,
        };
        acceptance.rewrite(&mut self.rows);
        self.tag = acceptance.tag;
        self.value = acceptance.value;
        self.pending = None;
    }

    /// Whether its rows allow it to propose or to accept.
    fn may_choose(&self) -> bool
        requires wedged { is_wedged self.now ≡ true }
        ensures { result ≡ (may_propose self.now || may_accept self.now) }
    {
        let standing = self.standing();
        try_propose(&self.rows, &standing).is_some() || try_accept(&self.rows, &standing).is_some()
    }

    /// Whether it has a tag that a majority of its view has.
    fn sees_majority(&self) -> bool
        requires wedged { is_wedged self.now ≡ true }
        ensures { result ≡ choices.may_commit self.now.roster (seen self.now.rows) self.now.members
            (me self.now) }
    {
        try_commit(&self.rows, &self.standing()).is_some()
    }

    /// The member whose proposal it waits for, once it is wedged.
    fn promise(&self) -> u8
        ensures { result ≡ promise self.now }
    {
        if self.is_wedged() {
            self.suspects.unsuspected().least().unwrap()
        } else {
            0
        }
    }

    /// Where it stands in the change of its view, its history logged.
    fn standing(&self) -> Standing
        requires wedged { is_wedged self.now ≡ true }
        ensures form { IsStanding self.now.rows result }
        ensures members { result.members ≡ self.now.members }
        ensures suspects { result.suspects ≡ self.now.suspects }
        ensures logged { result.caught_up ≡ true }
    {
        Standing {
            me: self.rows.me(),
            members: self.members,
            suspects: self.suspects.mask(),
            shape: self.shape,
            caught_up: true,
        }
    }
}

/// A value has a trim for each member that a roster can have.
#[inline(always)]
fn has_all_trims(value: Value)
    ensures { length value.trim ≡ MAX_MEMBERS }
{
    let _trim = value.trim;
}
