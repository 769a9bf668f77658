ghost use Rattle.std.specs.Prelude.{◌≡◌, ℕ, ◌<◌, ◌==◌, ◌&&◌, ◌||◌, not};
ghost use Rattle.dr_entry.specs.declared.limits.TheConstants.{MAX_MEMBERS};
ghost use Rattle.dr_history.specs.Members.{has};

use dr_words::Mask;

/// The mask without one member.
pub(crate) fn others(members: Mask, me: u8) -> Mask
    requires { me < MAX_MEMBERS }
    ensures { (i : ℕ) → has result i ≡ (has members i && not (i == me)) }
{
    members.without(Mask::empty().with(me))
}

/// The mask of the members that are in both.
pub(crate) fn common(one: Mask, other: Mask) -> Mask
    ensures { (i : ℕ) → has result i ≡ (has one i && has other i) }
{
    one.without(one.without(other))
}

/// The mask of the members that are in one of them.
pub(crate) fn either(one: Mask, other: Mask) -> Mask
    ensures { (i : ℕ) → has result i ≡ (has one i || has other i) }
{
    one.next(other.without(one))
}
