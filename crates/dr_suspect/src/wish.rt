ghost use Rattle.std.specs.Prelude.{◌≡◌, ◌<◌, ◌&&◌, ℕ};
ghost use Rattle.dr_entry.specs.declared.limits.TheConstants.{MAX_MEMBERS};
ghost use Rattle.dr_history.specs.Members.{has};
ghost use Rattle.dr_suspect.specs.Wishes.{is_silent, may_wish};

use dr_entry::Entry;
use dr_words::Mask;

// Those of these members that the entry, if it is a View of this age, doesn't name.
fn silent(members: Mask, entry: &Entry, age: u16) -> Mask
    ensures { (i : ℕ) → has result i ≡ (has members i && is_silent age i entry.now) }
{
    match entry {
        Entry::View {
            age: of,
            members: view,
            ..
        } => {
            if *of == age {
                members.without(Mask::of(*view))
            } else {
                members
            }
        }
        Entry::Msg { .. } => members,
    }
}

/// The late members that a member with this history may wish for.
pub(crate) fn wishable(history: &[Entry], age: u16, late: Mask) -> Mask
    ensures { (i : ℕ) → has result i ≡ may_wish history.now age late i }
{
    let mut left = late;
    if left.bits() != 0 {
        for entry in history {
            left = silent(left, entry, age);
        }
    }
    left
}

/// Whether a member with this history may wish for another one, as that is late and in no View of this age in
/// it.
pub fn may_wish(history: &[Entry], age: u16, late: Mask, member: u8) -> bool
    requires { member < MAX_MEMBERS }
    ensures { result ≡ may_wish history.now age late member }
{
    wishable(history, age, late).has(member)
}
