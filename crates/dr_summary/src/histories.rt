ghost use Rattle.std.specs.Prelude.{◌≡◌};
ghost use Rattle.dr_summary.specs.Histories.{longest};

use dr_entry::{Entry, MemberEnd};

/// The longest history, the first one of these, empty where there is no member.
pub fn longest(members: &[MemberEnd]) -> &[Entry]
    ensures { result.now ≡ longest members.now }
{
    let mut longest: &[Entry] = &[];
    for member in members {
        let own = member.history.as_slice();
        if own.len() > longest.len() {
            longest = own;
        }
    }
    longest
}
