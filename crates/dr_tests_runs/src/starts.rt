//! Starts of ages in which some members are away or late.
ghost use Rattle.std.specs.Prelude.{IfSome};
ghost use Rattle.dr_machine.specs.Group.{IsGroup};
ghost use Rattle.dr_restart.specs.Groups.{group_of};
ghost use Rattle.dr_script.specs.Ranges.{HasGroupRanges};

use dr_entry::Seq;
use dr_restart::Start;
use dr_script::Script;
use dr_words::Mask;
use std::alloc::Global;

/// The first start of a script without some members and with others late, where somebody is left for its first view.
pub(crate) fn start_without(alloc: Global, script: &Script, away: Mask, late: Mask) -> Option<Start>
    requires { HasGroupRanges script.now }
    ensures { IfSome result (λ start. IsGroup (group_of script.now start)) }
{
    let there = Mask::all(script.members).without(away);
    let first = there.without(late).bits();
    if first == 0 {
        return None;
    }
    Some(Start {
        age: 0,
        members: first,
        present: there.bits(),
        entries: Seq::of(Vec::new(alloc)),
    })
}
