//! How many turns are enough in lockstep.
ghost use Rattle.std.specs.Prelude.{◌≡◌, ◌↔◌, ◌≤◌, []};
ghost use Rattle.dr_complete.specs.{Enough.{most_messages, turns_enough}, Time.HasTime};
ghost use Rattle.dr_script.specs.{Ranges.{HasGroupRanges, HasRanges}, declared.script.Schedule.TheVariants.Lockstep};
ghost use Rattle.dr_script.specs.declared.script.Script.{Script as ScriptOf};

use dr_script::Script;

/// How many messages the member has that has most, at most `MAX_MESSAGES`.
pub fn most_messages(script: &Script) -> usize
    ensures { result ≡ most_messages script.now }
{
    script
        .messages
        .as_slice()
        .iter()
        .map(|messages| messages.as_slice().len())
        .fold(0, |most, count| most.max(count))
}

/// How many turns are enough in lockstep.
pub fn turns_enough(script: &Script) -> usize
    requires { HasRanges script.now }
    ensures { result ≡ turns_enough script.now }
{
    4 * most_messages(script) + 8
}

/// A law: a script without faults, in lockstep, gives its members time enough exactly where it has as many
/// turns as are told.
pub fn enough_is_time()
    ensures { (s : ScriptOf) → HasGroupRanges s → s.faults ≡ [] → s.schedule ≡ Lockstep
        → HasTime s ↔ (turns_enough s ≤ s.turns) }
{}
