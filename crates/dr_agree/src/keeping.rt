//! Ages that keep what earlier ones have delivered durably.
ghost use Rattle.std.specs.Prelude.{◌≡◌, ◌↔◌, ◌<◌, IsTrue, take, ℕ};
ghost use Rattle.dr_history.specs.{History.IsPrefixOf, Restarting.{AreLeftBy, IsLongest, Kept}};
ghost use Rattle.dr_machine.specs.{Group.{IsGroup, IsPresent, roster}, World.{World as WorldOf, opening_world}};
ghost use Rattle.dr_machine.specs.Run.{ComesOfEvents, IsReached, Run, accounts_in};
ghost use Rattle.dr_restart.specs.{Groups.group_of, Left.entries_on_logs, declared.start.Start.Start as StartOf};
ghost use Rattle.dr_world.specs.Held.{its_group, its_world};

use dr_entry::Entry;
use dr_oracle::is_prefix;
use dr_restart::{LogLists, Start};
use dr_script::Script;
use dr_world::{Event, World};

/// A law: after any list of events, and whatever entries stops leave on the logs of the members, by number, an
/// age with a greater number that starts with the longest of these lists keeps what the group has delivered
/// durably. Any votes may stand beside the entries.
pub fn kept_after(script: &Script, start: &Start, events: &[Event], choice: &[LogLists], age: u16)
    requires group { IsGroup (group_of script.now start.now) }
    requires choice { (w : WorldOf) → Run (group_of script.now start.now)
        (opening_world (group_of script.now start.now)) events.now w
        → AreLeftBy (group_of script.now start.now).opening (accounts_in w) (entries_on_logs choice.now) }
    requires later { start.now.age < age }
    ensures { (w : WorldOf) (next : StartOf) → Run (group_of script.now start.now)
        (opening_world (group_of script.now start.now)) events.now w
        → next.age ≡ age → IsLongest (entries_on_logs choice.now) next.entries
        → Kept (group_of script.now start.now).opening (accounts_in w) (group_of script.now next).opening }
{}

/// A law: so it is of each world that the group reaches, however late the words come that its members push, and
/// of whatever stops leave there.
pub fn kept_wherever_reached(script: &Script, start: &Start, choice: &[LogLists], age: u16)
    requires group { IsGroup (group_of script.now start.now) }
    requires later { start.now.age < age }
    ensures { (w : WorldOf) (next : StartOf) → IsReached (group_of script.now start.now) w
        → AreLeftBy (group_of script.now start.now).opening (accounts_in w) (entries_on_logs choice.now)
        → next.age ≡ age → IsLongest (entries_on_logs choice.now) next.entries
        → Kept (group_of script.now start.now).opening (accounts_in w) (group_of script.now next).opening }
{}

/// Whether an age keeps what another has delivered durably, as this stands in a world of that one: it is a
/// later one, what it starts with was delivered, and it starts with all that some member knows to be durable.
/// It takes no memory.
pub fn kept(before: &World, after: &World) -> bool
    ensures { IsTrue result ↔ Kept (its_group before.now).opening (accounts_in (its_world before.now))
        (its_group after.now).opening }
{
    let start = after.start();
    let entries = start.entries.as_slice();
    if start.age <= before.start().age {
        return false;
    }
    is_delivered(before, entries) && has_durable(before, entries)
}

/// Whether some member has delivered these entries first.
fn is_delivered(world: &World, entries: &[Entry]) -> bool
    ensures { IsTrue result ↔ ((i : ℕ) × IsPresent (its_group world.now) i
        × IsPrefixOf entries.now ((its_world world.now).past.history i)) }
{
    for m in 0..world.members() {
        if is_delivered_by(world, m, entries) {
            return true;
        }
    }
    false
}

/// Whether a member is there and has delivered these entries first.
fn is_delivered_by(world: &World, m: u8, entries: &[Entry]) -> bool
    requires { m < roster (its_group world.now) }
    ensures { IsTrue result ↔ (IsPresent (its_group world.now) m
        × IsPrefixOf entries.now ((its_world world.now).past.history m)) }
{
    world.is_present(m) && is_prefix(entries, world.history(m))
}

/// Whether these entries begin with all that some member knows to be durable.
fn has_durable(world: &World, entries: &[Entry]) -> bool
    ensures { IsTrue result ↔ ((i : ℕ) → IsPresent (its_group world.now) i
        → IsPrefixOf (take ((its_world world.now).past.durable i) ((its_world world.now).past.history i))
        entries.now) }
{
    for m in 0..world.members() {
        if !has_durable_of(world, m, entries) {
            return false;
        }
    }
    true
}

/// Whether a member is absent, or these entries begin with all that it knows to be durable.
fn has_durable_of(world: &World, m: u8, entries: &[Entry]) -> bool
    requires group { IsGroup (its_group world.now) }
    requires events { ComesOfEvents (its_group world.now) (its_world world.now) }
    requires member { m < roster (its_group world.now) }
    ensures { IsTrue result ↔ (IsPresent (its_group world.now) m
        → IsPrefixOf (take ((its_world world.now).past.durable m) ((its_world world.now).past.history m))
        entries.now) }
{
    !world.is_present(m) || is_prefix(durable_entries(world, m), entries)
}

/// The entries that a member knows to be durable.
fn durable_entries(world: &World, m: u8) -> &[Entry]
    requires group { IsGroup (its_group world.now) }
    requires events { ComesOfEvents (its_group world.now) (its_world world.now) }
    requires member { m < roster (its_group world.now) }
    requires present { IsPresent (its_group world.now) m }
    ensures { result.now
        ≡ take ((its_world world.now).past.durable m) ((its_world world.now).past.history m) }
{
    &world.history(m)[..world.durable(m) as usize]
}
