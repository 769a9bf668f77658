//! Laws of shards.
ghost use Rattle.std.specs.Prelude.{◌≡◌, ℕ, ◌/◌, ◌%◌, ◌<◌, None, Some, slice_get};
ghost use Rattle.dr_entry.specs.declared.end.AgeEnd.{AgeEnd};
ghost use Rattle.dr_script.specs.{Ranges.HasRanges, declared.script.Script.Script};
ghost use Rattle.dr_shards.specs.{Layout.{AgreeOn, lay_refusal, shard_members, shard_of}, Shards.IsShardAge};
ghost use Rattle.dr_shards.specs.declared.run.ShardMode.TheVariants.{Sim};

use dr_sim::simulations_repeat;

/// In its shard a member stands at the place of its number there.
pub fn members_keep_their_numbers()
    ensures { (shards members m : ℕ) → 0 < shards → m < members
        → slice_get (shard_members shards (m % shards) members) (m / shards) ≡ Some m }
{}

/// What goes on in other shards changes nothing: scripts that agree on a shard give it the same script, and
/// the same age where it is simulated.
pub fn shards_repeat()
    ensures same { (one other : Script) (shards k : ℕ) → lay_refusal one shards ≡ None
        → lay_refusal other shards ≡ None → AgreeOn shards k one other
        → shard_of one shards k ≡ shard_of other shards k }
    ensures repeats { (one other : Script) (shards k : ℕ) → HasRanges one → k < shards
        → lay_refusal one shards ≡ None → lay_refusal other shards ≡ None → AgreeOn shards k one other
        → (age again : AgeEnd) → IsShardAge Sim (shard_of one shards k) age
        → IsShardAge Sim (shard_of other shards k) again → age ≡ again }
{
    simulations_repeat();
}
