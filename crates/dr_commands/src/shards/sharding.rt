ghost use Rattle.std.specs.Prelude.{◌≡◌, ◌≢◌, map, string_bytes};
ghost use Rattle.dr_commands.specs.Sharding.{run_mode, shard_count, sharding_of};

use dr_literals::number_word;
use dr_shards::ShardMode;
use std::fmt;
use std::marker::Model;

/// How many shards a roster is laid out in, 1 to 16. Contracts see it as the number.
#[derive(Drop)]
pub struct ShardCount {
    count: u8,
}

impl Model for ShardCount {
    ghost use Rattle.std.specs.Prelude.{ℕ, ◌≢◌};

    ghost Value = { ℕ };

    ghost view = { λ s. s.count };

    ghost invariant = { λ s. s.count ≢ 0 };
}

impl ShardCount {
    /// This number of shards, where there may be so many.
    pub fn of(count: u64) -> Option<ShardCount>
        ensures { result ≡ shard_count count }
    {
        match count {
            1..=16 => Some(ShardCount { count: count as u8 }),
            _ => None,
        }
    }

    /// The number, which is not 0.
    pub fn get(&self) -> u8
        ensures number { result ≡ self.now }
        ensures some { result ≢ 0 }
    {
        self.count
    }
}

impl fmt::Debug for ShardCount {
    fn fmt<W: fmt::Write>(&self, f: &mut fmt::Formatter<W>) -> fmt::Result {
        self.count.fmt(f)
    }
}

/// How a roster is laid out in shards, and how these run.
#[derive(Debug, Drop)]
pub struct Sharding {
    pub count: ShardCount,
    pub mode: ShardMode,
}

/// What the words behind `shards` ask for: how many there are, and behind that whether they run in threads.
pub fn sharding_of(words: &[String]) -> Option<Sharding>
    ensures { result ≡ sharding_of (map string_bytes words.now) }
{
    let [count, rest @ ..] = words else {
        return None;
    };
    let count = ShardCount::of(number_word(count.as_str())?)?;
    let mode = run_mode(rest)?;
    Some(Sharding { count, mode })
}

/// How shards run by the words behind their number: by their schedule where there is none, in threads where
/// it is `run`.
fn run_mode(words: &[String]) -> Option<ShardMode>
    ensures { result ≡ run_mode (map string_bytes words.now) }
{
    match words {
        [] => Some(ShardMode::Sim),
        [word] if word.as_str() == "run" => Some(ShardMode::Run),
        _ => None,
    }
}
