ghost use Rattle.std.specs.Prelude.{◌≡◌, ◌≤◌, map, string_bytes};
ghost use Rattle.dr_commands.specs.Rounds.{round_count, rounds_of};

use dr_literals::number_word;
use std::fmt;
use std::marker::Model;

/// In how many rounds messages are taken before the last age, 0 to 15. Contracts see it as the number.
#[derive(Drop)]
pub struct Rounds {
    count: u8,
}

impl Model for Rounds {
    ghost use Rattle.std.specs.Prelude.{ℕ, ◌≤◌};

    ghost Value = { ℕ };

    ghost view = { λ r. r.count };

    ghost invariant = { λ r. r.count ≤ 15 };
}

impl Rounds {
    /// This number of rounds, where there may be so many.
    pub fn of(count: u64) -> Option<Rounds>
        ensures { result ≡ round_count count }
    {
        match count {
            0..=15 => Some(Rounds { count: count as u8 }),
            _ => None,
        }
    }

    /// The number.
    pub fn get(&self) -> u8
        ensures number { result ≡ self.now }
        ensures few { result ≤ 15 }
    {
        self.count
    }
}

impl fmt::Debug for Rounds {
    fn fmt<W: fmt::Write>(&self, f: &mut fmt::Formatter<W>) -> fmt::Result {
        self.count.fmt(f)
    }
}

/// What the words behind `live` ask for: a number of rounds in decimal.
pub fn rounds_of(words: &[String]) -> Option<Rounds>
    ensures { result ≡ rounds_of (map string_bytes words.now) }
{
    match words {
        [word] => Rounds::of(number_word(word.as_str())?),
        _ => None,
    }
}
