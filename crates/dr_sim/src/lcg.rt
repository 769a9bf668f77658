ghost use Rattle.std.specs.Prelude.{◌≡◌, ◌≢◌, ◌%◌};
ghost use Rattle.dr_program.specs.Schedule.{choice_of, next_state};

use std::marker::Model;

const MULTIPLIER: u64 = 6364136223846793005;

const INCREMENT: u64 = 1442695040888963407;

/// The generator of a seeded run: a linear congruential one, of 64 bits. Contracts see it as its
/// state.
#[derive(Drop)]
pub struct Lcg {
    state: u64,
    /// Its constants, which are fields so that a loop need not load them anew for each choice.
    multiplier: u64,
    increment: u64,
}

impl Model for Lcg {
    ghost use Rattle.std.specs.Prelude.{ℕ};

    ghost Value = { ℕ };

    ghost use Rattle.dr_sim.specs.Inside.{HasConstants};

    ghost view = { λ a. a.state };

    ghost invariant = { HasConstants };
}

impl Lcg {
    /// The generator of this seed. Out of line, so that in a loop its constants are read as fields.
    #[inline(never)]
    pub fn new(seed: u64) -> Lcg
        ensures { result ≡ seed }
    {
        Lcg {
            state: seed,
            multiplier: MULTIPLIER,
            increment: INCREMENT,
        }
    }

    /// The next choice among `n`: a number below it. The generator goes on to its next state first.
    pub fn choose(&mut self, n: u64) -> u64
        requires { n ≢ 0 }
        ensures state { self.new ≡ next_state self.old }
        ensures choice { result ≡ choice_of (next_state self.old) n }
    {
        self.state = self
            .state
            .wrapping_mul(self.multiplier)
            .wrapping_add(self.increment);
        remainder((self.state >> 33) as u32, n)
    }

    /// The next choice among a few: as [`Lcg::choose`], by a division of 32 bits alone.
    #[inline(always)]
    pub(crate) fn choose_few(&mut self, n: u32) -> u32
        requires { n ≢ 0 }
        ensures state { self.new ≡ next_state self.old }
        ensures choice { result ≡ choice_of (next_state self.old) n }
    {
        self.state = self
            .state
            .wrapping_mul(self.multiplier)
            .wrapping_add(self.increment);
        choice(self.state, n)
    }

    /// Its state.
    pub(crate) fn state(&self) -> u64
        ensures { result ≡ self.now }
    {
        self.state
    }
}

/// The choice that a state makes among a few.
#[inline(always)]
pub(crate) fn choice(state: u64, n: u32) -> u32
    requires { n ≢ 0 }
    ensures { result ≡ choice_of state n }
{
    (state >> 33) as u32 % n
}

/// The remainder of a number of 32 bits by another, which is mostly as short.
fn remainder(number: u32, by: u64) -> u64
    requires { by ≢ 0 }
    ensures { result ≡ number % by }
{
    match u32::try_from(by) {
        Ok(by) => u64::from(number % by),
        Err(_) => u64::from(number),
    }
}
