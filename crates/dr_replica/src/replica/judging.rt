//! Whom a replica is told to suspect, and for whom it has waited too long.
ghost use Rattle.std.specs.Prelude.{◌≡◌, ℕ, ◌<◌};
ghost use Rattle.dr_program.specs.{Replica.unsuspected, Running.{named_by, told}};
ghost use Rattle.dr_suspect.specs.{Answers.least_where, Waits.{IsWaits, compared, is_overdue}};

use super::Replica;
use dr_suspect::Patience;

impl Replica {
    /// The least member that it doesn't suspect and that suspects it.
    #[inline]
    pub fn named_by(&self) -> Option<u8>
        ensures { result ≡ named_by self.now }
    {
        self.suspects.named_by(&self.rows)
    }

    /// The member to suspect or to wish for next since a member that it doesn't suspect says so.
    #[inline]
    pub fn told(&self) -> Option<u8>
        ensures { result ≡ told self.now }
    {
        let history = self.history.entries();
        self.suspects
            .next_spread(&self.rows, self.late, history, self.age)
    }

    /// The least member that it has waited for too long.
    #[inline]
    pub fn overdue(&self, patience: &Patience) -> Option<u8>
        ensures { result ≡ least_where (is_overdue patience.now self.now.rows (unsuspected self.now)) }
    {
        patience.overdue(self.suspects.unsuspected(), &self.rows)
    }

    /// It has seen a row whole, which is news of its member where the beat differs from the one before.
    #[inline]
    pub fn wait_for(&self, patience: &mut Patience, row: u8)
        requires { row < self.now.roster }
        ensures after { patience.new ≡ compared patience.old self.now.rows row }
        ensures form { IsWaits patience.new }
    {
        patience.compare(&self.rows, row);
    }
}
