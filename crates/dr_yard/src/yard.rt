//! What a yard is.

ghost use Rattle.std.specs.Prelude.{◌≡◌, ◌≢◌, ◌<◌, ◌≤◌, ℕ, Option, Bool, true, false, IfOk, OnOk, OnErr};
ghost use Rattle.dr_disk.specs.Disk.{Told};
ghost use Rattle.dr_entry.specs.declared.limits.TheConstants.{MAX_MEMBERS};
ghost use Rattle.dr_io.specs.Faults.{HasCause};

use dr_disk::Disk;
use dr_io::Failed;

/// Where the disks of the members are kept. One that is lent is away until it is given back.
pub trait Yard {
    type Store: Disk;

    // What the disk of a member tells, or told when it was lent.
    ghost told: { Self → ℕ → Option Told };

    // Whether the disk of a member is lent.
    ghost is_lent: { Self → ℕ → Bool };

    // How many calls for the disk of a member failed, with those of the disk.
    ghost faults: { Self → ℕ → ℕ };

    /// Lends the disk of a member, by the folder that it is in: an empty one where there was none.
    fn lend(&mut self, folder: &str, member: u8) -> Result<Self::Store, Failed>
        requires below { member < MAX_MEMBERS }
        requires here { is_lent self.old member ≡ false }
        ensures told { IfOk result (λ disk. Self.Store.told disk ≡ told self.old member) }
        ensures count { IfOk result (λ disk. Self.Store.faults disk ≡ faults self.new member) }
        ensures lent { OnOk result (is_lent self.new member ≡ true) }
        ensures kept { OnErr result
            ((is_lent self.new member ≡ false) × (told self.new member ≡ told self.old member)) }
        ensures cause { HasCause (faults self.old member) (faults self.new member) result }
        ensures others { (m : ℕ) → m ≢ member → (told self.new m ≡ told self.old m)
            × (is_lent self.new m ≡ is_lent self.old m) × (faults self.new m ≡ faults self.old m) };

    /// Takes back the disk of a member.
    fn give_back(&mut self, member: u8, disk: Self::Store)
        requires below { member < MAX_MEMBERS }
        requires away { is_lent self.old member ≡ true }
        requires count { faults self.old member ≤ Self.Store.faults disk }
        ensures told { told self.new member ≡ Self.Store.told disk }
        ensures counted { faults self.new member ≡ Self.Store.faults disk }
        ensures here { is_lent self.new member ≡ false }
        ensures others { (m : ℕ) → m ≢ member → (told self.new m ≡ told self.old m)
            × (is_lent self.new m ≡ is_lent self.old m) × (faults self.new m ≡ faults self.old m) };
}
