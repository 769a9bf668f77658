//! Whose seat it is.
ghost use Rattle.std.specs.Prelude.{◌≡◌, ◌↔◌, ◌<◌, ◌≢◌, ℕ, false, nat_lt, IfErr, IfOk, IsTrue};
ghost use Rattle.dr_history.specs.Members.{has};
ghost use Rattle.dr_packet.specs.Packets.{IsFault, IsPacket};
ghost use Rattle.dr_script.specs.Ranges.{HasRanges};
ghost use Rattle.dr_seat.specs.Roles.{IsMine, others_of, roster_of};
ghost use Rattle.dr_words.specs.Masks.{IsMajorityOf, with_member, without};

use dr_packet::{PacketFault, Says, Seal, Way, read};
use dr_script::Script;
use dr_words::Mask;
use std::marker::Model;

/// Whose seat it is: the script of its group, by which its packets are known, and the number of its member.
#[derive(Drop)]
pub(crate) struct Role {
    pub(crate) script: Script,
    pub(crate) seal: Seal,
    pub(crate) me: u8,
}

impl Model for Role {
    ghost use Rattle.std.specs.Prelude.{◌<◌};
    ghost use Rattle.dr_script.specs.Ranges.{HasRanges};
    ghost use Rattle.dr_seat.specs.Roles.{RoleOf};

    ghost Value = { RoleOf };

    ghost view = { λ a. record {
      script = a.script;
      seal = a.seal;
      me = a.me;
    } };

    ghost invariant = { λ a. HasRanges a.script × (a.me < a.script.members) };
}

impl Role {
    /// The role of this member in the group of a script, by whose seal packets are known.
    pub(crate) fn of(script: Script, seal: Seal, me: u8) -> Role
        requires ranges { HasRanges script }
        requires member { me < script.members }
        ensures { result ≡ record { script = script; seal = seal; me = me } }
    {
        Role { script, seal, me }
    }

    /// The script of the group.
    pub(crate) fn script(&self) -> &Script
        ensures value { result.now ≡ self.now.script }
        ensures members { result.now.members ≡ self.now.script.members }
        ensures ranges { HasRanges result.now }
    {
        &self.script
    }

    /// Its member.
    pub(crate) fn me(&self) -> u8
        ensures value { result ≡ self.now.me }
        ensures within { result < self.now.script.members }
        ensures number { result < 16 }
    {
        self.me
    }

    /// All members of the group.
    pub(crate) fn roster(&self) -> Mask
        ensures members { (n : ℕ) → has result n ≡ nat_lt n self.now.script.members }
        ensures value { result ≡ roster_of self.now }
    {
        Mask::all(self.script.members)
    }

    /// All but its own.
    pub(crate) fn others(&self) -> Mask
        ensures { result ≡ others_of self.now (roster_of self.now) }
    {
        self.others_in(self.roster())
    }

    /// All of these but its own.
    pub(crate) fn others_in(&self, members: Mask) -> Mask
        ensures { result ≡ others_of self.now members }
    {
        members.without(only(self.me))
    }

    /// Whether an opening may go without these: its own isn't among them, and the others are a majority.
    pub(crate) fn may_lack(&self, missing: Mask) -> bool
        ensures { IsTrue result ↔ ((has missing self.now.me ≡ false)
            × IsMajorityOf (without (roster_of self.now) missing) (roster_of self.now)) }
    {
        let roster = self.roster();
        !missing.has(self.me) && roster.without(missing).is_majority_of(roster)
    }

    /// Whether it is another member of the group.
    pub(crate) fn is_other(&self, member: u8) -> bool
        ensures other { IsTrue result ↔ ((member < self.now.script.members) × (member ≢ self.now.me)) }
        ensures number { IsTrue result → member < 16 }
    {
        member < self.script.members && member != self.me
    }

    /// Whether what goes this way is for its member, and by another one of the group.
    pub(crate) fn is_mine(&self, way: &Way) -> bool
        ensures mine { IsTrue result ↔ IsMine self.now way.now }
        ensures number { IsTrue result → way.now.from < 16 }
    {
        way.to == self.me && self.is_other(way.from)
    }

    /// What a packet of its group and plan says, and which way it goes.
    ///
    /// # Errors
    ///
    /// A [`PacketFault`], the first in their order.
    pub(crate) fn read<'a>(&self, packet: &'a [u8]) -> Result<(Way, Says<'a>), PacketFault>
        ensures packet { IfOk result (λ read. IsPacket self.now.seal packet.now read.0 read.1) }
        ensures fault { IfErr result (IsFault self.now.seal packet.now) }
    {
        read(&self.seal, packet)
    }

    /// From its member to this one, of a sender that knows so many ages.
    pub(crate) fn way(&self, to: u8, ages: u32) -> Way
        ensures { result ≡ record { from = self.now.me; to = to; ages = ages } }
    {
        Way {
            from: self.me,
            to,
            ages,
        }
    }
}

/// The mask of one member.
pub(crate) fn only(member: u8) -> Mask
    requires { member < 16 }
    ensures { result ≡ with_member 0 member }
{
    Mask::empty().with(member)
}
