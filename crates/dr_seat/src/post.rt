//! The packets that a seat is to send.
ghost use Rattle.std.specs.Prelude.{◌≡◌, ◌<◌, None, Some, true, IfSome, max};
ghost use Rattle.dr_history.specs.Members.{has};
ghost use Rattle.dr_packet.specs.Packets.{IsShort, spelling};

use crate::role::{Role, only};
use arrayvec::ArrayVec;
use dr_packet::{PACKET_ROOM, Says, write};
use dr_words::Mask;

/// Which packets a seat is to send, to whom, and the one that is on its way.
#[derive(Drop)]
pub(crate) struct Post {
    asks: Mask,
    hands: Mask,
    tries: Mask,
    words: Mask,
    /// From where on each has asked for the log.
    from: [u64; 16],
    /// To whom last words are being sent, and from which place on.
    to: u8,
    place: usize,
    /// How many ages the seat knows: the greatest one and one, or 0.
    ages: u32,
    packet: ArrayVec<u8, PACKET_ROOM>,
}

impl Post {
    /// Nothing is to be sent.
    pub(crate) fn new(ages: u32) -> Post
        ensures { result.ages ≡ ages }
    {
        Post {
            asks: Mask::empty(),
            hands: Mask::empty(),
            tries: Mask::empty(),
            words: Mask::empty(),
            from: [0; 16],
            to: 0,
            place: 0,
            ages,
            packet: ArrayVec::new(),
        }
    }

    /// Nothing is to be sent but what asks these for their logs.
    pub(crate) fn anew(&mut self, asks: Mask)
        ensures ages { self.new.ages ≡ self.old.ages }
        ensures packet { self.new.packet ≡ self.old.packet }
    {
        self.asks = asks;
        self.hands = Mask::empty();
        self.tries = Mask::empty();
        self.words = Mask::empty();
        self.from = [0; 16];
        self.to = 0;
        self.place = 0;
    }

    /// Takes note that somebody knows so many ages.
    pub(crate) fn hear(&mut self, ages: u32)
        ensures ages { self.new.ages ≡ max self.old.ages ages }
        ensures packet { self.new.packet ≡ self.old.packet }
    {
        self.ages = self.ages.max(ages);
    }

    /// These are asked for their logs, and nobody else.
    pub(crate) fn owe_asks(&mut self, to: Mask)
        ensures { self.new.packet ≡ self.old.packet }
    {
        self.asks = to;
    }

    /// This one is asked for its log too.
    pub(crate) fn owe_ask(&mut self, to: u8)
        requires { to < 16 }
        ensures { self.new.packet ≡ self.old.packet }
    {
        self.asks = self.asks.with(to);
    }

    /// This one gets the own log from a place on.
    pub(crate) fn owe_hand(&mut self, to: u8, at: u64)
        requires { to < 16 }
        ensures { self.new.packet ≡ self.old.packet }
    {
        self.hands = self.hands.with(to);
        self.from[usize::from(to)] = at;
    }

    /// These are told of the own try, and nobody else.
    pub(crate) fn owe_tries(&mut self, to: Mask)
        ensures { self.new.packet ≡ self.old.packet }
    {
        self.tries = to;
    }

    /// This one is told of it too.
    pub(crate) fn owe_try(&mut self, to: u8)
        requires { to < 16 }
        ensures { self.new.packet ≡ self.old.packet }
    {
        self.tries = self.tries.with(to);
    }

    /// These get the last words, and nobody else, from the first one on.
    pub(crate) fn owe_all_words(&mut self, to: Mask)
        ensures { self.new.packet ≡ self.old.packet }
    {
        self.words = to;
        self.place = 0;
    }

    /// This one gets them too.
    pub(crate) fn owe_words(&mut self, to: u8)
        requires { to < 16 }
        ensures packet { self.new.packet ≡ self.old.packet }
        ensures words { has self.new.words to ≡ true }
    {
        self.words = self.words.with(to);
    }

    /// To whom the own log goes next, and from which place on.
    pub(crate) fn next_hand(&mut self) -> Option<(u8, u64)> {
        let to = taken_of(&mut self.hands)?;
        Some((to, self.from[usize::from(to)]))
    }

    /// Who is told of the own try next.
    pub(crate) fn next_try(&mut self) -> Option<u8>
        ensures { IfSome result (λ to. to < 16) }
    {
        taken_of(&mut self.tries)
    }

    /// Who is asked next.
    pub(crate) fn next_ask(&mut self) -> Option<u8>
        ensures { IfSome result (λ to. to < 16) }
    {
        taken_of(&mut self.asks)
    }

    /// Who gets last words next, and from which place on.
    pub(crate) fn next_words(&self) -> Option<(u8, usize)>
        ensures { IfSome result (λ next. next.0 < 16) }
    {
        let to = self.words.least()?;
        Some((to, if self.to == to { self.place } else { 0 }))
    }

    /// Takes note that this one has got last words up to a place, or all.
    pub(crate) fn told(&mut self, to: u8, up_to: Option<usize>)
        requires { to < 16 }
    {
        self.to = to;
        match up_to {
            Some(place) => self.place = place,
            None => {
                self.place = 0;
                self.words = self.words.without(only(to));
            }
        }
    }

    /// Nobody gets last words any more.
    pub(crate) fn owe_no_words(&mut self) {
        self.words = Mask::empty();
    }

    /// Makes this packet.
    pub(crate) fn write(&mut self, role: &Role, to: u8, says: &Says)
        requires { IsShort says.now }
        ensures ages { self.new.ages ≡ self.old.ages }
        ensures packet { self.new.packet.items ≡ spelling role.now.seal
            (record { from = role.now.me; to = to; ages = self.old.ages }) says.now }
    {
        write(&role.seal, &role.way(to, self.ages), says, &mut self.packet);
    }

    /// The packet that is on its way.
    pub(crate) fn packet(&self) -> &[u8]
        ensures { result.now ≡ self.now.packet.items }
    {
        self.packet.as_slice()
    }

    /// Takes note that it is on its way, or is lost.
    pub(crate) fn clear(&mut self)
        ensures { self.new ≡ record self.old { packet = self.new.packet } }
    {
        self.packet.clear();
    }
}

/// Takes the least member out of a mask.
fn taken_of(mask: &mut Mask) -> Option<u8>
    ensures { IfSome result (λ to. to < 16) }
{
    let to = mask.least()?;
    *mask = mask.without(only(to));
    Some(to)
}
