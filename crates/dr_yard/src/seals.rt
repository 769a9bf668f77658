//! The text of the seals of a folder: a line with the name of the group, and one for each number that a member may
//! have. All lines are of one length, and each has a checksum of its own, so that damage to one leaves the others.

ghost use Rattle.std.specs.Prelude.{◌≡◌, ◌⊎◌, ◌+◌, ◌<◌, ◌≤◌, ◌++◌, IfSome, length, slice_set};
ghost use Rattle.hex.specs.Hex.{encode_lower};
ghost use Rattle.arrayvec.specs.ArrayVec.{array_vec_len};
ghost use Rattle.dr_entry.specs.declared.limits.TheConstants.{MAX_MEMBERS};
ghost use Rattle.dr_yard.specs.Seals.{IsJoined, IsLineOf, IsNamed, IsPut, IsSealedIn, digits, ended, head_of, line_of, seal_told, told_of};

use crate::seal::{Seal, Sealed};
use crate::sums::checksum;
use arrayvec::ArrayVec;
use dr_entry::MAX_MEMBERS;
use hex::{decode_to_slice, encode_to_slice};
use std::marker::Model;

/// How many bytes a line has, and how many lines a text has.
const LINE: usize = 68;

const LINES: usize = MAX_MEMBERS + 1;

/// How many bytes of a line tell of a seal, and of how many its checksum is: of the group's name, and the front.
const TOLD: usize = 42;

const SIGNED: usize = 67;

/// How many bytes the text has.
pub(crate) const TEXT: usize = LINE * LINES;

/// Where the name of the group stands in its line.
const GROUP_AT: usize = 18;

/// Where the numbers stand in the line of a member.
const LENGTH_AT: usize = 17;

const SUM_AT: usize = 34;

/// The seals of a folder's logs: the lines of a text.
#[derive(Drop)]
pub struct Seals {
    lines: [[u8; LINE]; LINES],
}

impl Model for Seals {
    ghost use Rattle.std.specs.Prelude.{List, ℕ};

    ghost Value = { List (List ℕ) };

    ghost view = { λ s. s.lines };
}

impl Seals {
    /// Those of a new group of this name, none of whose logs was ever given back.
    pub fn new(group: [u8; 16]) -> Seals {
        let mut seals = Seals {
            lines: [[0; LINE]; LINES],
        };
        seals.rename(group);
        for member in 0..MAX_MEMBERS {
            seals.put(member as u8, None);
        }
        seals
    }

    /// Those that a text has; of a shorter one the lines that it lacks can't be read.
    pub fn of_text(text: &[u8]) -> Seals {
        let mut lines = [[0; LINE]; LINES];
        for number in 0..LINES {
            let at = LINE * number;
            if at + LINE <= text.len() {
                lines[number].copy_from_slice(&text[at..at + LINE]);
            }
        }
        Seals { lines }
    }

    /// The same again.
    pub fn copy(&self) -> Seals
        ensures { result ≡ self.now }
    {
        Seals { lines: self.lines }
    }

    /// The lines of the text.
    pub fn lines(&self) -> &[[u8; LINE]]
        ensures { result.now ≡ self.now }
    {
        &self.lines
    }

    /// The name of the group, if it can be read.
    pub fn group(&self) -> Option<[u8; 16]>
        ensures { IfSome result (λ group. IsNamed self.now group) }
    {
        let line = &self.lines[0];
        let mut group = [0; 16];
        decode_to_slice(&line[GROUP_AT..GROUP_AT + 32], &mut group).ok()?;
        if head_of(&group)[..] == line[..] {
            Some(group)
        } else {
            None
        }
    }

    /// What is known of the log of a member.
    pub fn of(&self, member: u8) -> Sealed
        requires { member < MAX_MEMBERS }
        ensures { IsSealedIn self.now member result }
    {
        match self.group() {
            Some(group) => sealed_in(&group, member, &self.lines[usize::from(member) + 1]),
            None => Sealed::Unreadable,
        }
    }

    /// What these and another copy of them tell together: of each log the line that is known of a later time.
    /// Nothing, where they are of two groups.
    pub fn joined(&self, other: &Seals) -> Option<Seals>
        ensures { IfSome result (λ joined. IsJoined self.now other.now joined) }
    {
        let (group, mut lines) = match (self.group(), other.group()) {
            (Some(group), Some(strange)) if group != strange => return None,
            (Some(group), _) => (group, self.lines),
            (None, Some(group)) => (group, other.lines),
            (None, None) => return Some(self.copy()),
        };
        for number in 1..LINES {
            lines[number] = later_line(
                &group,
                number as u8 - 1,
                &self.lines[number],
                &other.lines[number],
            );
        }
        Some(Seals { lines })
    }

    /// Notes how the log of a member is, or that it was never given back; nothing, where the group can't be read.
    pub fn put(&mut self, member: u8, seal: Option<Seal>)
        requires { member < MAX_MEMBERS }
        ensures { IsPut self.old self.new member seal }
    {
        if let Some(group) = self.group() {
            self.lines[usize::from(member) + 1] = line_of(&group, member, seal);
        }
    }

    /// Gives the group a name. No line of an older one can be read then.
    pub fn rename(&mut self, group: [u8; 16])
        ensures { self.new ≡ slice_set self.old 0 (head_of group) }
    {
        self.lines[0] = head_of(&group);
    }
}

/// The line of a group.
fn head_of(group: &[u8; 16]) -> [u8; LINE]
    ensures { result ≡ head_of group.now }
{
    let mut front: ArrayVec<u8, LINE> = ArrayVec::new();
    push(&mut front, b"seals 01 of group ");
    push(&mut front, &hexes(group));
    push(&mut front, b" ");
    ended(front, group)
}

/// The line of a member of a group.
fn line_of(group: &[u8; 16], member: u8, seal: Option<Seal>) -> [u8; LINE]
    requires { member < MAX_MEMBERS }
    ensures { result ≡ line_of group.now member seal }
{
    let mut front: ArrayVec<u8, LINE> = ArrayVec::new();
    push(&mut front, b"member ");
    push(&mut front, &[b'0' + member / 10, b'0' + member % 10]);
    push(&mut front, &told_of(seal));
    ended(front, group)
}

/// What a line tells of a seal.
fn told_of(seal: Option<Seal>) -> [u8; TOLD]
    ensures { result ≡ told_of seal }
{
    match seal {
        Some(seal) if seal.is_open => seal_told(b" opened ", seal),
        Some(seal) => seal_told(b" closed ", seal),
        None => *b" absent 0000000000000000 0000000000000000 ",
    }
}

/// A state, and the numbers of a seal.
fn seal_told(state: &[u8; 8], seal: Seal) -> [u8; TOLD]
    ensures { result ≡ seal_told state.now seal }
{
    let mut told: ArrayVec<u8, TOLD> = ArrayVec::new();
    push(&mut told, state);
    push(&mut told, &digits(seal.length));
    push(&mut told, b" ");
    push(&mut told, &digits(seal.sum));
    push(&mut told, b" ");
    whole(told)
}

/// Appends bytes for which there is room.
fn push<const N: usize>(to: &mut ArrayVec<u8, N>, bytes: &[u8])
    requires { array_vec_len to.old + length bytes.now ≤ N }
    ensures items { to.new.items ≡ to.old.items ++ bytes.now }
    ensures len { array_vec_len to.new ≡ array_vec_len to.old + length bytes.now }
{
    to.try_extend_from_slice(bytes).unwrap();
}

/// What was appended, where no room is left.
fn whole<const N: usize>(of: ArrayVec<u8, N>) -> [u8; N]
    requires { array_vec_len of ≡ N }
    ensures { result ≡ of.entry.items }
{
    match of.into_inner() {
        Ok(bytes) => bytes,
        // It is full.
        Err(_) => unreachable!(),
    }
}

/// The front of a line of a group, and behind it its checksum.
fn ended(front: ArrayVec<u8, LINE>, group: &[u8; 16]) -> [u8; LINE]
    requires { array_vec_len front ≡ 51 }
    ensures { result ≡ ended group.now front.items }
{
    let mut signed: ArrayVec<u8, SIGNED> = ArrayVec::new();
    push(&mut signed, group);
    push(&mut signed, front.as_slice());
    let mut line = front;
    push(&mut line, &digits(checksum(signed.as_slice())));
    push(&mut line, b"\n");
    whole(line)
}

/// The name of a group in hexadecimal.
fn hexes(group: &[u8; 16]) -> [u8; 32]
    ensures { result ≡ encode_lower group.now }
{
    let mut text = [0; 32];
    encode_to_slice(&group[..], &mut text).unwrap();
    text
}

/// A number in sixteen hexadecimal digits.
fn digits(number: u64) -> [u8; 16]
    ensures { result ≡ digits number }
{
    let mut text = [0; 16];
    encode_to_slice(&number.to_be_bytes()[..], &mut text).unwrap();
    text
}

/// What the line of a member of a group tells.
fn sealed_in(group: &[u8; 16], member: u8, line: &[u8; LINE]) -> Sealed
    requires { member < MAX_MEMBERS }
    ensures { IsLineOf group.now member line.now result }
{
    if line_of(group, member, None)[..] == line[..] {
        return Sealed::Never;
    }
    let (Some(length), Some(sum)) = (number_at(line, LENGTH_AT), number_at(line, SUM_AT)) else {
        return Sealed::Unreadable;
    };
    for is_open in [false, true] {
        let seal = Seal {
            length,
            sum,
            is_open,
        };
        if line_of(group, member, Some(seal))[..] == line[..] {
            return Sealed::As(seal);
        }
    }
    Sealed::Unreadable
}

/// That of two lines of a member of a group which is known of a later time.
fn later_line(group: &[u8; 16], member: u8, line: &[u8; LINE], other: &[u8; LINE]) -> [u8; LINE]
    requires { member < MAX_MEMBERS }
    ensures { (result ≡ line.now) ⊎ (result ≡ other.now) }
{
    if sealed_in(group, member, other).is_later(&sealed_in(group, member, line)) {
        *other
    } else {
        *line
    }
}

/// The number that sixteen digits of a line are.
fn number_at(line: &[u8; LINE], at: usize) -> Option<u64>
    requires { at + 16 ≤ 68 }
{
    let mut bytes = [0; 8];
    decode_to_slice(&line[at..at + 16], &mut bytes).ok()?;
    Some(u64::from_be_bytes(bytes))
}
