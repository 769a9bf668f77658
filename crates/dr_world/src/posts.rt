//! The letters for late members.
ghost use Rattle.std.specs.Prelude.{◌≡◌, ◌-◌, ◌<◌, ◌≤◌, [], IfOk, None, Some, length, option_map, replicate, slice_set, vec_capacity};
ghost use Rattle.dr_history.specs.History.{up_to_view};
ghost use Rattle.dr_program.specs.Reading.{letters_of};

use dr_entry::Entry;
use dr_join::Letters;
use dr_replica::Replica;
use std::alloc::{AllocError, Global};
use std::marker::Model;

/// The letters for the members of a roster, by number, and the memory for those that none is there for yet.
#[derive(Drop)]
pub struct Posts {
    letters: Vec<Option<Vec<Entry>>>,
    spare: Letters,
}

impl Model for Posts {
    ghost use Rattle.dr_world.specs.Posts.{PostsOf};

    ghost Value = { PostsOf };

    ghost use Rattle.dr_world.specs.InsidePosts.{posts_of};

    ghost view = { posts_of };
}

impl Posts {
    /// No letter for any of so many members, and memory for so many letters, each with room for so many entries.
    pub fn none(alloc: Global, members: u8, late: u8, room: usize) -> Result<Posts, AllocError>
        ensures { IfOk result (λ posts.
            posts ≡ record { letters = replicate members None; left = late; room = room }) }
    {
        let mut letters = Vec::with_capacity(alloc, usize::from(members))?;
        for _ in 0..members {
            letters.push(None)?;
        }
        Ok(Posts {
            letters,
            spare: Letters::new(alloc, late, room)?,
        })
    }

    /// The letter for a member, where one is there.
    pub fn letter(&self, m: u8) -> Option<&[Entry]>
        ensures { option_map (λ letter. letter.now) result ≡ letters_of self.now.letters m }
    {
        match self.letters.get(usize::from(m)) {
            Some(Some(letter)) => Some(letter.as_slice()),
            _ => None,
        }
    }

    /// A replica gives a late member its letter. A list is left for it, with room for its history.
    pub(crate) fn give(&mut self, replica: &Replica, late: u8)
        requires late { late < length self.old.letters }
        requires list { 0 < self.old.left }
        requires room { replica.now.room ≤ self.old.room }
        ensures letters { self.new.letters
            ≡ slice_set self.old.letters late (Some (up_to_view replica.now.history)) }
        ensures left { self.new.left ≡ self.old.left - 1 }
        ensures same { self.new.room ≡ self.old.room }
    {
        let mut letter = self.spare.take();
        replica.write_letter(&mut letter);
        self.letters[usize::from(late)] = Some(letter);
    }

    /// One of the lists for letters. It is empty.
    pub fn take_list(&mut self) -> Vec<Entry>
        requires { 0 < self.old.left }
        ensures empty { result.items ≡ [] }
        ensures room { self.old.room ≤ vec_capacity result }
        ensures left { self.new ≡ record self.old { left = self.old.left - 1 } }
    {
        self.spare.take()
    }

    /// Puts the letter of a member at its place.
    pub fn put(&mut self, m: u8, letter: Vec<Entry>)
        requires { m < length self.old.letters }
        ensures { self.new ≡ record self.old { letters = slice_set self.old.letters m (Some letter.items) } }
    {
        self.letters[usize::from(m)] = Some(letter);
    }
}
