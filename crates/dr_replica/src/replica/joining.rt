//! How a replica gives a letter to a late member, and how that one joins by it.
ghost use Rattle.std.specs.Prelude.{◌≡◌, ◌≤◌, [], false, true, vec_capacity};
ghost use Rattle.dr_form.specs.Letters.{IsFitting};
ghost use Rattle.dr_history.specs.History.{up_to_view};
ghost use Rattle.dr_program.specs.{Form.HasForm, Replica.{gave, is_inside, joined, may_give}, Steps.NoWordFell};

use super::Replica;
use super::opening::no_value;
use crate::history::add_copies;
use crate::left::skip_views;
use crate::spot::Spot;
use dr_entry::Entry;
use dr_install::{first_unsent, last_view, letter_end};
use dr_suspect::Suspects;
use dr_words::{LOGGED_COLUMN, Mask};

impl Replica {
    /// Writes the letter for those who came into its view with it: its history up to and with its last View. An
    /// empty list with room for its history takes it.
    pub fn write_letter(&self, into: &mut Vec<Entry>)
        requires empty { into.old.items ≡ [] }
        requires room { self.now.room ≤ vec_capacity into.old }
        ensures { into.new.items ≡ up_to_view self.now.history }
    {
        let history = self.history.entries();
        add_copies(&history[..letter_end(history)], into);
    }

    /// It has given the letter to this newcomer of its view.
    pub fn give(&mut self, newcomer: u8)
        requires { may_give self.old newcomer ≡ true }
        ensures after { self.new ≡ gave self.old newcomer }
        ensures grown { NoWordFell self.old self.new }
        ensures form { HasForm self.new }
    {
        self.given = self.given.with(newcomer);
    }

    /// It comes into the last view of a letter, whose entries are its history from there on.
    pub fn join(&mut self, letter: &[Entry])
        requires outside { is_inside self.old ≡ false }
        requires fitting { IsFitting self.old letter.now }
        ensures after { self.new ≡ joined self.old letter.now }
        ensures form { HasForm self.new }
    {
        let me = self.rows.me();
        let (view, members) = last_view(letter);
        self.history.take_letter(letter);
        let mut left = self.spares.pop().unwrap();
        left.keep(&self.rows, &self.items, &mut self.sent);
        self.left.push(left).unwrap();
        skip_views(view - 1, &mut self.left, &mut self.spares);
        self.items.renew(members);
        self.rows.renew();
        self.rows.set_own(LOGGED_COLUMN, self.logged as u64);
        self.base = first_unsent(letter, me);
        self.view = view;
        self.came_from = self.members;
        self.given = Mask::empty();
        self.members = members;
        self.suspects = Suspects::new(me, members);
        self.tag = 0;
        self.value = no_value();
        self.committed = None;
        self.next = Spot::first();
        self.received = 0;
    }
}
