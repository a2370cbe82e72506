// What runs gave, counted.
use crate::{Direction, Ran};
use std::fmt;

// What all records gave so far.
#[derive(Clone, Copy, Debug, Default)]
pub struct Tally {
    pub enciphered: u64,
    pub deciphered: u64,
    pub differ: u64,
    pub unread: u64,
}

impl Tally {
    // The tally with one record more. What could not be read counts in neither direction.
    pub fn with(mut self, direction: Direction, ran: Ran) -> Tally {
        if ran == Ran::Unread {
            self.unread = self.unread.saturating_add(1);
            return self;
        }
        match direction {
            Direction::Encipher => self.enciphered = self.enciphered.saturating_add(1),
            Direction::Decipher => self.deciphered = self.deciphered.saturating_add(1),
        }
        if ran == Ran::Differs {
            self.differ = self.differ.saturating_add(1);
        }
        self
    }

    pub fn and(self, other: Tally) -> Tally {
        Tally {
            enciphered: self.enciphered.wrapping_add(other.enciphered),
            deciphered: self.deciphered.wrapping_add(other.deciphered),
            differ: self.differ.wrapping_add(other.differ),
            unread: self.unread.wrapping_add(other.unread),
        }
    }
}

impl fmt::Display for Tally {
    fn fmt<W: fmt::Write>(&self, f: &mut fmt::Formatter<W>) -> fmt::Result {
        write!(
            f,
            "{} enciphered, {} deciphered, {} differ, {} unreadable",
            self.enciphered, self.deciphered, self.differ, self.unread
        )
    }
}
