// Tableaux that are spent: their room is used again for new ones.
use answers::Memory;
use crossbeam_deque::{Stealer, Worker};
use lex_tableau::Tableau;
use std::alloc::Global;

// For how many tableaux there is room at first.
const FIRST_ROOM: usize = 64;

// The tableaux of levels that are no longer needed. Workers take the oldest first; which of them
// takes which is not said.
#[derive(Drop)]
pub(crate) struct Spent {
    own: Worker<Tableau>,
    shared: Stealer<Tableau>,
}

impl Spent {
    pub(crate) fn new(alloc: Global) -> Result<Spent, Memory> {
        let own = Worker::new_fifo(alloc, FIRST_ROOM)?;
        let shared = own.stealer()?;
        Ok(Spent { own, shared })
    }

    // Adds the tableaux of a level. Those for which there is no room are dropped.
    pub(crate) fn add(&mut self, level: Vec<Tableau>) {
        for tableau in level {
            drop(self.own.push(tableau));
        }
    }

    // What comes of them to each of so many new tableaux.
    pub(crate) fn share_among(&self, new: usize) -> SpentShare<'_> {
        SpentShare {
            tableaux: &self.shared,
            surplus: self.own.len().saturating_sub(new) / new.max(1),
        }
    }
}

// What comes of the spent tableaux to a new one: one that it is written over, and further ones that
// it frees.
#[derive(Drop)]
pub(crate) struct SpentShare<'a> {
    tableaux: &'a Stealer<Tableau>,
    surplus: usize,
}

impl SpentShare<'_> {
    // A spent tableau, where one is left and no other worker takes it.
    pub(crate) fn take(&self) -> Option<Tableau> {
        self.tableaux.steal().success()
    }

    // Frees the further ones.
    pub(crate) fn free_surplus(&self) {
        for _ in 0..self.surplus {
            drop(self.take());
        }
    }
}
