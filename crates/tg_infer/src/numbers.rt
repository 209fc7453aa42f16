//! Names with numbers, found by hash.
ghost use Rattle.std.specs.Prelude.{◌≡◌, ◌≤◌, ◌++◌, ◌∷◌, [], not, if◌then◌else◌, IfOk, OnErr, length, take};
ghost use Rattle.tg_accept.specs.Faults.{is_taken};
ghost use Rattle.tg_accept.specs.Meaning.{number_of};

use indexmap::IndexSet;
use std::alloc::{AllocError, Global};
use std::marker::Model;
use tg_types::Name;

/// Names, each once, numbered from 1 in their order. A contract sees them as a list.
#[derive(Drop)]
pub struct Numbers {
    set: IndexSet<Name>,
}

impl Model for Numbers {
    ghost use Rattle.std.specs.Prelude.{◌<◌, ℕ, List, length};

    ghost Value = { List (List ℕ) };

    ghost view = { λ names. names.set.keys };

    ghost invariant = { λ names. length names.set.keys < 4294967296 };
}

impl Numbers {
    /// No name has a number yet.
    pub fn new(alloc: Global) -> Numbers
        ensures { result ≡ [] }
    {
        Numbers {
            set: IndexSet::new(alloc),
        }
    }

    /// How many names have numbers.
    pub fn len(&self) -> u32
        ensures { result ≡ length self.now }
    {
        self.set.len() as u32
    }

    /// Whether the name has a number.
    pub fn contains(&self, name: &Name) -> bool
        ensures { result ≡ is_taken name.now self.now }
    {
        self.set.contains(name)
    }

    /// The number of a name.
    #[tactic(auto, using(crate::proofs::NumberLaws::numbering))]
    pub fn number(&self, name: &Name) -> Option<u32>
        ensures { result ≡ number_of name.now self.now }
    {
        match self.set.get_index_of(name) {
            Some(at) => Some(at as u32 + 1),
            None => None,
        }
    }

    /// Gives a name the next number, and answers whether it had none. Numbers are below 2^32, and more of them
    /// are answered as want of memory.
    pub fn add(&mut self, name: &Name) -> Result<bool, AllocError>
        ensures free { IfOk result (λ free. free ≡ not (is_taken name.now self.old)) }
        ensures added { IfOk result (λ free. self.new ≡ if free then self.old ++ name.now ∷ [] else self.old) }
        ensures unchanged { OnErr result (self.new ≡ self.old) }
    {
        if self.set.contains(name) {
            return Ok(false);
        }
        if self.set.len() >= 4294967295 {
            return Err(AllocError);
        }
        match self.set.insert(name.clone()?) {
            Ok(free) => Ok(free),
            Err(_) => Err(AllocError),
        }
    }

    /// Keeps the first names alone.
    pub fn truncate(&mut self, len: u32)
        ensures { self.new ≡ take len self.old }
    {
        self.set.truncate(len as usize);
    }
}
