//! The names that are taken in one space.
ghost use Rattle.std.specs.Prelude.{◌≡◌, ◌≤◌, ◌++◌, ◌∷◌, [], not, if◌then◌else◌, IfOk, OnErr, length, take};
ghost use Rattle.tg_accept.specs.Faults.{is_taken};

use indexmap::IndexSet;
use std::alloc::{AllocError, Global};
use std::marker::Model;
use tg_types::Name;

/// Names, each once, in the order in which they were taken. A contract sees them as a list.
#[derive(Drop)]
pub(crate) struct Names {
    set: IndexSet<Name>,
}

impl Model for Names {
    ghost use Rattle.std.specs.Prelude.{ℕ, List};

    ghost Value = { List (List ℕ) };

    ghost view = { λ names. names.set.keys };
}

impl Names {
    /// No name is taken yet.
    pub(crate) fn new(alloc: Global) -> Names
        ensures { result ≡ [] }
    {
        Names {
            set: IndexSet::new(alloc),
        }
    }

    /// How many names are taken.
    pub(crate) fn len(&self) -> usize
        ensures { result ≡ length self.now }
    {
        self.set.len()
    }

    /// Whether the name is taken.
    pub(crate) fn contains(&self, name: &Name) -> bool
        ensures { result ≡ is_taken name.now self.now }
    {
        self.set.contains(name)
    }

    /// Takes a name, and answers whether it was free.
    pub(crate) fn take(&mut self, name: &Name) -> Result<bool, AllocError>
        ensures free { IfOk result (λ free. free ≡ not (is_taken name.now self.old)) }
        ensures taken { IfOk result (λ free. self.new ≡ if free then self.old ++ name.now ∷ [] else self.old) }
        ensures unchanged { OnErr result (self.new ≡ self.old) }
    {
        if self.set.contains(name) {
            return Ok(false);
        }
        match self.set.insert(name.clone()?) {
            Ok(free) => Ok(free),
            Err(_) => Err(AllocError),
        }
    }

    /// Keeps the first names alone.
    pub(crate) fn truncate(&mut self, len: usize)
        ensures { self.new ≡ take len self.old }
    {
        self.set.truncate(len);
    }
}
