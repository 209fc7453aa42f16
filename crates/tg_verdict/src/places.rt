//! Numbers of tests, found by hash.
ghost use Rattle.std.specs.Prelude.{◌≡◌, ◌++◌, ◌∷◌, [], false, Some, MatchOption, OnOk, slice_get, if◌then◌else◌};
ghost use Rattle.tg_verdict.specs.Places.{is_among};

use indexmap::IndexSet;
use std::alloc::{AllocError, Global};
use std::marker::Model;

/// Numbers, each once, in the order in which they were added. A contract sees them as a list.
#[derive(Drop)]
pub(crate) struct Places {
    set: IndexSet<u64>,
}

impl Model for Places {
    ghost use Rattle.std.specs.Prelude.{ℕ, List};

    ghost Value = { List ℕ };

    ghost view = { λ places. places.set.keys };
}

impl Places {
    /// There is no number yet.
    pub(crate) fn new(alloc: Global) -> Places
        ensures { result ≡ [] }
    {
        Places {
            set: IndexSet::new(alloc),
        }
    }

    /// Whether the number is there.
    pub(crate) fn contains(&self, number: u64) -> bool
        ensures { result ≡ is_among number self.now }
    {
        self.set.contains(&number)
    }

    /// The place of the number, from 0.
    pub(crate) fn place(&self, number: u64) -> Option<usize>
        ensures { MatchOption result (is_among number self.now ≡ false) (λ at. slice_get self.now at ≡ Some number) }
    {
        match self.set.get_full(&number) {
            Some((at, _)) => Some(at),
            None => None,
        }
    }

    /// Adds a number behind the others, if it isn't there.
    pub(crate) fn add(&mut self, number: u64) -> Result<(), AllocError>
        ensures { OnOk result (self.new ≡ if is_among number self.old then self.old else self.old ++ number ∷ []) }
    {
        match self.set.insert(number) {
            Ok(_) => Ok(()),
            Err(_) => Err(AllocError),
        }
    }
}
