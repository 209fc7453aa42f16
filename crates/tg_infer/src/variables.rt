//! Variables with numbers, found by hash.
ghost use Rattle.std.specs.Prelude.{◌≡◌, ◌∷◌, [], OnOk};
ghost use Rattle.tg_accept.specs.Meaning.{variable_named};
ghost use Rattle.tg_infer.specs.Scopes.{AreSameVariables};

use indexmap::IndexMap;
use std::alloc::{AllocError, Global};
use std::marker::Model;
use tg_types::Name;

/// Variables, each with its number. Of two of one name the first is meant. A contract sees them as a list.
#[derive(Drop)]
pub struct Variables {
    numbers: IndexMap<Name, u32>,
}

impl Model for Variables {
    ghost use Rattle.std.specs.Prelude.{List, ℕ};

    ghost Value = { List (List ℕ × ℕ) };

    ghost view = { λ vs. vs.numbers.entries };
}

impl Variables {
    /// There is no variable.
    pub fn new(alloc: Global) -> Variables
        ensures { result ≡ [] }
    {
        Variables {
            numbers: IndexMap::new(alloc),
        }
    }

    /// The number of a variable.
    #[tactic(auto, using(crate::proofs::ScopeLaws::variables))]
    pub fn number(&self, x: &Name) -> Option<u32>
        ensures { result ≡ variable_named x.now self.now }
    {
        self.numbers.get(x).copied()
    }

    /// Adds a variable in front of the others. It hides one of its name.
    #[tactic(auto, using(crate::proofs::ScopeLaws::adding))]
    pub fn add(&mut self, x: &Name, n: u32) -> Result<(), AllocError>
        ensures { OnOk result (AreSameVariables self.new ((x.now, n) ∷ self.old)) }
    {
        self.numbers.insert(x.clone()?, n)?;
        Ok(())
    }
}
