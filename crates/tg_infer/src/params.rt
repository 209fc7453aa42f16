//! Type variables, found by hash.
ghost use Rattle.std.specs.Prelude.{◌≡◌, ◌++◌, ◌∷◌, [], ◌+◌, ◌<◌, OnOk, OnErr, IfSome, length};
ghost use Rattle.tg_accept.specs.Faults.{is_taken};
ghost use Rattle.tg_accept.specs.Meaning.{number_of};

use indexmap::IndexMap;
use std::alloc::{AllocError, Global};
use std::marker::Model;
use tg_types::Name;

/// The type variables of a declaration, numbered from 1 in their order. One that repeats has the number of the
/// first. A contract sees them as a list.
#[derive(Drop)]
pub struct Params {
    names: Vec<Name>,
    numbers: IndexMap<Name, u32>,
}

impl Model for Params {
    ghost use Rattle.std.specs.Prelude.{ℕ, List};

    ghost Value = { List (List ℕ) };

    ghost use Rattle.tg_infer.specs.Params.{IsPlaced};

    ghost view = { λ params. params.names.items };

    ghost invariant = { IsPlaced };
}

impl Params {
    /// There is no type variable.
    #[tactic(auto, using(crate::proofs::ParamLaws::placing))]
    pub fn new(alloc: Global) -> Params
        ensures { result ≡ [] }
    {
        Params {
            names: Vec::new(alloc),
            numbers: IndexMap::new(alloc),
        }
    }

    /// How many there are.
    #[tactic(auto, using(crate::proofs::ParamLaws::placing))]
    pub(crate) fn len(&self) -> u32
        ensures { result ≡ length self.now }
    {
        self.names.len() as u32
    }

    /// The number of a type variable.
    #[tactic(auto, using(crate::proofs::ParamLaws::placing))]
    pub(crate) fn number(&self, x: &Name) -> Option<u32>
        ensures { result ≡ number_of x.now self.now }
    {
        self.numbers.get(x).copied()
    }

    /// Adds a type variable. Numbers are below 2^32, and more of them are answered as want of memory.
    #[tactic(auto, using(crate::proofs::ParamLaws::placing))]
    pub(crate) fn add(&mut self, x: &Name) -> Result<(), AllocError>
        ensures added { OnOk result (self.new ≡ self.old ++ x.now ∷ []) }
        ensures unchanged { OnErr result (self.new ≡ self.old) }
    {
        let Some(number) = self.next() else {
            return Err(AllocError);
        };
        if let Some(_) = self.number(x) {
            self.names.push(x.clone()?)?;
            return Ok(());
        }
        let name = x.clone()?;
        self.names.push(x.clone()?)?;
        match self.numbers.insert(name, number) {
            Ok(_) => Ok(()),
            Err(_) => {
                let _ = self.names.pop();
                Err(AllocError)
            }
        }
    }

    // The next number.
    #[tactic(auto, using(crate::proofs::ParamLaws::placing))]
    fn next(&self) -> Option<u32>
        ensures { IfSome result (λ n. (n ≡ length self.now + 1) × (n < 4294967296)) }
    {
        let count = self.names.len();
        if count >= 4294967295 {
            return None;
        }
        Some(count as u32 + 1)
    }
}
