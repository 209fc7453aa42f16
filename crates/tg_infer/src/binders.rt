//! The variables that are bound where a term stands, found by hash.
ghost use Rattle.std.specs.Prelude.{◌≡◌, [], OnOk, length, suc};
ghost use Rattle.tg_accept.specs.Meaning.{place_of};
ghost use Rattle.tg_accept.specs.Raw.{name, level};
ghost use Rattle.tg_infer.specs.Binders.{binders, level_of, AreRight, HaveBound, HaveLeft};

use indexmap::IndexMap;
use std::alloc::{AllocError, Global};
use tg_types::Name;

/// The variables that are bound where a term stands, the outermost first.
#[derive(Drop)]
pub struct Binders {
    bound: Vec<Bound>,
    // Where the innermost variable of a name is bound, counted from the outside, from 0.
    levels: IndexMap<Name, Option<usize>>,
}

/// A variable that is bound.
#[derive(Drop)]
pub(crate) struct Bound {
    // In a certificate it has none, but the number of its binder.
    name: Option<Name>,
    // Where the variable of this name is bound that it hides.
    hidden: Option<usize>,
}

impl Binders {
    /// No variable is bound.
    pub fn new(alloc: Global) -> Binders
        ensures none { binders result ≡ [] }
        ensures right { AreRight result }
    {
        Binders {
            bound: Vec::new(alloc),
            levels: IndexMap::new(alloc),
        }
    }

    /// How many variables are bound.
    #[tactic(auto, using(crate::proofs::BinderLaws::places))]
    pub(crate) fn len(&self) -> usize
        ensures { result ≡ length (binders self.now) }
    {
        self.bound.len()
    }

    /// How many variables are bound inside of the innermost one of this name.
    #[tactic(auto, using(crate::proofs::BinderLaws::places))]
    pub(crate) fn place(&self, x: &Name) -> Option<usize>
        requires { AreRight self.now }
        ensures { result ≡ place_of (name x.now) (binders self.now) }
    {
        match self.level(x) {
            Some(at) => Some(self.bound.len() - (at + 1)),
            None => None,
        }
    }

    /// How many variables are bound inside of the one of this number, counted from the outside, from 1. A
    /// variable with a name has no number.
    #[tactic(auto, using(crate::proofs::BinderLaws::numbered))]
    pub(crate) fn place_of_number(&self, n: u64) -> Option<usize>
        ensures { result ≡ place_of (level n) (binders self.now) }
    {
        if n == 0 || n > self.bound.len() as u64 {
            return None;
        }
        let n = n as usize;
        match &self.bound[n - 1].name {
            Some(_) => None,
            None => Some(self.bound.len() - n),
        }
    }

    // Where the innermost variable of a name is bound, counted from the outside, from 0.
    #[tactic(auto, using(crate::proofs::BinderLaws::levels))]
    fn level(&self, x: &Name) -> Option<usize>
        requires { AreRight self.now }
        ensures { result ≡ level_of x.now (binders self.now) }
    {
        match self.levels.get(x) {
            Some(at) => *at,
            None => None,
        }
    }

    /// Binds a variable of a name.
    #[tactic(auto, using(crate::proofs::BinderLaws::binding))]
    pub(crate) fn bind(&mut self, x: &Name) -> Result<(), AllocError>
        requires { AreRight self.old }
        ensures { OnOk result (HaveBound self.old self.new (name x.now)) }
    {
        let hidden = self.level(x);
        let at = self.bound.len();
        self.bound.push(Bound {
            name: Some(x.clone()?),
            hidden,
        })?;
        self.levels.insert(x.clone()?, Some(at))?;
        Ok(())
    }

    /// Binds the variable of the number that follows.
    #[tactic(auto, using(crate::proofs::BinderLaws::binding))]
    pub fn bind_next(&mut self) -> Result<(), AllocError>
        requires { AreRight self.old }
        ensures { OnOk result (HaveBound self.old self.new (level (suc (length (binders self.old))))) }
    {
        self.bound.push(Bound {
            name: None,
            hidden: None,
        })?;
        Ok(())
    }

    /// Takes the innermost variable away.
    #[tactic(auto, using(crate::proofs::BinderLaws::leaving))]
    pub fn leave(&mut self) -> Result<(), AllocError>
        requires { AreRight self.old }
        ensures { OnOk result (HaveLeft self.old self.new) }
    {
        let Some(Bound { name, hidden }) = self.bound.pop() else {
            return Ok(());
        };
        let Some(x) = name else {
            return Ok(());
        };
        self.levels.insert(x, hidden)?;
        Ok(())
    }
}
