//! Substitutions for open types.
ghost use Rattle.std.specs.Prelude.{◌≡◌, [], ◌∷◌, ◌++◌, length, take, IfOk, OnOk, OnErr};
ghost use Rattle.tg_types.specs.Substitutions.{apply, IsWhole, IsFresh};
ghost use Rattle.tg_types.specs.Types.{ty};
ghost use Rattle.tg_types.specs.Arguments.{OnArguments};

use super::copying::{copy, put};
use super::types::Ty;
use std::alloc::{AllocError, Global};
use std::marker::Model;

/// That an open type stands for a type.
#[derive(Drop)]
pub(crate) struct Agreement {
    pub(crate) var: u32,
    pub(crate) meaning: Ty,
}

/// What open types stand for, as far as it was found. A contract sees it as its agreements, the
/// oldest first. Put into a type one after the other, they leave nothing to put in again.
#[derive(Drop)]
pub struct Subst {
    agreements: Vec<Agreement>,
    alloc: Global,
}

impl Model for Subst {
    ghost use Rattle.std.specs.Coded.{coded_list};
    ghost use Rattle.tg_types.specs.Substitutions.{Substitution, IsWhole};
    ghost use Rattle.tg_types.specs.Code.{coded_agreement};

    ghost Value = { Substitution };

    ghost coded = { coded_list coded_agreement };

    ghost use Rattle.tg_types.specs.View.{substitution};

    ghost view = { λ s. substitution s.agreements.items };

    ghost invariant = { λ s. IsWhole (substitution s.agreements.items) };
}

impl Subst {
    /// The substitution in which no open type stands for another type. It takes no memory.
    pub fn new(alloc: Global) -> Subst
        ensures { result ≡ [] }
    {
        Subst {
            agreements: Vec::new(alloc),
            alloc,
        }
    }

    /// The type with all agreements put in. It holds no open type that an agreement speaks of.
    pub fn apply(&self, t: &Ty) -> Result<Ty, AllocError>
        ensures applied { IfOk result (λ u. ty u ≡ apply self.now (ty t.now)) }
        ensures whole { IsWhole self.now }
    {
        let mut done = copy(self.alloc, t)?;
        for x in &self.agreements {
            done = put(self.alloc, x, &done)?;
        }
        Ok(done)
    }

    /// The arguments of two types of one datatype, as they stand there: what is put into a type changes
    /// no root that isn't open, so a walk over the types goes on with these, and puts it in further down.
    pub(crate) fn arguments<'a>(&self, a: &'a Ty, b: &'a Ty) -> Option<(&'a [Ty], &'a [Ty])>
        ensures { OnArguments self.now (ty a.now) (ty b.now) result }
    {
        // Only a method that reaches the field knows that nothing is left to put into what was put in.
        let _agreements = &self.agreements;
        match (a, b) {
            (Ty::App(d, ts), Ty::App(e, us)) if *d == *e && ts.len() == us.len() => {
                Some((ts.as_slice(), us.as_slice()))
            }
            _ => None,
        }
    }

    /// Adds an agreement.
    pub(crate) fn agree(&mut self, var: u32, meaning: &Ty) -> Result<(), AllocError>
        requires { IsFresh self.old (record { variable = var; meaning = ty meaning.now }) }
        ensures ok { OnOk result (self.new ≡ self.old ++ (record { variable = var; meaning = ty meaning.now }) ∷ []) }
        ensures err { OnErr result (self.new ≡ self.old) }
    {
        let meaning = copy(self.alloc, meaning)?;
        self.agreements.push(Agreement { var, meaning })?;
        Ok(())
    }

    /// How many agreements there are.
    pub(crate) fn count(&self) -> usize
        ensures count { result ≡ length self.now }
        ensures whole { IsWhole self.now }
    {
        self.agreements.len()
    }

    /// Leaves the first `count` agreements.
    pub(crate) fn keep(&mut self, count: usize)
        requires { IsWhole (take count self.old) }
        ensures { self.new ≡ take count self.old }
    {
        self.agreements.truncate(count);
    }

    /// Copies a type, in the memory that the substitution is made in.
    pub(crate) fn copy(&self, t: &Ty) -> Result<Ty, AllocError>
        ensures { IfOk result (λ u. u ≡ t.now) }
    {
        copy(self.alloc, t)
    }
}
