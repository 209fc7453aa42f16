//! Lifting, substitution, instantiation and abstraction of terms, each an instance of the walk. A
//! variable's number that would pass 2^32, or binders nested beyond 2^64, are answered as want of memory.
ghost use Rattle.std.specs.Prelude.{◌≡◌, ◌+◌, IfOk, unwrap_or};
ghost use Rattle.tg_model.specs.Tree.{bound};
ghost use Rattle.tg_model.specs.Walk.{walk, lifted};
ghost use Rattle.tg_term.specs.Substituting.{IsLifted, IsSubstituted, IsInstantiated, IsAbstracted};

use crate::lifted::LiftedTerms;
use crate::terms::{Node, Term};
use crate::walking::{Replace, or_shared, walk_at};
use std::alloc::{AllocError, Global};

/// Each loose bound variable goes up by `by`.
#[tactic(auto, using(crate::proofs::Substituted::kept))]
pub fn lift(alloc: Global, t: &Term, by: u32) -> Result<Term, AllocError>
    ensures { IfOk result (λ u. IsLifted by t.now u) }
{
    lift_over(alloc, t, u64::from(by))
}

/// Each `Free(n)` becomes `vars[n - 1]`, lifted over the binders round it. A number that no term is given
/// for, which no caller has, becomes False.
#[tactic(auto, using(crate::proofs::Substituted::kept))]
pub fn subst(alloc: Global, t: &Term, vars: &[Term]) -> Result<Term, AllocError>
    ensures { IfOk result (λ u. IsSubstituted vars.now t.now u) }
{
    let walked = walk_at(alloc, &mut Terms::new(alloc, vars)?, t, 0)?;
    or_shared(t, walked)
}

/// The last argument stands for the loose `Bound(0)`, the one before it for `Bound(1)` and so on, lifted
/// over the binders round them. Other loose bound variables go down by the number of arguments.
#[tactic(auto, using(crate::proofs::Substituted::kept))]
pub fn instantiate(alloc: Global, body: &Term, args: &[Term]) -> Result<Term, AllocError>
    ensures { IfOk result (λ u. IsInstantiated args.now body.now u) }
{
    let walked = walk_at(alloc, &mut Arguments::new(alloc, args)?, body, 0)?;
    or_shared(body, walked)
}

/// Loose bound variables go up by 1, and `Free(n)` becomes the loose `Bound(0)`.
#[tactic(auto, using(crate::proofs::Substituted::kept))]
pub fn abstract_var(alloc: Global, t: &Term, n: u32) -> Result<Term, AllocError>
    ensures { IfOk result (λ u. IsAbstracted n t.now u) }
{
    let walked = walk_at(alloc, &mut Abstraction { number: n }, t, 0)?;
    or_shared(t, walked)
}

/// A term that is lifted by nothing is shared and not walked over: most substitutions are under no binder.
#[tactic(auto, using(crate::proofs::Unmoved::lifted_zero))]
pub(crate) fn lift_over(alloc: Global, t: &Term, by: u64) -> Result<Term, AllocError>
    ensures { IfOk result (λ u. u ≡ lifted by t.now) }
{
    if by == 0 {
        return t.share();
    }
    let walked = walk_at(alloc, &mut Lifting { by }, t, 0)?;
    or_shared(t, walked)
}

fn bound_variable(alloc: Global, index: u64) -> Result<Option<Term>, AllocError>
    ensures { IfOk result (λ o. (t : _) → unwrap_or o t ≡ bound index) }
{
    match u32::try_from(index) {
        Ok(index) => Ok(Some(Term::new(alloc, Node::Bound(index))?)),
        Err(_) => Err(AllocError),
    }
}

/// The loose bound variable, raised.
fn raise(alloc: Global, index: u32, by: u64) -> Result<Option<Term>, AllocError>
    ensures { IfOk result (λ o. (t : _) → unwrap_or o t ≡ bound (index + by)) }
{
    match u64::from(index).checked_add(by) {
        Some(index) => bound_variable(alloc, index),
        None => Err(AllocError),
    }
}

#[derive(Clone, Copy, Debug)]
struct Lifting {
    by: u64,
}

impl Replace for Lifting {
    ghost use Rattle.tg_model.specs.Walk.{raised, as_free};

    ghost on_bound = { λ s. raised s.by };

    ghost on_free = { λ _. as_free };

    fn for_bound(
        &mut self,
        alloc: Global,
        depth: u64,
        index: u32,
    ) -> Result<Option<Term>, AllocError> {
        let is_loose = depth <= u64::from(index);
        if is_loose {
            raise(alloc, index, self.by)
        } else {
            Ok(None)
        }
    }

    fn for_free(
        &mut self,
        _alloc: Global,
        _depth: u64,
        _number: u32,
    ) -> Result<Option<Term>, AllocError> {
        Ok(None)
    }

    #[tactic(auto, using(crate::proofs::Unmoved::left))]
    fn leaves(&self, range: u64, depth: u64) -> bool {
        range <= depth
    }
}

/// The terms that stand for free variables.
#[derive(Debug, Drop)]
pub(crate) struct Terms<'a> {
    terms: LiftedTerms<'a>,
}

impl<'a> Terms<'a> {
    pub(crate) fn new(alloc: Global, terms: &'a [Term]) -> Result<Terms<'a>, AllocError>
        ensures { IfOk result (λ s. s.terms ≡ terms.now) }
    {
        Ok(Terms {
            terms: LiftedTerms::new(alloc, terms)?,
        })
    }
}

impl Replace for Terms<'_> {
    ghost use Rattle.tg_model.specs.Walk.{as_bound, given};

    ghost on_bound = { λ _. as_bound };

    ghost on_free = { λ s. given s.terms };

    fn for_bound(
        &mut self,
        _alloc: Global,
        _depth: u64,
        _index: u32,
    ) -> Result<Option<Term>, AllocError> {
        Ok(None)
    }

    fn for_free(
        &mut self,
        alloc: Global,
        depth: u64,
        number: u32,
    ) -> Result<Option<Term>, AllocError> {
        match self.terms.numbered(alloc, number, depth)? {
            Some(u) => Ok(Some(u)),
            None => Ok(Some(Term::new(alloc, Node::Truth(false))?)),
        }
    }

    fn leaves(&self, _range: u64, _depth: u64) -> bool {
        false
    }
}

/// The terms that stand for the innermost loose bound variables.
#[derive(Debug, Drop)]
pub(crate) struct Arguments<'a> {
    terms: LiftedTerms<'a>,
}

impl<'a> Arguments<'a> {
    pub(crate) fn new(alloc: Global, terms: &'a [Term]) -> Result<Arguments<'a>, AllocError>
        ensures { IfOk result (λ s. s.terms ≡ terms.now) }
    {
        Ok(Arguments {
            terms: LiftedTerms::new(alloc, terms)?,
        })
    }
}

impl Replace for Arguments<'_> {
    ghost use Rattle.tg_model.specs.Walk.{as_free, filled};

    ghost on_bound = { λ s. filled s.terms };

    ghost on_free = { λ _. as_free };

    fn for_bound(
        &mut self,
        alloc: Global,
        depth: u64,
        index: u32,
    ) -> Result<Option<Term>, AllocError> {
        match u64::from(index).checked_sub(depth) {
            None => Ok(None),
            Some(loose) => match self.terms.from_the_end(alloc, loose, depth)? {
                Some(u) => Ok(Some(u)),
                None => bound_variable(
                    alloc,
                    u64::from(index).saturating_sub(self.terms.len() as u64),
                ),
            },
        }
    }

    fn for_free(
        &mut self,
        _alloc: Global,
        _depth: u64,
        _number: u32,
    ) -> Result<Option<Term>, AllocError> {
        Ok(None)
    }

    #[tactic(auto, using(crate::proofs::Unmoved::left))]
    fn leaves(&self, range: u64, depth: u64) -> bool {
        range <= depth
    }
}

/// The number of the free variable that is bound.
#[derive(Clone, Copy, Debug)]
pub(crate) struct Abstraction {
    pub(crate) number: u32,
}

impl Replace for Abstraction {
    ghost use Rattle.tg_model.specs.Walk.{raised, bound_for};

    ghost on_bound = { λ _. raised 1 };

    ghost on_free = { λ s. bound_for s.number };

    fn for_bound(
        &mut self,
        alloc: Global,
        depth: u64,
        index: u32,
    ) -> Result<Option<Term>, AllocError> {
        if u64::from(index) < depth {
            Ok(None)
        } else {
            raise(alloc, index, 1)
        }
    }

    fn for_free(
        &mut self,
        alloc: Global,
        depth: u64,
        number: u32,
    ) -> Result<Option<Term>, AllocError> {
        if number == self.number {
            bound_variable(alloc, depth)
        } else {
            Ok(None)
        }
    }

    fn leaves(&self, _range: u64, _depth: u64) -> bool {
        false
    }
}

/// The number of free variables, from the first, that are bound by quantifiers round the formula.
#[derive(Clone, Copy, Debug)]
pub(crate) struct Closing {
    pub(crate) count: u32,
}

impl Replace for Closing {
    ghost use Rattle.tg_model.specs.Walk.{raised};
    ghost use Rattle.tg_model.specs.Closing.{bound_among};

    ghost on_bound = { λ s. raised s.count };

    ghost on_free = { λ s. bound_among s.count };

    fn for_bound(
        &mut self,
        alloc: Global,
        depth: u64,
        index: u32,
    ) -> Result<Option<Term>, AllocError> {
        if u64::from(index) < depth {
            Ok(None)
        } else {
            raise(alloc, index, u64::from(self.count))
        }
    }

    fn for_free(
        &mut self,
        alloc: Global,
        depth: u64,
        number: u32,
    ) -> Result<Option<Term>, AllocError> {
        if number == 0 || self.count < number {
            return Ok(None);
        }
        match depth.checked_add(u64::from(self.count - number)) {
            Some(index) => bound_variable(alloc, index),
            None => Err(AllocError),
        }
    }

    fn leaves(&self, _range: u64, _depth: u64) -> bool {
        false
    }
}
