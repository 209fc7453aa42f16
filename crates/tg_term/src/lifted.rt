//! A term, and what it becomes over the binders round the places where it is put in.
ghost use Rattle.std.specs.Prelude.{◌≡◌, IfOk, OnOk, length, option_map, slice_get, reverse};
ghost use Rattle.tg_model.specs.Theory.{numbered};
ghost use Rattle.tg_model.specs.Walk.{lifted};

use crate::substituting::lift_over;
use crate::terms::Term;
use std::alloc::{AllocError, Global};
use std::collections::BTreeMap;
use std::marker::Model;

/// A term that is put in for a variable. A contract sees the term; for each number of binders it is lifted
/// once at the most.
#[derive(Debug, Drop)]
pub(crate) struct LiftedTerm<'a> {
    term: &'a Term,
    by_binders: BTreeMap<u64, Term>,
}

impl<'a> Model for LiftedTerm<'a> {
    ghost use Rattle.std.specs.Prelude.{ℕ, ◌≡◌, Some};
    ghost use Rattle.std.specs.Ordering.{nat_cmp};
    ghost use Rattle.std.specs.BTreeMap.{get};
    ghost use Rattle.tg_model.specs.Tree.{Tree};
    ghost use Rattle.tg_model.specs.Walk.{lifted};
    ghost use Rattle.tg_term.specs.Code.{coded_tree};

    ghost Value = { Tree };

    ghost coded = { coded_tree };

    ghost view = { λ s. s.term.now };

    ghost invariant = { λ s. (by : ℕ) (t : Tree) → get nat_cmp s.by_binders by ≡ Some t → t ≡ lifted by s.term.now };
}

impl<'a> LiftedTerm<'a> {
    pub(crate) fn new(alloc: Global, term: &'a Term) -> LiftedTerm<'a>
        ensures { result ≡ term.now }
    {
        LiftedTerm {
            term,
            by_binders: BTreeMap::new(alloc),
        }
    }

    /// The term, lifted over so many binders.
    #[tactic(auto, using(crate::proofs::Unmoved::lifted_zero))]
    pub(crate) fn over(&mut self, alloc: Global, by: u64) -> Result<Term, AllocError>
        ensures exact { IfOk result (λ u. u ≡ lifted by self.old) }
        ensures kept { self.new ≡ self.old }
    {
        if by == 0 {
            return self.term.share();
        }
        if let Some(made) = self.by_binders.get(&by) {
            return made.share();
        }
        let made = lift_over(alloc, self.term, by)?;
        // without a loose variable lifting makes nothing that is worth keeping
        if self.term.loose_range() > 0 {
            self.by_binders.insert(by, made.share()?)?;
        }
        Ok(made)
    }
}

/// Terms that are put in for variables. A contract sees the list of them.
#[derive(Debug, Drop)]
pub(crate) struct LiftedTerms<'a> {
    items: Vec<LiftedTerm<'a>>,
}

impl<'a> Model for LiftedTerms<'a> {
    ghost use Rattle.std.specs.Prelude.{List};
    ghost use Rattle.std.specs.Coded.{coded_list};
    ghost use Rattle.tg_model.specs.Tree.{Tree};
    ghost use Rattle.tg_term.specs.Code.{coded_tree};

    ghost Value = { List Tree };

    ghost coded = { coded_list coded_tree };

    ghost view = { λ s. s.items.items };
}

impl<'a> LiftedTerms<'a> {
    pub(crate) fn new(alloc: Global, terms: &'a [Term]) -> Result<LiftedTerms<'a>, AllocError>
        ensures { IfOk result (λ s. s ≡ terms.now) }
    {
        let mut items = Vec::with_capacity(alloc, terms.len())?;
        for term in terms {
            items.push(LiftedTerm::new(alloc, term))?;
        }
        Ok(LiftedTerms { items })
    }

    pub(crate) fn len(&self) -> usize
        ensures { result ≡ length self.now }
    {
        self.items.len()
    }

    /// The term of a place, from 0, lifted over so many binders, if there is one.
    #[tactic(auto, using(crate::proofs::Places::unchanged))]
    fn at(&mut self, alloc: Global, place: usize, by: u64) -> Result<Option<Term>, AllocError>
        ensures exact { IfOk result (λ o. o ≡ option_map (lifted by) (slice_get self.old place)) }
        ensures kept { OnOk result (self.new ≡ self.old) }
    {
        match self.items.get_mut(place) {
            Some(term) => Ok(Some(term.over(alloc, by)?)),
            None => Ok(None),
        }
    }

    /// The term of a number, from 1, lifted over so many binders, if there is one.
    pub(crate) fn numbered(
        &mut self,
        alloc: Global,
        number: u32,
        by: u64,
    ) -> Result<Option<Term>, AllocError>
        ensures exact { IfOk result (λ o. o ≡ option_map (lifted by) (numbered self.old number)) }
        ensures kept { OnOk result (self.new ≡ self.old) }
    {
        match (number as usize).checked_sub(1) {
            Some(place) => self.at(alloc, place, by),
            None => Ok(None),
        }
    }

    /// The term of a place that is counted from the end, from 0, lifted over so many binders, if there is
    /// one.
    pub(crate) fn from_the_end(
        &mut self,
        alloc: Global,
        place: u64,
        by: u64,
    ) -> Result<Option<Term>, AllocError>
        ensures exact { IfOk result (λ o. o ≡ option_map (lifted by) (slice_get (reverse self.old) place)) }
        ensures kept { OnOk result (self.new ≡ self.old) }
    {
        match self.items.len().checked_sub(1) {
            None => Ok(None),
            Some(last) => match last.checked_sub(place as usize) {
                Some(at) => self.at(alloc, at, by),
                None => Ok(None),
            },
        }
    }
}
