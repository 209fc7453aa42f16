//! The clauses of a term and those of its negation, by the table of operators.
ghost use Rattle.std.specs.Prelude.{◌≡◌, ◌∷◌, [], IfOk, IfErr, map};
ghost use Rattle.tg_clause.specs.Answers.{literals, side_of, sides_of, asked, both_fit, IsExcess};
ghost use Rattle.tg_clause.specs.Clauses.{said, beside, times, turned, sides, of_truth, of_atom, of_conjunction, of_disjunction, of_implication, of_equality};

use crate::errors::ClauseErr;
use crate::joining::{literal, product};
use crate::literals::Clause;
use crate::roots::{Root, root_of};
use sqlite_items::Items;
use std::alloc::{AllocError, Global};
use tg_term::Term;

/// No list of clauses has more.
const MAX_CLAUSES: usize = 4096;

/// The clauses of a term, and those of its negation. What isn't asked for is empty.
#[derive(Debug, Drop)]
pub(crate) struct Sides {
    pub(crate) positive: Vec<Clause>,
    pub(crate) negative: Vec<Clause>,
}

impl Sides {
    /// Those of the negation.
    fn turned(self) -> Sides
        ensures { sides_of result ≡ turned (sides_of self) }
    {
        Sides {
            positive: self.negative,
            negative: self.positive,
        }
    }
}

/// Which clauses are asked for.
#[derive(Clone, Copy, Debug, PartialEq, Eq)]
pub(crate) enum Asked {
    /// Those of the term.
    Positive,
    /// Those of its negation.
    Negative,
    /// Both.
    Both,
}

impl Asked {
    /// What is asked of the negation.
    fn turned(self) -> Asked
        ensures { (s : _) → asked result (turned s) ≡ turned (asked self s) }
    {
        match self {
            Asked::Positive => Asked::Negative,
            Asked::Negative => Asked::Positive,
            Asked::Both => Asked::Both,
        }
    }
}

/// One list behind the other, unless they are too many.
#[tactic(auto, using(crate::proofs::SideLaws::lists))]
fn beside(cs: Vec<Clause>, ds: Vec<Clause>) -> Result<Vec<Clause>, ClauseErr>
    ensures all { IfOk result (λ all. beside (side_of cs.items) (side_of ds.items) ≡ side_of all.items) }
    ensures excess { IfErr result (IsExcess (beside (side_of cs.items) (side_of ds.items)).fits) }
{
    let mut all = cs;
    if all.len().saturating_add(ds.len()) > MAX_CLAUSES {
        return Err(ClauseErr::Clauses);
    }
    let mut rest = ds;
    all.append(&mut rest)?;
    Ok(all)
}

/// Each clause of the first list joined with each of the second, unless they are too many.
#[tactic(auto, using(crate::proofs::SideLaws::lists))]
fn times(alloc: Global, cs: &[Clause], ds: &[Clause]) -> Result<Vec<Clause>, ClauseErr>
    ensures all { IfOk result (λ all. times (side_of cs.now) (side_of ds.now) ≡ side_of all.items) }
    ensures excess { IfErr result (IsExcess (times (side_of cs.now) (side_of ds.now)).fits) }
{
    if cs.len().saturating_mul(ds.len()) > MAX_CLAUSES {
        return Err(ClauseErr::Clauses);
    }
    let all = product(alloc, cs, ds)?;
    Ok(all)
}

/// The list of the clause of one literal.
fn unit(alloc: Global, positive: bool, atom: &Term) -> Result<Vec<Clause>, AllocError>
    ensures { IfOk result (λ cs. map literals cs.items ≡ (said positive atom.now ∷ []) ∷ []) }
{
    let mut literals = Items::new(alloc);
    literals.push(literal(positive, atom)?)?;
    let mut cs = Vec::new(alloc);
    cs.push(Clause { literals })?;
    Ok(cs)
}

/// The list of the empty clause.
fn falsity(alloc: Global) -> Result<Vec<Clause>, AllocError>
    ensures { IfOk result (λ cs. map literals cs.items ≡ [] ∷ []) }
{
    let mut cs = Vec::new(alloc);
    cs.push(Clause {
        literals: Items::new(alloc),
    })?;
    Ok(cs)
}

/// The sides of an atom.
fn atom(alloc: Global, t: &Term, asks: Asked) -> Result<Sides, AllocError>
    ensures { IfOk result (λ s. asked asks (of_atom t.now) ≡ sides_of s) }
{
    match asks {
        Asked::Positive => Ok(Sides {
            positive: unit(alloc, true, t)?,
            negative: Vec::new(alloc),
        }),
        Asked::Negative => Ok(Sides {
            positive: Vec::new(alloc),
            negative: unit(alloc, false, t)?,
        }),
        Asked::Both => Ok(Sides {
            positive: unit(alloc, true, t)?,
            negative: unit(alloc, false, t)?,
        }),
    }
}

/// The sides of a truth value.
fn truth(alloc: Global, b: bool, asks: Asked) -> Result<Sides, AllocError>
    ensures { IfOk result (λ s. asked asks (of_truth b) ≡ sides_of s) }
{
    match (b, asks) {
        (true, Asked::Negative | Asked::Both) => Ok(Sides {
            positive: Vec::new(alloc),
            negative: falsity(alloc)?,
        }),
        (false, Asked::Positive | Asked::Both) => Ok(Sides {
            positive: falsity(alloc)?,
            negative: Vec::new(alloc),
        }),
        (true, Asked::Positive) | (false, Asked::Negative) => Ok(Sides {
            positive: Vec::new(alloc),
            negative: Vec::new(alloc),
        }),
    }
}

/// The sides of a conjunction, by those of its operands.
#[tactic(auto, using(crate::proofs::SideLaws::combining))]
fn conjoined(alloc: Global, a: Sides, b: Sides) -> Result<Sides, ClauseErr>
    ensures are { IfOk result (λ s. of_conjunction (sides_of a) (sides_of b) ≡ sides_of s) }
    ensures excess { IfErr result (IsExcess (both_fit (of_conjunction (sides_of a) (sides_of b)))) }
{
    let negative = times(alloc, a.negative.as_slice(), b.negative.as_slice())?;
    let positive = beside(a.positive, b.positive)?;
    Ok(Sides { positive, negative })
}

/// The clauses that say that of two terms one is true where the other is.
#[tactic(auto, using(crate::proofs::SideLaws::combining))]
fn alike(alloc: Global, a: &Sides, b: &Sides) -> Result<Vec<Clause>, ClauseErr>
    ensures are { IfOk result (λ cs. (of_equality (sides_of a.now) (sides_of b.now)).positive ≡ side_of cs.items) }
    ensures excess { IfErr result (IsExcess (of_equality (sides_of a.now) (sides_of b.now)).positive.fits) }
{
    let forward = times(alloc, a.negative.as_slice(), b.positive.as_slice())?;
    let backward = times(alloc, b.negative.as_slice(), a.positive.as_slice())?;
    let all = beside(forward, backward)?;
    Ok(all)
}

/// The clauses that say that of two terms just one is true.
#[tactic(auto, using(crate::proofs::SideLaws::combining))]
fn unlike(alloc: Global, a: &Sides, b: &Sides) -> Result<Vec<Clause>, ClauseErr>
    ensures are { IfOk result (λ cs. (of_equality (sides_of a.now) (sides_of b.now)).negative ≡ side_of cs.items) }
    ensures excess { IfErr result (IsExcess (of_equality (sides_of a.now) (sides_of b.now)).negative.fits) }
{
    let one = times(alloc, a.positive.as_slice(), b.positive.as_slice())?;
    let none = times(alloc, a.negative.as_slice(), b.negative.as_slice())?;
    let all = beside(one, none)?;
    Ok(all)
}

/// The sides of an equation of truth values, by those of its operands.
#[tactic(auto, using(crate::proofs::SideLaws::combining))]
fn equated(alloc: Global, a: &Sides, b: &Sides, asks: Asked) -> Result<Sides, ClauseErr>
    ensures are { IfOk result (λ s. asked asks (of_equality (sides_of a.now) (sides_of b.now)) ≡ sides_of s) }
    ensures excess { IfErr result (IsExcess (both_fit (asked asks (of_equality (sides_of a.now) (sides_of b.now))))) }
{
    match asks {
        Asked::Positive => {
            let positive = alike(alloc, a, b)?;
            let negative = Vec::new(alloc);
            Ok(Sides { positive, negative })
        }
        Asked::Negative => {
            let negative = unlike(alloc, a, b)?;
            let positive = Vec::new(alloc);
            Ok(Sides { positive, negative })
        }
        Asked::Both => {
            let positive = alike(alloc, a, b)?;
            let negative = unlike(alloc, a, b)?;
            Ok(Sides { positive, negative })
        }
    }
}

/// The clauses of a term and of its negation, as far as they are asked for. Each subterm that isn't an atom is walked
/// once.
#[cycle(sides)]
#[tactic(auto, using(crate::proofs::SideLaws::walking))]
pub(crate) fn sides_of_term(alloc: Global, t: &Term, asks: Asked) -> Result<Sides, ClauseErr>
    ensures are { IfOk result (λ s. asked asks (sides t.now) ≡ sides_of s) }
    ensures excess { IfErr result (IsExcess (both_fit (asked asks (sides t.now)))) }
{
    match root_of(t) {
        Root::Atom => {
            let s = atom(alloc, t, asks)?;
            Ok(s)
        }
        Root::Truth(b) => {
            let s = truth(alloc, b, asks)?;
            Ok(s)
        }
        Root::Not(a) => {
            let s = sides_of_term(alloc, a, asks.turned())?;
            Ok(s.turned())
        }
        Root::And(a, b) => conjunction(alloc, a, b, asks),
        Root::Or(a, b) => disjunction(alloc, a, b, asks),
        Root::Implies(a, b) => implication(alloc, a, b, asks),
        Root::Equal(a, b) => equality(alloc, a, b, asks),
    }
}

#[cycle(sides)]
#[tactic(auto, using(crate::proofs::SideLaws::walking))]
fn conjunction(alloc: Global, a: &Term, b: &Term, asks: Asked) -> Result<Sides, ClauseErr>
    ensures are { IfOk result (λ s. asked asks (of_conjunction (sides a.now) (sides b.now)) ≡ sides_of s) }
    ensures excess { IfErr result (IsExcess (both_fit (asked asks (of_conjunction (sides a.now) (sides b.now))))) }
{
    let x = sides_of_term(alloc, a, asks)?;
    let y = sides_of_term(alloc, b, asks)?;
    let s = conjoined(alloc, x, y)?;
    Ok(s)
}

#[cycle(sides)]
#[tactic(auto, using(crate::proofs::SideLaws::walking))]
fn disjunction(alloc: Global, a: &Term, b: &Term, asks: Asked) -> Result<Sides, ClauseErr>
    ensures are { IfOk result (λ s. asked asks (of_disjunction (sides a.now) (sides b.now)) ≡ sides_of s) }
    ensures excess { IfErr result (IsExcess (both_fit (asked asks (of_disjunction (sides a.now) (sides b.now))))) }
{
    let x = sides_of_term(alloc, a, asks)?;
    let y = sides_of_term(alloc, b, asks)?;
    let s = conjoined(alloc, x.turned(), y.turned())?;
    Ok(s.turned())
}

#[cycle(sides)]
#[tactic(auto, using(crate::proofs::SideLaws::walking))]
fn implication(alloc: Global, a: &Term, b: &Term, asks: Asked) -> Result<Sides, ClauseErr>
    ensures are { IfOk result (λ s. asked asks (of_implication (sides a.now) (sides b.now)) ≡ sides_of s) }
    ensures excess { IfErr result (IsExcess (both_fit (asked asks (of_implication (sides a.now) (sides b.now))))) }
{
    let x = sides_of_term(alloc, a, asks.turned())?;
    let y = sides_of_term(alloc, b, asks)?;
    let s = conjoined(alloc, x, y.turned())?;
    Ok(s.turned())
}

#[cycle(sides)]
#[tactic(auto, using(crate::proofs::SideLaws::walking))]
fn equality(alloc: Global, a: &Term, b: &Term, asks: Asked) -> Result<Sides, ClauseErr>
    ensures are { IfOk result (λ s. asked asks (of_equality (sides a.now) (sides b.now)) ≡ sides_of s) }
    ensures excess { IfErr result (IsExcess (both_fit (asked asks (of_equality (sides a.now) (sides b.now))))) }
{
    let x = sides_of_term(alloc, a, Asked::Both)?;
    let y = sides_of_term(alloc, b, Asked::Both)?;
    let s = equated(alloc, &x, &y, asks)?;
    Ok(s)
}
