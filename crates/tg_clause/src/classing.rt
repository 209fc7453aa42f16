//! The class of inputs of a clause.
ghost use Rattle.std.specs.Prelude.{◌≡◌, IfOk};
ghost use Rattle.tg_clause.specs.Answers.{literals};
ghost use Rattle.tg_clause.specs.Classes.{IsClassOf, term_of, constraints_of, checks_of};
ghost use Rattle.tg_clause.specs.Clauses.{said};

use crate::literals::{Clause, Literal};
use crate::roots::NEGATION;
use sqlite_items::Items;
use std::alloc::{AllocError, Global};
use tg_term::{Class, Node, Pattern, Term, calls_program};
use tg_types::{Ty, copy};

/// The class of a clause at a pattern. Its constraints are the negations of the literals without a program call, in
/// their order, its checks the other literals.
pub fn class_of(alloc: Global, p: &Pattern, c: &Clause) -> Result<Class, AllocError>
    ensures { IfOk result (IsClassOf p.now (literals c.now)) }
{
    let terms = shared(alloc, p.terms.as_slice())?;
    let vars = copied(alloc, p.vars.as_slice())?;
    let constraints = constraints_of(alloc, c.literals.as_slice())?;
    let checks = checks_of(alloc, c.literals.as_slice())?;
    Ok(Class {
        pattern: Pattern { terms, vars },
        constraints,
        checks,
    })
}

#[tactic(auto, using(crate::proofs::ListLaws::copying))]
fn shared(alloc: Global, ts: &[Term]) -> Result<Items<Term>, AllocError>
    ensures { IfOk result (λ all. all ≡ ts.now) }
{
    let mut all = Items::new(alloc);
    for t in ts {
        all.push(t.share()?)?;
    }
    Ok(all)
}

#[tactic(auto, using(crate::proofs::ListLaws::copying))]
fn copied(alloc: Global, ts: &[Ty]) -> Result<Items<Ty>, AllocError>
    ensures { IfOk result (λ all. all ≡ ts.now) }
{
    let mut all = Items::new(alloc);
    for t in ts {
        all.push(copy(alloc, t)?)?;
    }
    Ok(all)
}

/// The atom, or its negation.
fn signed(alloc: Global, positive: bool, atom: &Term) -> Result<Term, AllocError>
    ensures { IfOk result (λ t. t ≡ term_of (said positive atom.now)) }
{
    let same = atom.share()?;
    if positive {
        return Ok(same);
    }
    let mut operands = Items::new(alloc);
    operands.push(same)?;
    let t = Term::new(alloc, Node::Op(NEGATION, operands))?;
    Ok(t)
}

#[tactic(auto, using(crate::proofs::ClassLaws::classing))]
fn constraints_of(alloc: Global, c: &[Literal]) -> Result<Items<Term>, AllocError>
    ensures { IfOk result (λ ts. ts ≡ constraints_of c.now) }
{
    let mut ts = Items::new(alloc);
    for l in c {
        if !calls_program(&l.atom) {
            ts.push(signed(alloc, !l.positive, &l.atom)?)?;
        }
    }
    Ok(ts)
}

#[tactic(auto, using(crate::proofs::ClassLaws::classing))]
fn checks_of(alloc: Global, c: &[Literal]) -> Result<Items<Term>, AllocError>
    ensures { IfOk result (λ ts. ts ≡ checks_of c.now) }
{
    let mut ts = Items::new(alloc);
    for l in c {
        if calls_program(&l.atom) {
            ts.push(signed(alloc, l.positive, &l.atom)?)?;
        }
    }
    Ok(ts)
}
