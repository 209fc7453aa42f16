//! The clause form of a term.
ghost use Rattle.std.specs.Prelude.{◌≡◌, true, IfOk, IfErr, not, map};
ghost use Rattle.std.specs.List.{filter};
ghost use Rattle.tg_clause.specs.Answers.{literals, IsExcess};
ghost use Rattle.tg_clause.specs.Clauses.{has, opposite, same_literal, is_tautology, clauses_of, fits};

use crate::errors::ClauseErr;
use crate::joining::{copied, is_same_term};
use crate::literals::{Clause, Literal};
use crate::sides::{Asked, sides_of_term};
use std::alloc::{AllocError, Global};
use tg_term::Term;

/// The clauses of a boolean term, in the order of the clause form, those left out in which a literal and its negation
/// stand. The term is true exactly where all of them are.
///
/// `Clauses` comes exactly where a list that the clause form asks for has more than 4,096 clauses, that of the term or one
/// that it is made of.
#[tactic(auto, using(crate::proofs::SideLaws::forms))]
pub fn clauses(alloc: Global, t: &Term) -> Result<Vec<Clause>, ClauseErr>
    ensures clauses { IfOk result (λ cs. map literals cs.items ≡ clauses_of t.now) }
    ensures fits { IfOk result (λ cs. fits t.now ≡ true) }
    ensures excess { IfErr result (IsExcess (fits t.now)) }
{
    let s = sides_of_term(alloc, t, Asked::Positive)?;
    let kept = informative(alloc, s.positive.as_slice())?;
    Ok(kept)
}

/// The clauses that aren't tautologies.
#[tactic(auto, using(crate::proofs::ListLaws::keeping))]
fn informative(alloc: Global, cs: &[Clause]) -> Result<Vec<Clause>, AllocError>
    ensures { IfOk result (λ kept. map literals kept.items ≡ filter (λ c. not (is_tautology c)) (map literals cs.now)) }
{
    let mut kept = Vec::new(alloc);
    for c in cs {
        if !is_tautology(c.literals.as_slice()) {
            kept.push(copied(alloc, c)?)?;
        }
    }
    Ok(kept)
}

/// Whether a literal and its negation stand in the clause.
fn is_tautology(c: &[Literal]) -> bool
    ensures { result ≡ is_tautology c.now }
{
    c.iter().any(|l| has_opposite(c, l))
}

fn has_opposite(c: &[Literal], l: &Literal) -> bool
    ensures { result ≡ has c.now (opposite l.now) }
{
    c.iter().any(|m| is_opposite(l, m))
}

#[tactic(auto, using(crate::proofs::LiteralLaws::opposing))]
fn is_opposite(l: &Literal, m: &Literal) -> bool
    ensures { result ≡ same_literal (opposite l.now) m.now }
{
    l.positive != m.positive && is_same_term(&l.atom, &m.atom)
}
