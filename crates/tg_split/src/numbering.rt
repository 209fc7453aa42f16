//! Shapes as terms whose variables are numbered from 1, and with their variables numbered on.
ghost use Rattle.std.specs.Prelude.{◌≡◌, ◌+◌, ◌≤◌, All, IfOk, IfSome, OnOk, length, map, slice_get};
ghost use Rattle.tg_model.specs.Accepted.{variables_from};
ghost use Rattle.tg_model.specs.Walk.{substituted};
ghost use Rattle.tg_split.specs.Listing.{AreBehind, IsBehind};

use sqlite_items::Items;
use std::alloc::{AllocError, Global};
use tg_term::{Node, Term, subst};
use tg_types::Ty;

/// A shape as a term whose variables are numbered from 1 from the left.
#[derive(Debug, Drop)]
pub(crate) struct Part {
    pub(crate) term: Term,
    /// The types of the variables.
    pub(crate) vars: Items<Ty>,
}

/// The terms of shapes that stand behind terms with so many variables.
#[derive(Debug, Drop)]
pub(crate) struct Behind {
    pub(crate) vars: usize,
    pub(crate) terms: Vec<Term>,
}

/// The place of the shapes' terms behind so many variables. They are made only once.
#[tactic(auto, using(crate::proofs::NumberLaws::numbering))]
pub(crate) fn place_behind(
    alloc: Global,
    parts: &[Part],
    vars: usize,
    made: &mut Vec<Behind>,
) -> Result<usize, AllocError>
    requires { All (IsBehind parts.now) made.old.items }
    ensures right { OnOk result (All (IsBehind parts.now) made.new.items) }
    ensures found { IfOk result (λ place. (b : _) → slice_get made.new.items place ≡ Some b → b.vars ≡ vars) }
{
    if let Some(place) = find(made.as_slice(), vars) {
        return Ok(place);
    }
    let terms = terms_behind(alloc, parts, vars)?;
    let place = made.len();
    made.push(Behind { vars, terms })?;
    Ok(place)
}

fn find(made: &[Behind], vars: usize) -> Option<usize>
    ensures { IfSome result (λ place. (b : _) → slice_get made.now place ≡ Some b → b.vars ≡ vars) }
{
    for (place, behind) in made.iter().enumerate() {
        if behind.vars == vars {
            return Some(place);
        }
    }
    None
}

/// The terms of the shapes, their variables numbered on from so many. What has no variable is shared.
#[tactic(auto, using(crate::proofs::NumberLaws::numbering))]
fn terms_behind(alloc: Global, parts: &[Part], vars: usize) -> Result<Vec<Term>, AllocError>
    ensures { IfOk result (λ ts. AreBehind parts.now vars ts.items) }
{
    if vars == 0 {
        return terms_of(alloc, parts);
    }
    let variables = variables_after(alloc, vars, most_variables(parts))?;
    let terms = put_in(alloc, parts, variables.as_slice())?;
    Ok(terms)
}

/// The terms of the shapes as they are.
fn terms_of(alloc: Global, parts: &[Part]) -> Result<Vec<Term>, AllocError>
    ensures { IfOk result (λ ts. ts.items ≡ map (λ p. p.term) parts.now) }
{
    let mut terms = Vec::new(alloc);
    for part in parts {
        terms.push(part.term.share()?)?;
    }
    Ok(terms)
}

/// The terms of the shapes with the variables in place of theirs.
fn put_in(alloc: Global, parts: &[Part], variables: &[Term]) -> Result<Vec<Term>, AllocError>
    ensures { IfOk result (λ ts. ts.items ≡ map (λ p. substituted variables.now p.term) parts.now) }
{
    let mut terms = Vec::new(alloc);
    for part in parts {
        terms.push(subst(alloc, &part.term, variables)?)?;
    }
    Ok(terms)
}

/// As many variables, numbered on from so many.
#[tactic(auto, using(crate::proofs::NumberLaws::numbering))]
fn variables_after(alloc: Global, vars: usize, count: usize) -> Result<Vec<Term>, AllocError>
    ensures { IfOk result (λ ts. ts.items ≡ variables_from (1 + vars) count) }
{
    let mut variables = Vec::new(alloc);
    for at in 0..count {
        let number = vars.checked_add(at + 1).ok_or(AllocError)?;
        let number = u32::try_from(number).map_err(|_| AllocError)?;
        variables.push(Term::new(alloc, Node::Free(number))?)?;
    }
    Ok(variables)
}

/// The most variables of a shape.
fn most_variables(parts: &[Part]) -> usize
    ensures { All (λ p. length p.vars ≤ result) parts.now }
{
    let mut most = 0;
    for part in parts {
        let count = part.vars.len();
        if most < count {
            most = count;
        }
    }
    most
}
