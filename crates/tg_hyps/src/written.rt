//! Values and variables as terms.
ghost use Rattle.std.specs.Prelude.{◌≡◌, IfOk, List, map, length};
ghost use Rattle.tg_hyps.specs.Written.{term_of, variables_from};
ghost use Rattle.tg_model.specs.Tree.{trees};
ghost use Rattle.tg_model.specs.Types.{Ty};
ghost use Rattle.tg_term.specs.Values.{value};

use sqlite_items::Items;
use std::alloc::{AllocError, Global};
use tg_term::{Node, Term, Value};

/// The term that has this value.
#[cycle(written)]
#[tactic(auto, using(crate::proofs::WrittenLaws::written))]
fn term_of(alloc: Global, v: &Value) -> Result<Term, AllocError>
    ensures { IfOk result (λ t. t ≡ term_of (value v.now)) }
{
    match v {
        Value::Nat(n) => Term::new(alloc, Node::Lit(*n)),
        Value::Bool(b) => Term::new(alloc, Node::Truth(*b)),
        Value::Con(c, vs) => {
            let args = terms_of(alloc, vs.as_slice())?;
            Term::new(alloc, Node::Con(*c, args))
        }
    }
}

/// The terms that have these values.
#[cycle(written)]
#[tactic(auto, using(crate::proofs::WrittenLaws::written))]
pub(crate) fn terms_of(alloc: Global, vs: &[Value]) -> Result<Items<Term>, AllocError>
    ensures { IfOk result (λ ts. ts ≡ map term_of (map value vs.now)) }
{
    let mut terms = Items::new(alloc);
    for v in vs {
        terms.push(term_of(alloc, v)?)?;
    }
    Ok(terms)
}

/// The variables `?1` to `?count`.
#[tactic(auto, using(crate::proofs::WrittenLaws::numbering))]
pub(crate) fn variables(alloc: Global, count: usize) -> Result<Items<Term>, AllocError>
    ensures { IfOk result (λ us. (ts : List Ty) → length ts ≡ count → trees us ≡ variables_from 1 ts) }
{
    let mut terms = Items::new(alloc);
    for at in 0..count {
        let number = u32::try_from(at + 1).map_err(|_| AllocError)?;
        terms.push(Term::new(alloc, Node::Free(number))?)?;
    }
    Ok(terms)
}

/// The same terms.
pub(crate) fn share_all(alloc: Global, ts: &[Term]) -> Result<Items<Term>, AllocError>
    ensures { IfOk result (λ us. us ≡ ts.now) }
{
    let mut copy = Items::new(alloc);
    for t in ts {
        copy.push(t.share()?)?;
    }
    Ok(copy)
}
