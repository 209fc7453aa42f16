//! Chains of constructors from the root of a term.
ghost use Rattle.std.specs.Prelude.{◌≡◌, IfOk, map};
ghost use Rattle.tg_calculus.specs.Chains.{is_data, has_chain, some_has_chain};
ghost use Rattle.tg_model.specs.Tree.{trees};
ghost use Rattle.tg_types.specs.Types.{ty};

use crate::constructors::arguments_at;
use std::alloc::{AllocError, Global};
use tg_term::{Node, Term};
use tg_theory::Theory;
use tg_types::Ty;

/// Whether so many constructors stand above a term of a datatype, in a term of the type.
#[cycle(chains)]
#[tactic(auto, using(crate::proofs::ChainLaws::chains))]
fn has_chain(alloc: Global, th: &Theory, t: &Term, count: u64, at: &Ty) -> Result<bool, AllocError>
    ensures { IfOk result (λ b. b ≡ has_chain th.now t.now count (ty at.now)) }
{
    let Some(fewer) = count.checked_sub(1) else {
        return Ok(is_data(at));
    };
    match t.node() {
        Node::Con(c, ts) => {
            let types = arguments_at(alloc, th, *c, at)?;
            some_has_chain(alloc, th, ts.as_slice(), fewer, types.as_slice())
        }
        _ => Ok(false),
    }
}

/// Whether so many constructors stand above a term of a datatype, in one of the terms of these types.
#[cycle(chains)]
#[tactic(auto, using(crate::proofs::ChainLaws::chains))]
pub(crate) fn some_has_chain(
    alloc: Global,
    th: &Theory,
    ts: &[Term],
    count: u64,
    types: &[Ty],
) -> Result<bool, AllocError>
    ensures { IfOk result (λ b. b ≡ some_has_chain th.now (trees ts.now) count (map ty types.now)) }
{
    for (i, t) in ts.iter().enumerate() {
        let Some(at) = types.get(i) else {
            return Ok(false);
        };
        if has_chain(alloc, th, t, count, at)? {
            return Ok(true);
        }
    }
    Ok(false)
}

fn is_data(t: &Ty) -> bool
    ensures { result ≡ is_data (ty t.now) }
{
    matches!(t, Ty::App(_, _))
}
