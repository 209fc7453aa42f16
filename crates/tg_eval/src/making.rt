//! Constructors made within the bound on nodes, and an argument taken out of a list.
ghost use Rattle.std.specs.Prelude.{◌≡◌, ℕ, IfOk, OnSome};
ghost use Rattle.tg_eval.specs.Evaluating.{outcome};
ghost use Rattle.tg_eval.specs.Limited.{small_enough};
ghost use Rattle.tg_model.specs.Denotation.{others};
ghost use Rattle.tg_model.specs.Theory.{numbered};
ghost use Rattle.tg_model.specs.Value.{made, values};

use crate::held::Held;
use std::alloc::{AllocError, Global};
use tg_term::ConId;

/// A constructor makes values of at most so many nodes.
const MOST_NODES: u64 = 100_000;

/// A constructor at its arguments, if it isn't too large.
#[tactic(auto, using(crate::proofs::StepLaws::sizes))]
pub(crate) fn made(alloc: Global, c: ConId, args: Vec<Held>) -> Result<Option<Held>, AllocError>
    ensures { IfOk result (λ o. (left : ℕ) → outcome o left ≡ small_enough (made c (values args.items)) left) }
{
    let v = Held::con(alloc, c, args)?;
    if v.nodes() > MOST_NODES {
        return Ok(None);
    }
    Ok(Some(v))
}

/// The argument at a place, from 1, taken out of the others.
#[tactic(auto, using(crate::proofs::StepLaws::places))]
pub(crate) fn taken(args: &mut Vec<Held>, place: u32) -> Option<Held>
    ensures value { result ≡ numbered args.old.items place }
    ensures others { OnSome result (args.new.items ≡ others args.old.items place) }
{
    let at = (place as usize).checked_sub(1)?;
    if at < args.len() {
        Some(args.remove(at))
    } else {
        None
    }
}
