//! The 48 rewrite schemas: what a row makes of a term at its root, and the first row that applies. The rows are those
//! of `tg_rows`, and so are the laws.
#![tactic(auto)]

mod building;
mod calls;
mod equalities;
mod found;
mod numbers;
mod opening;
mod operators;
mod parts;
mod span;
mod table;
mod truths;

ghost use Rattle.std.specs.Prelude.{◌≡◌, IfOk, option_map};
ghost use Rattle.tg_rows.specs.Rows.{row, first};
ghost use Rattle.tg_schema.specs.Steps.{IsStep};

use crate::building::build;
use crate::span::span;
use crate::table::find;
use std::alloc::{AllocError, Global};
use tg_term::Term;
use tg_theory::Theory;

/// The number of a rewrite schema, from 1: its place in the order in which they are tried.
pub type SchemaId = u32;

/// What the schema of a number makes of a term at its root, or `None` exactly where it doesn't apply there; there is no
/// schema 0 and none above 48. What is made has the value of the term and its types. Memory is wanting too where it
/// would be higher than a term may be.
#[tactic(auto, using(crate::proofs::StepLaws::steps))]
pub fn step(
    alloc: Global,
    th: &Theory,
    schema: SchemaId,
    t: &Term,
) -> Result<Option<Term>, AllocError>
    ensures { IfOk result (λ o. IsStep th.now schema t.now o) }
{
    th.accepted();
    match find(th.declarations(), schema, t) {
        Some(found) => Ok(Some(build(alloc, &found)?)),
        None => Ok(None),
    }
}

/// The number of the first schema that applies to a term at its root, or `None` exactly where none does. It takes no
/// memory.
pub fn first(th: &Theory, t: &Term) -> Option<SchemaId>
    ensures { result ≡ option_map (λ p. p.0) (first th.now t.now) }
{
    let declared = th.declarations();
    let (low, high) = span(t);
    for number in low..high {
        if find(declared, number, t).is_some() {
            return Some(number);
        }
    }
    None
}
