//! The rules on datatypes.
ghost use Rattle.std.specs.Prelude.{◌≡◌, IfOk, [], map, option_map};
ghost use Rattle.tg_calculus.specs.Draft.{as_data, before_first, exhausts};
ghost use Rattle.tg_calculus.specs.Rule as calculus;
ghost use Rattle.tg_kernel.specs.Drafts.{Drafts, made};
ghost use Rattle.tg_kernel.specs.Sequents.{sequent};
ghost use Rattle.tg_model.specs.Theory.{numbered};
ghost use Rattle.tg_model.specs.Tree.{trees};
ghost use Rattle.tg_rows.specs.Parts.{and_then};
ghost use Rattle.tg_types.specs.Types.{ty, types};

use crate::cases::{all_fit, collected};
use crate::chains::some_has_chain;
use crate::constructors::{cases_of, first_constructor, item};
use crate::contexts::Context;
use crate::drafts::{Drafted, Need, concluded, with_needs};
use crate::hypotheses::Hypotheses;
use crate::sequents::Sequent;
use sqlite_items::Items;
use std::alloc::{AllocError, Global};
use tg_term::{ConId, Formula, FormulaNode, Term};
use tg_theory::Theory;
use tg_types::{DataId, Ty};

/// What follows however a variable of a datatype is made holds; a premise for each constructor.
#[tactic(auto, using(crate::proofs::DataLaws::exhausting))]
pub(crate) fn exhaust(alloc: Global, th: &Theory, n: u64, ps: &[Sequent]) -> Drafted
    ensures { IfOk result (Drafts th.now (calculus.exhaust n) (map sequent ps.now)) }
{
    let Some(p) = ps.first() else {
        return Ok(None);
    };
    let Some((d, us)) = datatype_of(&p.vars, n) else {
        return Ok(None);
    };
    let n = u32::try_from(n).map_err(|_| AllocError)?;
    let cases = cases_of(alloc, th, d, us)?;
    let first = first_constructor(th.declarations(), d)?;
    let draft = exhausted(alloc, n, first, cases.as_slice(), p, ps)?;
    Ok(draft)
}

/// The datatype of a variable, and its arguments.
#[tactic(auto, using(crate::proofs::DataLaws::looking))]
fn datatype_of(vars: &Context, n: u64) -> Option<(DataId, &[Ty])>
    ensures { option_map (λ p. (p.0, types p.1.now)) result ≡ and_then (numbered vars.now n) as_data }
{
    data_of(item(vars.types(), n)?)
}

fn data_of(t: &Ty) -> Option<(DataId, &[Ty])>
    ensures { option_map (λ p. (p.0, types p.1.now)) result ≡ as_data (ty t.now) }
{
    match t {
        Ty::App(d, us) => Some((*d, us.as_slice())),
        _ => None,
    }
}

fn exhausted(
    alloc: Global,
    n: u32,
    first: ConId,
    cases: &[Items<Ty>],
    p: &Sequent,
    ps: &[Sequent],
) -> Drafted
    ensures { IfOk result (λ o. made o ≡
        exhausts n first (map (map ty) cases.now) (before_first p.now.vars (map (map ty) cases.now)) p.now.goal (map sequent ps.now)) }
{
    let vars = before_first(alloc, &p.vars, cases)?;
    if n as usize > vars.len() || !all_fit(alloc, &vars, n, &p.goal, first, cases, ps)? {
        return Ok(None);
    }
    let hyps = collected(alloc, &vars, n, first, cases, ps)?;
    concluded(vars, hyps, p.goal.share()?)
}

/// The context without the new variables of the first case.
#[tactic(auto, using(crate::proofs::CaseLaws::counting))]
fn before_first(alloc: Global, vars: &Context, cases: &[Items<Ty>]) -> Result<Context, AllocError>
    ensures { IfOk result (λ c. c ≡ before_first vars.now (map (map ty) cases.now)) }
{
    match cases.first() {
        Some(new) => vars.shortened(alloc, new.len()),
        None => vars.share(),
    }
}

/// Under so many constructors stands a term of a datatype: so the inputs are deeper.
#[tactic(auto, using(crate::proofs::DataLaws::deeper))]
pub(crate) fn deep(alloc: Global, th: &Theory, vars: &Context, k: u64, ts: &Items<Term>) -> Drafted
    ensures { IfOk result (Drafts th.now (calculus.deep vars.now k (trees ts.now)) []) }
{
    let inputs = th.program().inputs.as_slice();
    if k == 0 || !some_has_chain(alloc, th, ts.as_slice(), k, inputs)? {
        return Ok(None);
    }
    let goal = Formula::new(alloc, FormulaNode::Deep(k, shared(alloc, ts)?))?;
    let closed = Need::Closed(vars.share()?);
    let formed = Need::Formed(vars.share()?, goal.share()?);
    let draft = with_needs(
        closed,
        formed,
        vars.share()?,
        Hypotheses::none(alloc)?,
        goal,
    )?;
    Ok(draft)
}

fn shared(alloc: Global, ts: &Items<Term>) -> Result<Items<Term>, AllocError>
    ensures { IfOk result (λ us. us ≡ ts.now) }
{
    let mut out = Items::new(alloc);
    for t in ts.as_slice() {
        out.push(t.share()?)?;
    }
    Ok(out)
}
