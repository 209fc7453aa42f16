//! The draft of a line, by its rule and the number of its premises.
ghost use Rattle.std.specs.Prelude.{◌≡◌, ◌≤◌, IfOk, [], ◌∷◌, length, map};
ghost use Rattle.tg_kernel.specs.Drafts.{Drafts};
ghost use Rattle.tg_kernel.specs.Rules.{as_rule};
ghost use Rattle.tg_kernel.specs.Sequents.{sequent};

use crate::assumptions::{cut, grow, hyp, weak};
use crate::connectives::{absurd, and_i, and_l, and_r, imp_i, mp, split, thyp_e, thyp_i, truth};
use crate::data::{deep, exhaust};
use crate::drafts::Drafted;
use crate::quantifiers::{all_e, all_i, ex_e, ex_i};
use crate::rules::Rule;
use crate::sequents::Sequent;
use crate::terms::{compute, refl, replace, schema, sym, trans};
use std::alloc::Global;
use tg_theory::Theory;

/// What the rule makes of the premises.
pub(crate) fn draft(alloc: Global, th: &Theory, rule: &Rule, ps: &[Sequent]) -> Drafted
    ensures { IfOk result (Drafts th.now (as_rule rule.now) (map sequent ps.now)) }
{
    match ps {
        [] => of_none(alloc, th, rule, ps),
        [p] => of_one(alloc, th, rule, p, ps),
        [p, q] => of_two(alloc, th, rule, p, q, ps),
        _ => of_more(alloc, th, rule, ps),
    }
}

fn of_none(alloc: Global, th: &Theory, rule: &Rule, ps: &[Sequent]) -> Drafted
    requires { ps.now ≡ [] }
    ensures { IfOk result (Drafts th.now (as_rule rule.now) []) }
{
    match rule {
        Rule::Hyp(vars, f) => hyp(alloc, vars, f),
        Rule::Truth(vars) => truth(alloc, vars),
        Rule::Refl(vars, t) => refl(alloc, vars, t),
        Rule::Schema(vars, row, t) => schema(alloc, th, vars, *row, t),
        Rule::Exhaust(n) => exhaust(alloc, th, *n, ps),
        Rule::Deep(vars, k, ts) => deep(alloc, th, vars, *k, ts),
        Rule::Compute(vars, t) => compute(alloc, th, vars, t),
        _ => Ok(None),
    }
}

fn of_one(alloc: Global, th: &Theory, rule: &Rule, p: &Sequent, ps: &[Sequent]) -> Drafted
    requires { ps.now ≡ p.now ∷ [] }
    ensures { IfOk result (Drafts th.now (as_rule rule.now) (sequent p.now ∷ [])) }
{
    match rule {
        Rule::Weak(f) => weak(alloc, f, p),
        Rule::Grow(more) => grow(alloc, more, p),
        Rule::AndL => and_l(p),
        Rule::AndR => and_r(p),
        Rule::ImpI(f) => imp_i(alloc, f, p),
        Rule::AllI => all_i(alloc, p),
        Rule::AllE(t) => all_e(alloc, t, p),
        Rule::ExI(f, t) => ex_i(alloc, f, t, p),
        Rule::ThypI => thyp_i(alloc, p),
        Rule::ThypE => thyp_e(p),
        Rule::Absurd(f) => absurd(alloc, f, p),
        Rule::Sym => sym(alloc, p),
        Rule::Exhaust(n) => exhaust(alloc, th, *n, ps),
        _ => Ok(None),
    }
}

fn of_two(
    alloc: Global,
    th: &Theory,
    rule: &Rule,
    p: &Sequent,
    q: &Sequent,
    ps: &[Sequent],
) -> Drafted
    requires { ps.now ≡ p.now ∷ q.now ∷ [] }
    ensures { IfOk result (Drafts th.now (as_rule rule.now) (sequent p.now ∷ sequent q.now ∷ [])) }
{
    match rule {
        Rule::Cut => cut(alloc, p, q),
        Rule::AndI => and_i(alloc, p, q),
        Rule::Mp => mp(alloc, p, q),
        Rule::ExE => ex_e(alloc, p, q),
        Rule::Split(t) => split(alloc, t, p, q),
        Rule::Trans => trans(alloc, p, q),
        Rule::Replace(f) => replace(alloc, f, p, q),
        Rule::Exhaust(n) => exhaust(alloc, th, *n, ps),
        _ => Ok(None),
    }
}

#[tactic(auto, using(crate::proofs::DraftingLaws::many))]
fn of_more(alloc: Global, th: &Theory, rule: &Rule, ps: &[Sequent]) -> Drafted
    requires { 3 ≤ length ps.now }
    ensures { IfOk result (Drafts th.now (as_rule rule.now) (map sequent ps.now)) }
{
    match rule {
        Rule::Exhaust(n) => exhaust(alloc, th, *n, ps),
        _ => Ok(None),
    }
}
