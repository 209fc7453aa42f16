//! Terms. No term is higher than 10,000, so neither is the stack of calls.
ghost use Rattle.std.specs.Prelude.{◌≡◌, ◌+◌, drop, OnOk, IfOk};
ghost use Rattle.tg_model.specs.Tree.{trees, choice, case, bind, op};
ghost use Rattle.tg_render.specs.Render.{written};
ghost use Rattle.tg_render.specs.Tokens.{mark, joined, continued, divided, application};
ghost use Rattle.tg_report.specs.Names.{branch_head};
ghost use Rattle.tg_report.specs.TermTexts.{term_tokens, terms_tokens, branches_tokens, binders, branch};
ghost use Rattle.tg_report.specs.Words.{comma};
ghost use Rattle.tg_term.specs.Operators.{operator};
ghost use Rattle.tg_term.specs.View.{arms};

use crate::names::{constructor_name, function_name, put_branch_head};
use crate::operators::{is_infix, sign};
use crate::tokens::{put_truth, put_variable};
use std::alloc::AllocError;
use tg_render::{put_number, put_token};
use tg_term::{Branch, Node, OpId, Term};
use tg_theory::Theory;
use tg_types::DataId;

/// Writes a term that stands within `level` binders. The variable of the n-th binder from the outside is written `!n`, and one
/// whose binder stands further out than the outermost `!0`. What the theory doesn't declare has an empty name.
pub fn put_term(out: &mut Vec<u8>, th: &Theory, t: &Term, level: u32) -> Result<(), AllocError>
    ensures { OnOk result (out.new.items ≡ written out.old.items (term_tokens th.now level t.now)) }
{
    put_at(out, th, t, u64::from(level))
}

/// Writes terms that stand within `level` binders, one behind another.
pub fn put_terms(out: &mut Vec<u8>, th: &Theory, ts: &[Term], level: u32) -> Result<(), AllocError>
    ensures { OnOk result (out.new.items ≡ written out.old.items (joined (terms_tokens th.now level (trees ts.now)))) }
{
    put_all(out, th, ts, u64::from(level))
}

#[cycle(terms)]
#[tactic(auto, using(crate::proofs::TermLaws::writing))]
pub(crate) fn put_at(out: &mut Vec<u8>, th: &Theory, t: &Term, level: u64) -> Result<(), AllocError>
    ensures { OnOk result (out.new.items ≡ written out.old.items (term_tokens th.now level t.now)) }
{
    match t.node() {
        Node::Bound(k) => put_variable(out, b"!", level.saturating_sub(u64::from(*k))),
        Node::Free(n) => put_variable(out, b"?", u64::from(*n)),
        Node::Lit(n) => put_number(out, *n),
        Node::Truth(b) => put_truth(out, *b),
        Node::Con(c, ts) => put_use(out, th, constructor_name(th, *c), ts.as_slice(), level),
        Node::Call(f, ts) => put_use(out, th, function_name(th, *f), ts.as_slice(), level),
        Node::Put(ts) => put_use(out, th, th.program().name.bytes(), ts.as_slice(), level),
        Node::If(ts) => put_choice(out, th, ts.as_slice(), level),
        Node::Case(d, t, bs) => put_case(out, th, *d, t, bs.as_slice(), level),
        Node::Let(t, body) => put_let(out, th, t, body, level),
        Node::Op(o, ts) => put_operation(out, th, *o, ts.as_slice(), level),
    }
}

/// Writes a name, or another head, at its arguments.
#[cycle(terms)]
#[tactic(auto, using(crate::proofs::TermLaws::writing))]
fn put_use(
    out: &mut Vec<u8>,
    th: &Theory,
    head: &[u8],
    ts: &[Term],
    level: u64,
) -> Result<(), AllocError>
    ensures { OnOk result ((kind : _) → out.new.items ≡ written out.old.items (application (mark kind head.now) (terms_tokens th.now level (trees ts.now)))) }
{
    if ts.is_empty() {
        return put_token(out, head);
    }
    put_token(out, b"(")?;
    put_token(out, head)?;
    put_all(out, th, ts, level)?;
    put_token(out, b")")
}

#[cycle(terms)]
#[tactic(auto, using(crate::proofs::TermLaws::writing))]
pub(crate) fn put_all(
    out: &mut Vec<u8>,
    th: &Theory,
    ts: &[Term],
    level: u64,
) -> Result<(), AllocError>
    ensures { OnOk result (out.new.items ≡ written out.old.items (joined (terms_tokens th.now level (trees ts.now)))) }
{
    for t in ts {
        put_at(out, th, t, level)?;
    }
    Ok(())
}

/// Writes an `if`.
#[cycle(terms)]
#[tactic(auto, using(crate::proofs::TermLaws::writing))]
fn put_choice(out: &mut Vec<u8>, th: &Theory, ts: &[Term], level: u64) -> Result<(), AllocError>
    ensures { OnOk result (out.new.items ≡ written out.old.items (term_tokens th.now level (choice (trees ts.now)))) }
{
    if ts.len() != 3 {
        return put_use(out, th, b"if", ts, level);
    }
    put_token(out, b"(")?;
    put_token(out, b"if")?;
    put_at(out, th, &ts[0], level)?;
    put_token(out, b"then")?;
    put_at(out, th, &ts[1], level)?;
    put_token(out, b"else")?;
    put_at(out, th, &ts[2], level)?;
    put_token(out, b")")
}

/// Writes an operator at its operands.
#[cycle(terms)]
#[tactic(auto, using(crate::proofs::TermLaws::writing))]
fn put_operation(
    out: &mut Vec<u8>,
    th: &Theory,
    o: OpId,
    ts: &[Term],
    level: u64,
) -> Result<(), AllocError>
    ensures { OnOk result (out.new.items ≡ written out.old.items (term_tokens th.now level (op (operator o) (trees ts.now)))) }
{
    let sign = sign(o);
    if !is_infix(o) {
        return put_use(out, th, sign, ts, level);
    }
    if ts.len() != 2 {
        return put_use(out, th, sign, ts, level);
    }
    put_token(out, b"(")?;
    put_at(out, th, &ts[0], level)?;
    put_token(out, sign)?;
    put_at(out, th, &ts[1], level)?;
    put_token(out, b")")
}

/// Writes a `let`.
#[cycle(terms)]
#[tactic(auto, using(crate::proofs::TermLaws::writing))]
fn put_let(
    out: &mut Vec<u8>,
    th: &Theory,
    t: &Term,
    body: &Term,
    level: u64,
) -> Result<(), AllocError>
    ensures { OnOk result (out.new.items ≡ written out.old.items (term_tokens th.now level (bind t.now body.now))) }
{
    let inner = within(level, 1)?;
    put_token(out, b"(")?;
    put_token(out, b"let")?;
    put_variable(out, b"!", inner)?;
    put_token(out, b"=")?;
    put_at(out, th, t, level)?;
    put_token(out, b"in")?;
    put_at(out, th, body, inner)?;
    put_token(out, b")")
}

/// Writes a `case`.
#[cycle(terms)]
#[tactic(auto, using(crate::proofs::TermLaws::writing))]
fn put_case(
    out: &mut Vec<u8>,
    th: &Theory,
    d: DataId,
    t: &Term,
    bs: &[Branch],
    level: u64,
) -> Result<(), AllocError>
    ensures { OnOk result (out.new.items ≡ written out.old.items (term_tokens th.now level (case d t.now (arms bs.now)))) }
{
    put_token(out, b"(")?;
    put_token(out, b"case")?;
    put_at(out, th, t, level)?;
    put_token(out, b"of")?;
    put_token(out, b"{")?;
    put_branches(out, th, d, bs, level)?;
    put_token(out, b"}")?;
    put_token(out, b")")
}

/// Writes the branches of a `case`, with a comma between two.
#[cycle(terms)]
#[tactic(auto, using(crate::proofs::TermLaws::writing))]
fn put_branches(
    out: &mut Vec<u8>,
    th: &Theory,
    d: DataId,
    bs: &[Branch],
    level: u64,
) -> Result<(), AllocError>
    ensures { OnOk result (out.new.items ≡ written out.old.items (divided comma (branches_tokens th.now level d 0 (arms bs.now)))) }
{
    if bs.is_empty() {
        return Ok(());
    }
    put_branch(out, th, d, 0, &bs[0], level)?;
    put_more_branches(out, th, d, bs, level)
}

/// Writes the branches behind the first, with a comma before each.
#[cycle(terms)]
#[tactic(auto, using(crate::proofs::TermLaws::writing))]
fn put_more_branches(
    out: &mut Vec<u8>,
    th: &Theory,
    d: DataId,
    bs: &[Branch],
    level: u64,
) -> Result<(), AllocError>
    ensures { OnOk result (out.new.items ≡ written out.old.items (continued comma (branches_tokens th.now level d 1 (arms (drop 1 bs.now))))) }
{
    for at in 1..bs.len() {
        put_token(out, b",")?;
        put_branch(out, th, d, at, &bs[at], level)?;
    }
    Ok(())
}

/// Writes the branch at a place, from 0.
#[cycle(terms)]
#[tactic(auto, using(crate::proofs::TermLaws::writing))]
fn put_branch(
    out: &mut Vec<u8>,
    th: &Theory,
    d: DataId,
    at: usize,
    b: &Branch,
    level: u64,
) -> Result<(), AllocError>
    ensures { OnOk result (out.new.items
        ≡ written out.old.items (branch (branch_head th.now d at) (binders level b.now.vars) (term_tokens th.now (level + b.now.vars) b.now.body))) }
{
    let inner = within(level, b.vars)?;
    put_branch_head(out, th, d, at)?;
    put_binders(out, level, b.vars)?;
    put_token(out, b"=>")?;
    put_at(out, th, &b.body, inner)
}

/// Writes the variables that a branch binds.
#[tactic(auto, using(crate::proofs::TermLaws::counting))]
fn put_binders(out: &mut Vec<u8>, level: u64, count: u32) -> Result<(), AllocError>
    ensures { OnOk result (out.new.items ≡ written out.old.items (binders level count)) }
{
    for at in 0..count {
        let variable = within(level, at)?;
        put_variable(out, b"!", within(variable, 1)?)?;
    }
    Ok(())
}

/// The level within some binders more. It is far below 2^64 in every term, since none is higher than 10,000, and want of memory
/// where it isn't.
pub(crate) fn within(level: u64, binders: u32) -> Result<u64, AllocError>
    ensures { IfOk result (λ inner. inner ≡ level + binders) }
{
    level.checked_add(u64::from(binders)).ok_or(AllocError)
}
