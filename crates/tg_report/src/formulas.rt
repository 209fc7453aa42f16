//! Formulas.
ghost use Rattle.std.specs.Prelude.{◌≡◌, ◌+◌, ◌∷◌, ◌++◌, OnOk};
ghost use Rattle.tg_model.specs.Formula.{atom, thyp, tested, deep};
ghost use Rattle.tg_model.specs.Tree.{trees};
ghost use Rattle.tg_render.specs.Render.{written};
ghost use Rattle.tg_render.specs.Tokens.{mark, enclosed};
ghost use Rattle.tg_report.specs.FormulaTexts.{formula_tokens, quantified};
ghost use Rattle.tg_report.specs.TypeTexts.{ty_tokens};
ghost use Rattle.tg_types.specs.Types.{ty};

use crate::terms::{put_all, put_at, within};
use crate::types::put_ty;
use std::alloc::AllocError;
use tg_render::{put_number, put_token};
use tg_term::{Formula, FormulaNode, Term};
use tg_theory::Theory;
use tg_types::Ty;

/// Writes a formula. Its quantifiers' variables, and those that its terms bind, are numbered from the outside.
pub fn put_formula(out: &mut Vec<u8>, th: &Theory, f: &Formula) -> Result<(), AllocError>
    ensures { OnOk result (out.new.items ≡ written out.old.items (formula_tokens th.now 0 f.now)) }
{
    put_formula_at(out, th, f, 0)
}

#[cycle(formulas)]
#[tactic(auto, using(crate::proofs::FormulaLaws::writing))]
fn put_formula_at(out: &mut Vec<u8>, th: &Theory, f: &Formula, level: u64) -> Result<(), AllocError>
    ensures { OnOk result (out.new.items ≡ written out.old.items (formula_tokens th.now level f.now)) }
{
    match f.node() {
        FormulaNode::Atom(t) => put_atom(out, th, t, level),
        FormulaNode::And(f, g) => put_connected(out, th, f, b"&", g, level),
        FormulaNode::Imp(f, g) => put_connected(out, th, f, b"-->", g, level),
        FormulaNode::All(t, f) => put_quantified(out, th, b"ALL", t, f, level),
        FormulaNode::Ex(t, f) => put_quantified(out, th, b"EX", t, f, level),
        FormulaNode::Thyp(f) => put_marked(out, th, f, level),
        FormulaNode::Tested(ts) => put_tested(out, th, ts.as_slice(), level),
        FormulaNode::Deep(k, ts) => put_deep(out, th, *k, ts.as_slice(), level),
    }
}

/// Writes two formulas with a sign between them.
#[cycle(formulas)]
#[tactic(auto, using(crate::proofs::FormulaLaws::writing))]
fn put_connected(
    out: &mut Vec<u8>,
    th: &Theory,
    f: &Formula,
    sign: &[u8],
    g: &Formula,
    level: u64,
) -> Result<(), AllocError>
    ensures { OnOk result ((kind : _) → out.new.items
        ≡ written out.old.items (enclosed (formula_tokens th.now level f.now ++ mark kind sign.now ∷ formula_tokens th.now level g.now))) }
{
    put_token(out, b"(")?;
    put_formula_at(out, th, f, level)?;
    put_token(out, sign)?;
    put_formula_at(out, th, g, level)?;
    put_token(out, b")")
}

/// Writes a formula with a quantifier.
#[cycle(formulas)]
#[tactic(auto, using(crate::proofs::FormulaLaws::writing))]
fn put_quantified(
    out: &mut Vec<u8>,
    th: &Theory,
    quantifier: &[u8],
    t: &Ty,
    f: &Formula,
    level: u64,
) -> Result<(), AllocError>
    ensures { OnOk result ((kind : _) → out.new.items
        ≡ written out.old.items (quantified (mark kind quantifier.now) (ty_tokens th.now (ty t.now)) (formula_tokens th.now (level + 1) f.now))) }
{
    let inner = within(level, 1)?;
    put_token(out, b"(")?;
    put_token(out, quantifier)?;
    put_ty(out, th, t)?;
    put_token(out, b".")?;
    put_formula_at(out, th, f, inner)?;
    put_token(out, b")")
}

/// Writes a formula with the mark of a hypothesis.
#[cycle(formulas)]
#[tactic(auto, using(crate::proofs::FormulaLaws::writing))]
fn put_marked(out: &mut Vec<u8>, th: &Theory, f: &Formula, level: u64) -> Result<(), AllocError>
    ensures { OnOk result (out.new.items ≡ written out.old.items (formula_tokens th.now level (thyp f.now))) }
{
    put_token(out, b"(")?;
    put_token(out, b"THYP")?;
    put_formula_at(out, th, f, level)?;
    put_token(out, b")")
}

/// Writes that a term is true.
#[tactic(auto, using(crate::proofs::FormulaLaws::writing))]
fn put_atom(out: &mut Vec<u8>, th: &Theory, t: &Term, level: u64) -> Result<(), AllocError>
    ensures { OnOk result (out.new.items ≡ written out.old.items (formula_tokens th.now level (atom t.now))) }
{
    put_token(out, b"[")?;
    put_at(out, th, t, level)?;
    put_token(out, b"]")
}

/// Writes that inputs are tested.
#[tactic(auto, using(crate::proofs::FormulaLaws::writing))]
fn put_tested(out: &mut Vec<u8>, th: &Theory, ts: &[Term], level: u64) -> Result<(), AllocError>
    ensures { OnOk result (out.new.items ≡ written out.old.items (formula_tokens th.now level (tested (trees ts.now)))) }
{
    put_token(out, b"(")?;
    put_token(out, b"tested")?;
    put_all(out, th, ts, level)?;
    put_token(out, b")")
}

/// Writes that some input is deep.
#[tactic(auto, using(crate::proofs::FormulaLaws::writing))]
fn put_deep(
    out: &mut Vec<u8>,
    th: &Theory,
    k: u64,
    ts: &[Term],
    level: u64,
) -> Result<(), AllocError>
    ensures { OnOk result (out.new.items ≡ written out.old.items (formula_tokens th.now level (deep k (trees ts.now)))) }
{
    put_token(out, b"(")?;
    put_token(out, b"deep")?;
    put_number(out, k)?;
    put_all(out, th, ts, level)?;
    put_token(out, b")")
}
