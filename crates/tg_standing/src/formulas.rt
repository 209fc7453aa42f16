//! The formulas that texts of certificates stand for. The walk needs the stack of three calls a level.
ghost use Rattle.std.specs.Prelude.{◌≡◌, ◌∷◌, IfOk, map, option_map};
ghost use Rattle.tg_accept.specs.Raw.{raw_tested, raw_deep};
ghost use Rattle.tg_accept.specs.Standing.{declared_in, IsAnswer, IsFormulaAt, IsTypeOf};
ghost use Rattle.tg_infer.specs.View.{raw_terms, raw_type};
ghost use Rattle.tg_infer.specs.Words.{AreWordsOf};
ghost use Rattle.tg_term.specs.Formulas.{formula};
ghost use Rattle.tg_types.specs.Types.{ty};
ghost use Rattle.tg_standing.specs.Formulas.{raw_formula, IsFormulaIn, AreBoth, IsQuantified, typed_formula};
ghost use Rattle.tg_standing.specs.Places.{IsPlace};
ghost use Rattle.tg_standing.specs.Quantified.{IsUnder, Stands, types_under};

use crate::places::Place;
use crate::quantified::Under;
use std::alloc::{AllocError, Global};
use tg_grammar::{RawFormula, RawTerm, RawTy};
use tg_infer::{Scope, Variables, Words};
use tg_term::{Formula, FormulaNode};
use tg_theory::{Theory, are_declared};
use tg_types::Ty;

/// The formula that the text stands for, where `vars` are the types of the free variables; `None` exactly
/// where it stands for none: where one of its terms stands for none of its type, a type of a quantifier isn't
/// closed, or there aren't as many terms as inputs, and where an open type stands in one that is given.
#[tactic(auto, using(crate::proofs::FormulaLaws::answering))]
pub fn formula_of(
    alloc: Global,
    words: &Words,
    th: &Theory,
    vars: &[Ty],
    raw: &RawFormula,
) -> Result<Option<Formula>, AllocError>
    requires { AreWordsOf words.now (declared_in th.now) }
    ensures { IfOk result (λ found. IsAnswer (IsFormulaIn th.now vars.now (raw_formula raw.now)) found) }
{
    if !are_declared(vars) {
        return Ok(None);
    }
    let variables = Variables::new(alloc);
    let scope = Scope::outside(alloc, th.declarations(), words, &variables, true);
    let place = Place {
        th,
        scope: &scope,
        vars,
    };
    let mut under = Under::new(alloc);
    let f = whole(&place, &mut under, raw)?;
    Ok(f)
}

/// The formula that a text stands for under quantifiers.
#[cycle(formula)]
#[tactic(auto, using(crate::proofs::FormulaLaws::formulas))]
fn whole(
    place: &Place<'_>,
    under: &mut Under,
    raw: &RawFormula,
) -> Result<Option<Formula>, AllocError>
    requires place { IsPlace place.now }
    requires under { IsUnder under.old }
    ensures { IfOk result (λ found. Stands under.old under.new
        (IsFormulaAt place.now.th.now (map ty place.now.vars.now) (types_under under.old) (raw_formula raw.now)) found) }
{
    match node(place, under, raw)? {
        Some(node) => {
            let f = Formula::new(place.scope.alloc, node)?;
            Ok(Some(f))
        }
        None => Ok(None),
    }
}

#[cycle(formula)]
#[tactic(auto, using(crate::proofs::FormulaLaws::formulas))]
fn node(
    place: &Place<'_>,
    under: &mut Under,
    raw: &RawFormula,
) -> Result<Option<FormulaNode>, AllocError>
    requires place { IsPlace place.now }
    requires under { IsUnder under.old }
    ensures { IfOk result (λ found. Stands under.old under.new
        (IsFormulaAt place.now.th.now (map ty place.now.vars.now) (types_under under.old) (raw_formula raw.now)) (option_map formula found)) }
{
    match raw {
        RawFormula::Atom(t) => match place.term_at(under, t, &Ty::Bool)? {
            Some(x) => Ok(Some(FormulaNode::Atom(x))),
            None => Ok(None),
        },
        RawFormula::And(f, g) => match both(place, under, f.get(), g.get())? {
            Some((x, y)) => Ok(Some(FormulaNode::And(x, y))),
            None => Ok(None),
        },
        RawFormula::Imp(f, g) => match both(place, under, f.get(), g.get())? {
            Some((x, y)) => Ok(Some(FormulaNode::Imp(x, y))),
            None => Ok(None),
        },
        RawFormula::All(t, f) => match quantified(place, under, t, f.get())? {
            Some((u, x)) => Ok(Some(FormulaNode::All(u, x))),
            None => Ok(None),
        },
        RawFormula::Ex(t, f) => match quantified(place, under, t, f.get())? {
            Some((u, x)) => Ok(Some(FormulaNode::Ex(u, x))),
            None => Ok(None),
        },
        RawFormula::Thyp(f) => match whole(place, under, f.get())? {
            Some(x) => Ok(Some(FormulaNode::Thyp(x))),
            None => Ok(None),
        },
        RawFormula::Tested(ts) => tested(place, under, ts.as_slice()),
        RawFormula::Deep(k, ts) => deep(place, under, *k, ts.as_slice()),
    }
}

/// That the program passes its test at the inputs that the terms stand for.
#[tactic(auto, using(crate::proofs::FormulaLaws::formulas))]
fn tested(
    place: &Place<'_>,
    under: &mut Under,
    ts: &[RawTerm],
) -> Result<Option<FormulaNode>, AllocError>
    requires place { IsPlace place.now }
    requires under { IsUnder under.old }
    ensures { IfOk result (λ found. Stands under.old under.new
        (IsFormulaAt place.now.th.now (map ty place.now.vars.now) (types_under under.old) (raw_tested (raw_terms ts.now))) (option_map formula found)) }
{
    match place.inputs(under, ts)? {
        Some(xs) => Ok(Some(FormulaNode::Tested(xs))),
        None => Ok(None),
    }
}

/// That the inputs that the terms stand for are deep for the depth.
#[tactic(auto, using(crate::proofs::FormulaLaws::formulas))]
fn deep(
    place: &Place<'_>,
    under: &mut Under,
    k: u64,
    ts: &[RawTerm],
) -> Result<Option<FormulaNode>, AllocError>
    requires place { IsPlace place.now }
    requires under { IsUnder under.old }
    ensures { IfOk result (λ found. Stands under.old under.new
        (IsFormulaAt place.now.th.now (map ty place.now.vars.now) (types_under under.old) (raw_deep k (raw_terms ts.now))) (option_map formula found)) }
{
    match place.inputs(under, ts)? {
        Some(xs) => Ok(Some(FormulaNode::Deep(k, xs))),
        None => Ok(None),
    }
}

#[cycle(formula)]
#[tactic(auto, using(crate::proofs::FormulaLaws::pairs))]
fn both(
    place: &Place<'_>,
    under: &mut Under,
    f: &RawFormula,
    g: &RawFormula,
) -> Result<Option<(Formula, Formula)>, AllocError>
    requires place { IsPlace place.now }
    requires under { IsUnder under.old }
    ensures { IfOk result (λ found. Stands under.old under.new
        (AreBoth place.now.th.now (map ty place.now.vars.now) (types_under under.old) (raw_formula f.now) (raw_formula g.now)) found) }
{
    let Some(x) = whole(place, under, f)? else {
        return Ok(None);
    };
    match whole(place, under, g)? {
        Some(y) => Ok(Some((x, y))),
        None => Ok(None),
    }
}

/// The type of a quantifier, and the formula under it.
#[cycle(formula)]
#[tactic(auto, using(crate::proofs::FormulaLaws::quantifiers))]
fn quantified(
    place: &Place<'_>,
    under: &mut Under,
    t: &RawTy,
    f: &RawFormula,
) -> Result<Option<(Ty, Formula)>, AllocError>
    requires place { IsPlace place.now }
    requires under { IsUnder under.old }
    ensures { IfOk result (λ found. Stands under.old under.new
        (IsQuantified place.now.th.now (map ty place.now.vars.now) (types_under under.old) (raw_type t.now) (raw_formula f.now)) (option_map typed_formula found)) }
{
    let Some(u) = place.closed_type(t)? else {
        return Ok(None);
    };
    let outside = under.types.len();
    under.enter(place.scope.alloc, &u)?;
    let Some(x) = whole(place, under, f)? else {
        return Ok(None);
    };
    under.leave(outside)?;
    Ok(Some((u, x)))
}
