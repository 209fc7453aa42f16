//! Whether a term has a type, and whether a formula is well formed.
ghost use Rattle.std.specs.Prelude.{◌≡◌, ◌↔◌, ◌∷◌, true, IfOk, OnOk, [], map, reverse};
ghost use Rattle.tg_model.specs.Theory.{IsClosed};
ghost use Rattle.tg_model.specs.TermTyping.{IsTyped, AllTyped, IsWellFormed};
ghost use Rattle.tg_model.specs.Tree.{trees};
ghost use Rattle.tg_model.specs.Types.{bool};
ghost use Rattle.tg_accept.specs.Declared.{theory};
ghost use Rattle.tg_accept.specs.Kept.{IsKept};
ghost use Rattle.tg_shared_types.specs.Growth.{IsDeclared, AreDeclared};
ghost use Rattle.tg_types.specs.Types.{ty, types};
ghost use Rattle.tg_theory.specs.Typed.{has_typing, is_declared, are_declared, is_closed, are_closed, IsTypedAt, IsFormedIn};

use crate::embedding::embed;
use crate::theories::Theory;
use std::alloc::{AllocError, Global};
use tg_declarations::Declarations;
use tg_term::{Formula, FormulaNode, Term};
use tg_types::{Ty, copy};
use tg_typing::{Typings, count_typings_at};

impl Theory {
    /// Whether the term has the type, outside all binders, where `vars` are the types of the free variables.
    /// It hasn't where an open type stands in one that is given.
    pub fn typed(&self, alloc: Global, vars: &[Ty], t: &Term, at: &Ty) -> Result<bool, AllocError>
        ensures { IfOk result (λ yes. (yes ≡ true) ↔ IsTypedAt self.now vars.now t.now at.now) }
    {
        if !are_declared(vars) {
            return Ok(false);
        }
        if !is_declared(at) {
            return Ok(false);
        }
        let typed = is_typed(alloc, &self.declared, vars, &[], t, at)?;
        Ok(typed)
    }

    /// Whether the formula is well formed, where `vars` are the types of the free variables: each term is typed
    /// by itself, and the types of quantifiers are closed. It isn't where an open type stands in one that is
    /// given.
    pub fn well_formed(&self, alloc: Global, vars: &[Ty], f: &Formula) -> Result<bool, AllocError>
        ensures { IfOk result (λ yes. (yes ≡ true) ↔ IsFormedIn self.now vars.now f.now) }
    {
        if !are_declared(vars) {
            return Ok(false);
        }
        let mut locs = Vec::new(alloc);
        let formed = is_formed(alloc, &self.declared, vars, &mut locs, f)?;
        Ok(formed)
    }
}

/// Whether a term has a type, where `locs` are the types of the loose bound variables, the outermost first.
fn is_typed(
    alloc: Global,
    declared: &Declarations,
    vars: &[Ty],
    locs: &[Ty],
    t: &Term,
    at: &Ty,
) -> Result<bool, AllocError>
    requires kept { IsKept declared.now }
    requires vars { AreDeclared (types vars.now) }
    requires locs { AreDeclared (types locs.now) }
    requires at { IsDeclared (ty at.now) }
    ensures { IfOk result (λ yes. (yes ≡ true) ↔ IsTyped (theory [] declared.now) (map ty vars.now) (reverse (map ty locs.now)) t.now (ty at.now)) }
{
    let resolved = embed(alloc, declared, t)?;
    let typings = count_typings_at(alloc, declared, None, vars, locs, &resolved, at)?;
    Ok(has_typing(typings))
}

fn has_typing(typings: Typings) -> bool
    ensures { result ≡ has_typing typings }
{
    match typings {
        Typings::None => false,
        Typings::One => true,
        Typings::Several => true,
    }
}

/// Whether a term is a truth value.
fn is_true_typed(
    alloc: Global,
    declared: &Declarations,
    vars: &[Ty],
    locs: &[Ty],
    t: &Term,
) -> Result<bool, AllocError>
    requires kept { IsKept declared.now }
    requires vars { AreDeclared (types vars.now) }
    requires locs { AreDeclared (types locs.now) }
    ensures { IfOk result (λ yes. (yes ≡ true) ↔ IsTyped (theory [] declared.now) (map ty vars.now) (reverse (map ty locs.now)) t.now bool) }
{
    let typed = is_typed(alloc, declared, vars, locs, t, &Ty::Bool)?;
    Ok(typed)
}

/// Whether a formula is well formed. `locs` has the types of the quantified variables, the outermost first, and
/// is as before afterwards.
#[cycle(formed)]
fn is_formed(
    alloc: Global,
    declared: &Declarations,
    vars: &[Ty],
    locs: &mut Vec<Ty>,
    f: &Formula,
) -> Result<bool, AllocError>
    requires kept { IsKept declared.now }
    requires vars { AreDeclared (types vars.now) }
    requires locs { AreDeclared (types locs.old.items) }
    ensures formed { IfOk result (λ yes. (yes ≡ true) ↔ IsWellFormed (theory [] declared.now) (map ty vars.now) (reverse (map ty locs.old.items)) f.now) }
    ensures restored { OnOk result (locs.new.items ≡ locs.old.items) }
{
    match f.node() {
        FormulaNode::Atom(t) => is_true_typed(alloc, declared, vars, locs.as_slice(), t),
        FormulaNode::And(f, g) => are_both_formed(alloc, declared, vars, locs, f, g),
        FormulaNode::Imp(f, g) => are_both_formed(alloc, declared, vars, locs, f, g),
        FormulaNode::All(t, f) => is_quantified_formed(alloc, declared, vars, locs, t, f),
        FormulaNode::Ex(t, f) => is_quantified_formed(alloc, declared, vars, locs, t, f),
        FormulaNode::Thyp(f) => is_formed(alloc, declared, vars, locs, f),
        FormulaNode::Tested(ts) => {
            are_inputs_typed(alloc, declared, vars, locs.as_slice(), ts.as_slice())
        }
        FormulaNode::Deep(_, ts) => {
            are_inputs_typed(alloc, declared, vars, locs.as_slice(), ts.as_slice())
        }
    }
}

#[cycle(formed)]
fn are_both_formed(
    alloc: Global,
    declared: &Declarations,
    vars: &[Ty],
    locs: &mut Vec<Ty>,
    f: &Formula,
    g: &Formula,
) -> Result<bool, AllocError>
    requires kept { IsKept declared.now }
    requires vars { AreDeclared (types vars.now) }
    requires locs { AreDeclared (types locs.old.items) }
    ensures formed { IfOk result (λ yes. (yes ≡ true) ↔
        (IsWellFormed (theory [] declared.now) (map ty vars.now) (reverse (map ty locs.old.items)) f.now
        × IsWellFormed (theory [] declared.now) (map ty vars.now) (reverse (map ty locs.old.items)) g.now)) }
    ensures restored { OnOk result (locs.new.items ≡ locs.old.items) }
{
    if !is_formed(alloc, declared, vars, locs, f)? {
        return Ok(false);
    }
    is_formed(alloc, declared, vars, locs, g)
}

// A formula in which a variable of a type is bound.
#[cycle(formed)]
#[tactic(auto, using(crate::proofs::FormedLaws::forming))]
fn is_quantified_formed(
    alloc: Global,
    declared: &Declarations,
    vars: &[Ty],
    locs: &mut Vec<Ty>,
    t: &Ty,
    f: &Formula,
) -> Result<bool, AllocError>
    requires kept { IsKept declared.now }
    requires vars { AreDeclared (types vars.now) }
    requires locs { AreDeclared (types locs.old.items) }
    ensures formed { IfOk result (λ yes. (yes ≡ true) ↔
        (IsClosed (theory [] declared.now) (ty t.now)
        × IsWellFormed (theory [] declared.now) (map ty vars.now) (ty t.now ∷ reverse (map ty locs.old.items)) f.now)) }
    ensures restored { OnOk result (locs.new.items ≡ locs.old.items) }
{
    if !is_closed(declared, t) {
        return Ok(false);
    }
    let outer = locs.len();
    locs.push(copy(alloc, t)?)?;
    let formed = is_formed(alloc, declared, vars, locs, f)?;
    locs.truncate(outer);
    Ok(formed)
}

/// Whether the terms have the types of the program's inputs.
#[tactic(auto, using(crate::proofs::FormedLaws::inputs))]
fn are_inputs_typed(
    alloc: Global,
    declared: &Declarations,
    vars: &[Ty],
    locs: &[Ty],
    ts: &[Term],
) -> Result<bool, AllocError>
    requires kept { IsKept declared.now }
    requires vars { AreDeclared (types vars.now) }
    requires locs { AreDeclared (types locs.now) }
    ensures { IfOk result (λ yes. (yes ≡ true) ↔
        AllTyped (theory [] declared.now) (map ty vars.now) (reverse (map ty locs.now)) (trees ts.now) (theory [] declared.now).program.inputs) }
{
    match declared.program() {
        Some(def) => are_typed(alloc, declared, vars, locs, ts, def.inputs.as_slice()),
        None => are_typed(alloc, declared, vars, locs, ts, &[]),
    }
}

fn are_typed(
    alloc: Global,
    declared: &Declarations,
    vars: &[Ty],
    locs: &[Ty],
    ts: &[Term],
    at: &[Ty],
) -> Result<bool, AllocError>
    requires kept { IsKept declared.now }
    requires vars { AreDeclared (types vars.now) }
    requires locs { AreDeclared (types locs.now) }
    requires at { AreDeclared (types at.now) }
    ensures { IfOk result (λ yes. (yes ≡ true) ↔
        AllTyped (theory [] declared.now) (map ty vars.now) (reverse (map ty locs.now)) (trees ts.now) (map ty at.now)) }
{
    if ts.len() != at.len() {
        return Ok(false);
    }
    for (i, t) in ts.iter().enumerate() {
        if !is_typed(alloc, declared, vars, locs, t, &at[i])? {
            return Ok(false);
        }
    }
    Ok(true)
}

/// Whether no open type stands in the type.
#[cycle(open)]
fn is_declared(t: &Ty) -> bool
    ensures { result ≡ is_declared (ty t.now) }
{
    match t {
        Ty::Nat | Ty::Bool | Ty::Param(_) => true,
        Ty::Meta(_) => false,
        Ty::App(_, ts) => are_declared(ts.as_slice()),
    }
}

/// Whether no open type stands in the types.
#[cycle(open)]
pub fn are_declared(ts: &[Ty]) -> bool
    ensures { result ≡ are_declared (types ts.now) }
{
    for t in ts {
        if !is_declared(t) {
            return false;
        }
    }
    true
}

/// Whether the type is nat, bool, or a declared datatype at as many closed types as it has parameters.
#[cycle(closed)]
#[tactic(auto, using(crate::proofs::ClosedTypes::closing))]
pub fn is_closed(declared: &Declarations, t: &Ty) -> bool
    ensures { result ≡ is_closed (theory [] declared.now) (ty t.now) }
{
    match t {
        Ty::Nat | Ty::Bool => true,
        Ty::Param(_) | Ty::Meta(_) => false,
        Ty::App(d, ts) => match declared.data_def(*d) {
            Some(def) => { ts.len() == def.params as usize && are_closed(declared, ts.as_slice()) }
            None => false,
        },
    }
}

#[cycle(closed)]
fn are_closed(declared: &Declarations, ts: &[Ty]) -> bool
    ensures { result ≡ are_closed (theory [] declared.now) (types ts.now) }
{
    for t in ts {
        if !is_closed(declared, t) {
            return false;
        }
    }
    true
}
