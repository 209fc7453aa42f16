//! How many typings a term has.
ghost use Rattle.std.specs.Prelude.{◌≡◌, [], IfOk, option_map};
ghost use Rattle.tg_model.specs.Types.{tys};
ghost use Rattle.tg_model.specs.Accepted.{parameters_from};
ghost use Rattle.tg_types.specs.Types.{ty, types};
ghost use Rattle.tg_shared_types.specs.Growth.{IsDeclared, AreDeclared};
ghost use Rattle.tg_accept.specs.Declared.{theory};
ghost use Rattle.tg_declarations.specs.View.{function};
ghost use Rattle.tg_typing.specs.Contexts.{HasClosedTypes};
ghost use Rattle.tg_typing.specs.Nodes.{AllStand};
ghost use Rattle.tg_typing.specs.Answers.{Counts, IsTypingIn, IsTypingAt, Prepares, answer_of, own_parameters};
ghost use Rattle.tg_typing.specs.View.{resolved};

use crate::contexts::Context;
use crate::opening::{state, state_all};
use crate::resolved::Resolved;
use crate::walking::type_at;
use sqlite_items::Items;
use std::alloc::{AllocError, Global};
use tg_declarations::{Declarations, FunDef};
use tg_shared_types::{Node, Solutions, Table};
use tg_types::Ty;

/// How many typings a term has. A typing gives a type to each part and variable of a term, and the types
/// that each use of a constructor or a function is at.
#[derive(Clone, Copy, Debug, PartialEq, Eq)]
pub enum Typings {
    /// None.
    None,
    /// One and no other.
    One,
    /// Two that differ.
    Several,
}

/// How many typings a term has, where `vars` are the types of the free variables, and `own` is the function
/// that is being declared, if the term may call it.
pub fn count_typings(
    alloc: Global,
    declared: &Declarations,
    own: Option<&FunDef>,
    vars: &[Ty],
    t: &Resolved,
) -> Result<Typings, AllocError>
    requires closed { HasClosedTypes (theory [] declared.now) (option_map (λ def. function def.now) own) }
    requires vars { AreDeclared (types vars.now) }
    ensures { IfOk result (λ answer. Counts
        (IsTypingIn (theory [] declared.now) (option_map (λ def. function def.now) own.entry) vars.now (resolved t.now)) answer) }
{
    let mut table = Table::new(alloc);
    let context = prepare(alloc, &mut table, declared, own, vars)?;
    let expected = table.push(Node::Open)?;
    let mut locs = Vec::new(alloc);
    if !type_at(&context, &mut table, &mut locs, t, expected)? {
        return Ok(Typings::None);
    }
    Ok(answer(table.settle()?))
}

/// How many typings a term has at a type, where `locs` are the types of the loose bound variables, the
/// outermost first.
pub fn count_typings_at(
    alloc: Global,
    declared: &Declarations,
    own: Option<&FunDef>,
    vars: &[Ty],
    locs: &[Ty],
    t: &Resolved,
    at: &Ty,
) -> Result<Typings, AllocError>
    requires closed { HasClosedTypes (theory [] declared.now) (option_map (λ def. function def.now) own) }
    requires vars { AreDeclared (types vars.now) }
    requires locs { AreDeclared (types locs.now) }
    requires at { IsDeclared (ty at.now) }
    ensures { IfOk result (λ answer. Counts
        (IsTypingAt (theory [] declared.now) (option_map (λ def. function def.now) own.entry) vars.now locs.now (resolved t.now) (ty at.now)) answer) }
{
    let mut table = Table::new(alloc);
    let context = prepare(alloc, &mut table, declared, own, vars)?;
    let given = state_all(alloc, &mut table, locs)?;
    let mut loose = Vec::from_slice(alloc, given.as_slice())?;
    let expected = state(alloc, &mut table, at)?;
    if !type_at(&context, &mut table, &mut loose, t, expected)? {
        return Ok(Typings::None);
    }
    Ok(answer(table.settle()?))
}

// The nodes of the types that are given.
fn prepare<'a>(
    alloc: Global,
    table: &mut Table,
    declared: &'a Declarations,
    own: Option<&'a FunDef>,
    vars: &[Ty],
) -> Result<Context<'a>, AllocError>
    requires { AreDeclared (types vars.now) }
    ensures declared { IfOk result (λ context. context.declared.now ≡ declared.now) }
    ensures own { IfOk result (λ context. option_map (λ def. function def.now) context.own ≡ option_map (λ def. function def.now) own.entry) }
    ensures nodes { IfOk result (λ context. Prepares table.old table.new
        (option_map (λ def. function def.now) own.entry) vars.now context.parameters context.vars) }
{
    let parameters = state_own(alloc, table, own)?;
    let vars = state_all(alloc, table, vars)?;
    Ok(Context {
        alloc,
        declared,
        own,
        parameters,
        vars,
    })
}

// The nodes of the type parameters of the function that is being declared.
fn state_own(
    alloc: Global,
    table: &mut Table,
    own: Option<&FunDef>,
) -> Result<Items<usize>, AllocError>
    ensures { IfOk result (λ ks. AllStand table.old (tys (own_parameters (option_map (λ def. function def.now) own.entry))) table.new ks) }
{
    match own {
        None => Ok(Items::new(alloc)),
        Some(def) => state_parameters(alloc, table, def.params),
    }
}

// The nodes of the type parameters of a declaration, as they stand.
fn state_parameters(
    alloc: Global,
    table: &mut Table,
    count: u32,
) -> Result<Items<usize>, AllocError>
    ensures { IfOk result (λ ks. AllStand table.old (tys (parameters_from 1 count)) table.new ks) }
{
    let mut ks = Items::new(alloc);
    for n in 0..count {
        let k = table.push(Node::Param(n + 1))?;
        ks.push(k)?;
    }
    Ok(ks)
}

fn answer(solutions: Solutions) -> Typings
    ensures { result ≡ answer_of solutions }
{
    match solutions {
        Solutions::Zero => Typings::None,
        Solutions::One => Typings::One,
        Solutions::Several => Typings::Several,
    }
}
