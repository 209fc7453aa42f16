//! The types that a use of something asks of its arguments, as nodes.
ghost use Rattle.std.specs.Prelude.{◌≡◌, ◌<◌, IfOk, length, map, option_map};
ghost use Rattle.tg_model.specs.Theory.{instance};
ghost use Rattle.tg_types.specs.Types.{ty};
ghost use Rattle.tg_shared_types.specs.Nodes.{AreBelow};
ghost use Rattle.tg_term.specs.Operators.{operator};
ghost use Rattle.tg_declarations.specs.View.{function};
ghost use Rattle.tg_typing.specs.Contexts.{theory_in, self_in, HasClosedTypes, IsClosedFunction};
ghost use Rattle.tg_typing.specs.Uses.{Frames, UsesConstructor, UsesFunction, UsesOwn, UsesProgram, UsesChoice, UsesOperator};
ghost use Rattle.tg_typing.specs.Frames.{Closes, Ends, IsUseOf, parameters_of};

use crate::contexts::Context;
use crate::opening::{open_nodes, plant_all, state, state_all};
use crate::operators::frame_operator;
use sqlite_items::Items;
use std::alloc::{AllocError, Global};
use tg_declarations::{Declarations, FunDef};
use tg_shared_types::{Node, Table};
use tg_term::{ConId, FunId, OpId};
use tg_types::{DataId, Ty};

/// What has arguments, whatever the kind.
#[derive(Clone, Copy, Debug)]
pub(crate) enum Used {
    Con(ConId),
    Call(FunId),
    Own,
    Put,
    If,
    Op(OpId),
}

/// The nodes of the types that a use has to have of its arguments where it is of the type of the node
/// `expected`; `None` where it can't be.
pub(crate) fn frame(
    context: &Context<'_>,
    table: &mut Table,
    used: Used,
    expected: usize,
) -> Result<Option<Items<usize>>, AllocError>
    requires closed { HasClosedTypes (theory_in context.now) (self_in context.now) }
    requires parameters { AreBelow (length table.old) context.now.parameters }
    requires expected { expected < length table.old }
    ensures { IfOk result (λ found. Frames table.old table.new
        (λ ρ. IsUseOf (theory_in context.now) (self_in context.now) (map ρ context.now.parameters) used) expected found) }
{
    match used {
        Used::Con(c) => frame_constructor(context, table, c, expected),
        Used::Call(f) => frame_function(context, table, f, expected),
        Used::Own => frame_own(context, table, expected),
        Used::Put => frame_program(context, table, expected),
        Used::If => frame_choice(context.alloc, table, expected),
        Used::Op(o) => frame_operator(context.alloc, table, o, expected),
    }
}

fn frame_constructor(
    context: &Context<'_>,
    table: &mut Table,
    c: ConId,
    expected: usize,
) -> Result<Option<Items<usize>>, AllocError>
    requires closed { HasClosedTypes (theory_in context.now) (self_in context.now) }
    requires expected { expected < length table.old }
    ensures { IfOk result (λ found. Frames table.old table.new (λ ρ. UsesConstructor (theory_in context.now) c) expected found) }
{
    let Some((d, con)) = context.declared.con_def(c) else {
        return Ok(None);
    };
    let Some(count) = parameters(context.declared, d) else {
        return Ok(None);
    };
    let us = open_nodes(context.alloc, table, count)?;
    let es = plant_all(context.alloc, table, us.as_slice(), con.args.as_slice())?;
    let top = table.push(Node::App(d, us))?;
    close(table, top, expected, es)
}

/// How many type parameters a datatype has; 0 stands for the naturals, which have none.
pub(crate) fn parameters(declared: &Declarations, d: DataId) -> Option<u32>
    ensures { result ≡ parameters_of declared.now.datatypes d }
{
    if d == 0 {
        return Some(0);
    }
    Some(declared.data_def(d)?.params)
}

fn frame_function(
    context: &Context<'_>,
    table: &mut Table,
    f: FunId,
    expected: usize,
) -> Result<Option<Items<usize>>, AllocError>
    requires closed { HasClosedTypes (theory_in context.now) (self_in context.now) }
    requires expected { expected < length table.old }
    ensures { IfOk result (λ found. Frames table.old table.new (λ ρ. UsesFunction (theory_in context.now) f) expected found) }
{
    let Some(def) = context.declared.fun_def(f) else {
        return Ok(None);
    };
    let us = open_nodes(context.alloc, table, def.params)?;
    frame_signature(context.alloc, table, us.as_slice(), def, expected)
}

fn frame_own(
    context: &Context<'_>,
    table: &mut Table,
    expected: usize,
) -> Result<Option<Items<usize>>, AllocError>
    requires closed { HasClosedTypes (theory_in context.now) (self_in context.now) }
    requires parameters { AreBelow (length table.old) context.now.parameters }
    requires expected { expected < length table.old }
    ensures { IfOk result (λ found. Frames table.old table.new
        (λ ρ. UsesOwn (self_in context.now) (map ρ context.now.parameters)) expected found) }
{
    let Some(def) = context.own else {
        return Ok(None);
    };
    frame_signature(
        context.alloc,
        table,
        context.parameters.as_slice(),
        def,
        expected,
    )
}

// The nodes of the types of a function's arguments at the types of the nodes `us`.
fn frame_signature(
    alloc: Global,
    table: &mut Table,
    us: &[usize],
    def: &FunDef,
    expected: usize,
) -> Result<Option<Items<usize>>, AllocError>
    requires closed { IsClosedFunction (function def.now) }
    requires given { AreBelow (length table.old) us.now }
    requires expected { expected < length table.old }
    ensures { IfOk result (λ found. Ends table.old table.new us.now
        (λ ts. map (instance ts) (map ty def.now.args)) (λ ts. instance ts (ty def.now.result)) expected found) }
{
    let es = plant_all(alloc, table, us, def.args.as_slice())?;
    let top = table.plant(us, &def.result)?;
    close(table, top, expected, es)
}

fn frame_program(
    context: &Context<'_>,
    table: &mut Table,
    expected: usize,
) -> Result<Option<Items<usize>>, AllocError>
    requires closed { HasClosedTypes (theory_in context.now) (self_in context.now) }
    requires expected { expected < length table.old }
    ensures { IfOk result (λ found. Frames table.old table.new (λ ρ. UsesProgram (theory_in context.now)) expected found) }
{
    match context.declared.program() {
        None => {
            let top = table.push(Node::Nat)?;
            close(table, top, expected, Items::new(context.alloc))
        }
        Some(def) => {
            let es = state_all(context.alloc, table, def.inputs.as_slice())?;
            let top = state(context.alloc, table, &def.answer)?;
            close(table, top, expected, es)
        }
    }
}

fn frame_choice(
    alloc: Global,
    table: &mut Table,
    expected: usize,
) -> Result<Option<Items<usize>>, AllocError>
    requires expected { expected < length table.old }
    ensures { IfOk result (λ found. Frames table.old table.new (λ ρ. UsesChoice) expected found) }
{
    let side = table.push(Node::Open)?;
    let condition = table.push(Node::Bool)?;
    let mut es = Items::new(alloc);
    es.push(condition)?;
    es.push(side)?;
    es.push(side)?;
    close(table, side, expected, es)
}

/// Gives the node of a use's answer the type that is expected.
pub(crate) fn close(
    table: &mut Table,
    top: usize,
    expected: usize,
    es: Items<usize>,
) -> Result<Option<Items<usize>>, AllocError>
    requires top { top < length table.old }
    requires expected { expected < length table.old }
    ensures { IfOk result (λ found. Closes table.old table.new top expected es found) }
{
    if table.unite(top, expected)? {
        Ok(Some(es))
    } else {
        Ok(None)
    }
}
