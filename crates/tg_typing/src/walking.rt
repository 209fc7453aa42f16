//! The walk over a term that gives each of its parts a node, and unites those that must have one type. It
//! needs the stack of two calls a level.
ghost use Rattle.std.specs.Prelude.{◌≡◌, ◌<◌, ◌≤◌, IfOk, length, reverse, slice_get};
ghost use Rattle.tg_model.specs.TermTyping.{Typing, Typings, ArmTypings};
ghost use Rattle.tg_model.specs.Theory.{numbered};
ghost use Rattle.tg_shared_types.specs.Nodes.{AreBelow};
ghost use Rattle.tg_typing.specs.Contexts.{theory_in, self_in, HasClosedTypes};
ghost use Rattle.tg_typing.specs.Frames.{use_term};
ghost use Rattle.tg_typing.specs.Scopes.{IsScope};
ghost use Rattle.tg_typing.specs.View.{resolved, all_resolved, branches};
ghost use Rattle.tg_typing.specs.Walks.{scope_in, TypesTerm, TypesBranches};

use crate::cases::{bind_branch, open_case};
use crate::contexts::Context;
use crate::framing::{Used, frame};
use crate::resolved::{Branch, Resolved};
use std::alloc::AllocError;
use tg_shared_types::{Node, Table};
use tg_types::DataId;

/// Gives a term the type of the node `expected`. `true` with nodes for all that a typing at this type says;
/// `false` where there is no such typing. `locs` are the nodes of the loose bound variables, the outermost
/// first, and are as before after `true`.
#[cycle(walk)]
pub(crate) fn type_at(
    context: &Context<'_>,
    table: &mut Table,
    locs: &mut Vec<usize>,
    t: &Resolved,
    expected: usize,
) -> Result<bool, AllocError>
    requires closed { HasClosedTypes (theory_in context.now) (self_in context.now) }
    requires scope { IsScope (length table.old) (scope_in context.now locs.old.items) }
    requires expected { expected < length table.old }
    ensures { IfOk result (λ ok. TypesTerm context.now table.old table.new locs.old.items locs.new.items (resolved t.now) expected ok) }
{
    match t {
        Resolved::Bound(k) => match bound(locs, *k) {
            None => Ok(false),
            Some(node) => table.unite(node, expected),
        },
        Resolved::Free(n) => match free(context.vars.as_slice(), *n) {
            None => Ok(false),
            Some(node) => table.unite(node, expected),
        },
        Resolved::Lit(_) => {
            let node = table.push(Node::Nat)?;
            table.unite(node, expected)
        }
        Resolved::Truth(_) => {
            let node = table.push(Node::Bool)?;
            table.unite(node, expected)
        }
        Resolved::Con(c, ts) => type_use(
            context,
            table,
            locs,
            Used::Con(*c),
            ts.as_slice(),
            expected,
        ),
        Resolved::Call(f, ts) => type_use(
            context,
            table,
            locs,
            Used::Call(*f),
            ts.as_slice(),
            expected,
        ),
        Resolved::Own(ts) => type_use(context, table, locs, Used::Own, ts.as_slice(), expected),
        Resolved::Misused(_) => Ok(false),
        Resolved::Put(ts) => type_use(context, table, locs, Used::Put, ts.as_slice(), expected),
        Resolved::If(ts) => type_use(context, table, locs, Used::If, ts.as_slice(), expected),
        Resolved::Op(o, ts) => type_use(
            context,
            table,
            locs,
            Used::Op(*o),
            ts.as_slice(),
            expected,
        ),
        Resolved::Case(n, t, bs) => {
            let Some((us, whole)) = open_case(context, table, *n)? else {
                return Ok(false);
            };
            if !type_at(context, table, locs, t.get(), whole)? {
                return Ok(false);
            }
            type_branches(
                context,
                table,
                locs,
                *n,
                us.as_slice(),
                bs.as_slice(),
                expected,
            )
        }
        Resolved::Let(t, body) => {
            let node = table.push(Node::Open)?;
            if !type_at(context, table, locs, t.get(), node)? {
                return Ok(false);
            }
            let outer = locs.len();
            locs.push(node)?;
            let ok = type_at(context, table, locs, body.get(), expected)?;
            locs.truncate(outer);
            Ok(ok)
        }
    }
}

// The terms are what something is used at.
#[cycle(walk)]
fn type_use(
    context: &Context<'_>,
    table: &mut Table,
    locs: &mut Vec<usize>,
    used: Used,
    ts: &[Resolved],
    expected: usize,
) -> Result<bool, AllocError>
    requires closed { HasClosedTypes (theory_in context.now) (self_in context.now) }
    requires scope { IsScope (length table.old) (scope_in context.now locs.old.items) }
    requires expected { expected < length table.old }
    ensures { IfOk result (λ ok. TypesTerm context.now table.old table.new locs.old.items locs.new.items
        (use_term used (all_resolved ts.now)) expected ok) }
{
    let Some(es) = frame(context, table, used, expected)? else {
        return Ok(false);
    };
    let nodes = es.as_slice();
    if nodes.len() != ts.len() {
        return Ok(false);
    }
    for at in 0..ts.len() {
        if !type_at(context, table, locs, &ts[at], nodes[at])? {
            return Ok(false);
        }
    }
    Ok(true)
}

// The branches of a `case` on datatype `n` at the types of the nodes `us`.
#[cycle(walk)]
fn type_branches(
    context: &Context<'_>,
    table: &mut Table,
    locs: &mut Vec<usize>,
    n: DataId,
    us: &[usize],
    bs: &[Branch],
    expected: usize,
) -> Result<bool, AllocError>
    requires closed { HasClosedTypes (theory_in context.now) (self_in context.now) }
    requires scope { IsScope (length table.old) (scope_in context.now locs.old.items) }
    requires given { AreBelow (length table.old) us.now }
    requires expected { expected < length table.old }
    ensures { IfOk result (λ ok. TypesBranches context.now table.old table.new locs.old.items locs.new.items n us.now (branches bs.now) expected ok) }
{
    let outer = locs.len();
    for b in bs {
        if !bind_branch(context, table, locs, n, us, b)? {
            return Ok(false);
        }
        if !type_at(context, table, locs, &b.body, expected)? {
            return Ok(false);
        }
        locs.truncate(outer);
    }
    Ok(true)
}

// The node of a bound variable.
fn bound(locs: &[usize], k: u32) -> Option<usize>
    ensures { result ≡ slice_get (reverse locs.now) k }
{
    let k = k as usize;
    if k < locs.len() {
        Some(locs[locs.len() - 1 - k])
    } else {
        None
    }
}

// The node of a free variable, numbered from 1.
fn free(vars: &[usize], n: u64) -> Option<usize>
    ensures { result ≡ numbered vars.now n }
{
    vars.get((n as usize).checked_sub(1)?).copied()
}
