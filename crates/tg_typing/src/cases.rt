//! The nodes of a `case` and of its branches.
ghost use Rattle.std.specs.Prelude.{◌≡◌, ◌<◌, IfOk, length};
ghost use Rattle.tg_shared_types.specs.Nodes.{AreBelow};
ghost use Rattle.tg_typing.specs.Cases.{PlantsHead, OpensCase, BindsBranch};
ghost use Rattle.tg_typing.specs.Contexts.{theory_in, self_in, HasClosedTypes};
ghost use Rattle.tg_typing.specs.View.{head};

use crate::contexts::Context;
use crate::framing::parameters;
use crate::opening::{open_nodes, plant_all};
use crate::resolved::{Branch, Head};
use sqlite_items::Items;
use std::alloc::AllocError;
use tg_shared_types::{Node, Table};
use tg_types::DataId;

/// Open nodes for what datatype `n` is taken at, and the node of that type; `None` where there is no such
/// datatype.
pub(crate) fn open_case(
    context: &Context<'_>,
    table: &mut Table,
    n: DataId,
) -> Result<Option<(Items<usize>, usize)>, AllocError>
    ensures { IfOk result (λ found. OpensCase (theory_in context.now) n table.old table.new found) }
{
    let Some(count) = parameters(context.declared, n) else {
        return Ok(None);
    };
    let us = open_nodes(context.alloc, table, count)?;
    if n == 0 {
        let whole = table.push(Node::Nat)?;
        return Ok(Some((us, whole)));
    }
    let args = Items::from_slice(context.alloc, us.as_slice())?;
    let whole = table.push(Node::App(n, args))?;
    Ok(Some((us, whole)))
}

/// Adds the nodes of the types of a branch's variables to `locs`. `false` where the branch isn't one of
/// datatype `n`, or has another number of variables.
pub(crate) fn bind_branch(
    context: &Context<'_>,
    table: &mut Table,
    locs: &mut Vec<usize>,
    n: DataId,
    us: &[usize],
    b: &Branch,
) -> Result<bool, AllocError>
    requires closed { HasClosedTypes (theory_in context.now) (self_in context.now) }
    requires given { AreBelow (length table.old) us.now }
    ensures { IfOk result (λ ok.
        BindsBranch (theory_in context.now) table.old table.new n us.now (head b.now.head) b.now.names locs.old.items locs.new.items ok) }
{
    let Some(ks) = plant_head(context, table, n, us, b.head)? else {
        return Ok(false);
    };
    if ks.len() != b.names.len() {
        return Ok(false);
    }
    locs.extend_from_slice(ks.as_slice())?;
    Ok(true)
}

// The nodes of the types of a branch's variables.
fn plant_head(
    context: &Context<'_>,
    table: &mut Table,
    n: DataId,
    us: &[usize],
    of: Head,
) -> Result<Option<Items<usize>>, AllocError>
    requires closed { HasClosedTypes (theory_in context.now) (self_in context.now) }
    requires given { AreBelow (length table.old) us.now }
    ensures { IfOk result (λ found. PlantsHead (theory_in context.now) table.old table.new n us.now (head of) found) }
{
    match of {
        Head::Zero => {
            if n == 0 {
                Ok(Some(Items::new(context.alloc)))
            } else {
                Ok(None)
            }
        }
        Head::Successor => {
            if n != 0 {
                return Ok(None);
            }
            let k = table.push(Node::Nat)?;
            let mut ks = Items::new(context.alloc);
            ks.push(k)?;
            Ok(Some(ks))
        }
        Head::Con(c) => {
            let Some((d, con)) = context.declared.con_def(c) else {
                return Ok(None);
            };
            if d != n {
                return Ok(None);
            }
            let ks = plant_all(context.alloc, table, us, con.args.as_slice())?;
            Ok(Some(ks))
        }
    }
}
