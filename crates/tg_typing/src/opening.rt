//! Nodes for types that are to be found, and for types that are given.
ghost use Rattle.std.specs.Prelude.{◌≡◌, IfOk, length};
ghost use Rattle.tg_types.specs.Types.{ty, types};
ghost use Rattle.tg_shared_types.specs.Growth.{IsDeclared, AreDeclared, PlantsAll};
ghost use Rattle.tg_shared_types.specs.Nodes.{AreBelow};
ghost use Rattle.tg_typing.specs.Nodes.{AreOpened, Stands, AllStand};

use sqlite_items::Items;
use std::alloc::{AllocError, Global};
use tg_shared_types::{Node, Table};
use tg_types::Ty;

/// Adds open nodes, as many as are wanted.
pub(crate) fn open_nodes(
    alloc: Global,
    table: &mut Table,
    count: u32,
) -> Result<Items<usize>, AllocError>
    ensures { IfOk result (λ ks. AreOpened table.old table.new ks count) }
{
    let mut ks = Items::new(alloc);
    for _ in 0..count {
        let k = table.push(Node::Open)?;
        ks.push(k)?;
    }
    Ok(ks)
}

/// Adds the nodes of declared types, in which the parameters are the nodes given.
pub(crate) fn plant_all(
    alloc: Global,
    table: &mut Table,
    given: &[usize],
    ts: &[Ty],
) -> Result<Items<usize>, AllocError>
    requires given { AreBelow (length table.old) given.now }
    requires declared { AreDeclared (types ts.now) }
    ensures { IfOk result (λ ks. PlantsAll table.old given.now (types ts.now) table.new ks) }
{
    let mut ks = Items::new(alloc);
    for t in ts {
        let k = table.plant(given, t)?;
        ks.push(k)?;
    }
    Ok(ks)
}

/// Adds the nodes of a type as it stands, its parameters too.
#[cycle(state)]
pub(crate) fn state(alloc: Global, table: &mut Table, t: &Ty) -> Result<usize, AllocError>
    requires { IsDeclared (ty t.now) }
    ensures { IfOk result (λ at. Stands table.old (ty t.now) table.new at) }
{
    match t {
        Ty::Nat => table.push(Node::Nat),
        Ty::Bool => table.push(Node::Bool),
        Ty::Param(n) => table.push(Node::Param(*n)),
        Ty::Meta(_) => table.push(Node::Open),
        Ty::App(d, ts) => {
            let ks = state_all(alloc, table, ts.as_slice())?;
            table.push(Node::App(*d, ks))
        }
    }
}

/// Adds the nodes of types as they stand.
#[cycle(state)]
pub(crate) fn state_all(
    alloc: Global,
    table: &mut Table,
    ts: &[Ty],
) -> Result<Items<usize>, AllocError>
    requires { AreDeclared (types ts.now) }
    ensures { IfOk result (λ ks. AllStand table.old (types ts.now) table.new ks) }
{
    let mut ks = Items::new(alloc);
    for t in ts {
        let k = state(alloc, table, t)?;
        ks.push(k)?;
    }
    Ok(ks)
}
