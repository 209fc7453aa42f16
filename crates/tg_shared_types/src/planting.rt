//! Declared types as nodes.
ghost use Rattle.std.specs.Prelude.{◌≡◌, ◌++◌, [], ◌∷◌, length, IfOk, OnErr};
ghost use Rattle.tg_types.specs.Types.{ty, types};
ghost use Rattle.tg_model.specs.Types.{parameter};
ghost use Rattle.tg_shared_types.specs.Nodes.{AreBelow, IsNodeTable, Names};
ghost use Rattle.tg_shared_types.specs.Growth.{IsDeclared, AreDeclared, Plants, PlantsAll};

use super::nodes::Node;
use sqlite_items::Items;
use std::alloc::{AllocError, Global};
use tg_types::Ty;

/// Adds the nodes of a declared type, and gives its node. The parameter of number n is the n-th node of
/// `given`, or nat where there is no such node.
#[cycle(plant)]
pub(crate) fn plant(
    alloc: Global,
    nodes: &mut Vec<Node>,
    given: &[usize],
    t: &Ty,
) -> Result<usize, AllocError>
    requires table { IsNodeTable nodes.old.items }
    requires given { AreBelow (length nodes.old.items) given.now }
    requires declared { IsDeclared (ty t.now) }
    ensures table { IsNodeTable nodes.new.items }
    ensures plants { IfOk result (λ at.
        Plants nodes.old.items given.now (ty t.now) nodes.new.items at) }
{
    match t {
        Ty::Nat => push(nodes, Node::Nat),
        Ty::Bool => push(nodes, Node::Bool),
        Ty::Param(n) => plant_parameter(nodes, given, *n),
        Ty::Meta(_) => push(nodes, Node::Open),
        Ty::App(d, ts) => {
            let ks = plant_all(alloc, nodes, given, ts.as_slice())?;
            push(nodes, Node::App(*d, Items::from_vec(ks)))
        }
    }
}

#[cycle(plant)]
fn plant_all(
    alloc: Global,
    nodes: &mut Vec<Node>,
    given: &[usize],
    ts: &[Ty],
) -> Result<Vec<usize>, AllocError>
    requires table { IsNodeTable nodes.old.items }
    requires given { AreBelow (length nodes.old.items) given.now }
    requires declared { AreDeclared (types ts.now) }
    ensures table { IsNodeTable nodes.new.items }
    ensures plants { IfOk result (λ ks.
        PlantsAll nodes.old.items given.now (types ts.now) nodes.new.items ks.items) }
{
    let mut ks = Vec::new(alloc);
    for t in ts {
        let k = plant(alloc, nodes, given, t)?;
        ks.push(k)?;
    }
    Ok(ks)
}

fn plant_parameter(nodes: &mut Vec<Node>, given: &[usize], number: u32) -> Result<usize, AllocError>
    requires table { IsNodeTable nodes.old.items }
    requires given { AreBelow (length nodes.old.items) given.now }
    ensures table { IsNodeTable nodes.new.items }
    ensures plants { IfOk result (λ at.
        Plants nodes.old.items given.now (parameter number) nodes.new.items at) }
{
    let place = number as usize;
    if place == 0 {
        return push(nodes, Node::Nat);
    }
    if given.len() < place {
        return push(nodes, Node::Nat);
    }
    Ok(given[place - 1])
}

/// Adds a node, and gives its place.
#[tactic(auto, using(crate::proofs::NodeLaws::table_pushed))]
pub(crate) fn push(nodes: &mut Vec<Node>, node: Node) -> Result<usize, AllocError>
    requires table { IsNodeTable nodes.old.items }
    requires names { Names (length nodes.old.items) (length nodes.old.items) node }
    ensures table { IsNodeTable nodes.new.items }
    ensures place { IfOk result (λ at. at ≡ length nodes.old.items) }
    ensures ok { IfOk result (λ at. nodes.new.items ≡ nodes.old.items ++ node ∷ []) }
    ensures err { OnErr result (nodes.new.items ≡ nodes.old.items) }
{
    let at = nodes.len();
    nodes.push(node)?;
    Ok(at)
}
