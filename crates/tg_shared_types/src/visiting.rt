//! Marking the nodes of a table depth first.
ghost use Rattle.std.specs.Prelude.{◌≡◌, ◌<◌, ◌≤◌, ◌+◌, ◌++◌, length, IfOk, OnOk};
ghost use Rattle.tg_shared_types.specs.Nodes.{AreBelow, IsNodeTable};
ghost use Rattle.tg_shared_types.specs.Marks.{AreMarks, parts_of, visits};

use super::nodes::Node;
use super::settling::mark;
use std::alloc::{AllocError, Global};

/// Marks each node after its parts: a node is left on the list of visits, below its parts, and marked
/// when it comes up again. Each node's parts are listed once, so this takes linear time, whatever the
/// order in which the table has its nodes. A node that leads to itself stays without a mark.
pub(crate) fn visit(alloc: Global, nodes: &[Node], marks: &mut [bool]) -> Result<(), AllocError>
    requires table { IsNodeTable nodes.now }
    requires marks { AreMarks nodes.now marks.old }
    ensures { AreMarks nodes.now marks.new }
{
    let mut visited = vec![in alloc; false; nodes.len()]?;
    let mut list = places(alloc, nodes.len())?;
    while let Some(at) = list.pop() {
        visit_node(nodes, marks, &mut visited, &mut list, at)?;
    }
    Ok(())
}

// Lists the parts of a node above it, or marks it where its parts were listed before.
fn visit_node(
    nodes: &[Node],
    marks: &mut [bool],
    visited: &mut [bool],
    list: &mut Vec<usize>,
    at: usize,
) -> Result<(), AllocError>
    requires table { IsNodeTable nodes.now }
    requires marks { AreMarks nodes.now marks.old }
    requires long { length visited.old ≡ length nodes.now }
    requires list { AreBelow (length nodes.now) list.old.items }
    requires inside { at < length nodes.now }
    ensures marks { AreMarks nodes.now marks.new }
    ensures list { OnOk result (AreBelow (length nodes.now) list.new.items) }
    ensures fewer { OnOk result (
        visits nodes.now visited.new + length list.new.items
        ≤ visits nodes.now visited.old + length list.old.items) }
{
    if visited[at] {
        mark(nodes, marks, at);
        return Ok(());
    }
    visited[at] = true;
    list.push(at)?;
    push_parts(&nodes[at], list)
}

#[tactic(auto, using(crate::proofs::VisitLaws::listed_next))]
fn places(alloc: Global, count: usize) -> Result<Vec<usize>, AllocError>
    ensures { IfOk result (λ list. AreBelow count list.items) }
{
    let mut list = Vec::new(alloc);
    for i in 0..count {
        list.push(i)?;
    }
    Ok(list)
}

fn push_parts(node: &Node, list: &mut Vec<usize>) -> Result<(), AllocError>
    ensures { OnOk result (list.new.items ≡ list.old.items ++ parts_of node.now) }
{
    match node {
        Node::Link(k) => {
            list.push(*k)?;
        }
        Node::App(_, ks) => list.extend_from_slice(ks.as_slice())?,
        _ => {}
    }
    Ok(())
}
