//! Union-find over a list of pairs of nodes that are to have one type.
ghost use Rattle.std.specs.Prelude.{◌≡◌, ◌<◌, ◌≤◌, ◌+◌, ◌++◌, [], ◌∷◌, length, IfOk};
ghost use Rattle.tg_shared_types.specs.Nodes.{IsNodeTable};
ghost use Rattle.tg_shared_types.specs.Pairs.{weights, CarriesOr, PairsBelow};
ghost use Rattle.tg_shared_types.specs.Uniting.{Unites};

use super::finding::find;
use super::joining::join;
use super::nodes::Node;
use std::alloc::{AllocError, Global};

/// Gives two nodes one type. `false` where types that must be one differ at their roots, so that no
/// assignment gives them one.
pub(crate) fn unite(
    alloc: Global,
    nodes: &mut [Node],
    left: usize,
    right: usize,
) -> Result<bool, AllocError>
    requires table { IsNodeTable nodes.old }
    requires left { left < length nodes.old }
    requires right { right < length nodes.old }
    ensures table { IsNodeTable nodes.new }
    ensures unites { IfOk result (λ ok. Unites ok nodes.old left right nodes.new) }
{
    let mut work = vec![in alloc; (left, right)]?;
    while let Some((a, b)) = work.pop() {
        if !unite_pair(nodes, &mut work, a, b)? {
            return Ok(false);
        }
    }
    Ok(true)
}

// Unites the roots of two nodes, and leaves in `work` what their parts must have in common.
fn unite_pair(
    nodes: &mut [Node],
    work: &mut Vec<(usize, usize)>,
    a: usize,
    b: usize,
) -> Result<bool, AllocError>
    requires table { IsNodeTable nodes.old }
    requires work { PairsBelow (length nodes.old) work.old.items }
    requires a { a < length nodes.old }
    requires b { b < length nodes.old }
    ensures table { IsNodeTable nodes.new }
    ensures carries { IfOk result (λ ok.
        CarriesOr ok nodes.old (work.old.items ++ (a, b) ∷ []) nodes.new work.new.items) }
    ensures weights { IfOk result (λ ok.
        weights nodes.new + length work.new.items ≤ weights nodes.old + length work.old.items) }
{
    let first = find(nodes, a);
    let second = find(nodes, b);
    if first < second {
        join(nodes, work, first, second)
    } else if second < first {
        join(nodes, work, second, first)
    } else {
        Ok(true)
    }
}
