//! The root that a node's links lead to.
ghost use Rattle.std.specs.Prelude.{◌≡◌, ◌<◌, length};
ghost use Rattle.tg_shared_types.specs.Nodes.{node_at, IsRoot, IsNodeTable, SameFits, HasTypeOf, KeepsRoots};
ghost use Rattle.tg_shared_types.specs.Pairs.{weights};
ghost use Rattle.tg_shared_types.specs.declared.nodes.Node.TheVariants.{Link};

use super::nodes::Node;

/// The root that the links from `at` lead to: a node that is no link and has the type of `at` in each
/// assignment that fits. On the way each link that leads to another link is made to lead past it, so
/// that a long chain is short the next time (path halving, after Tarjan and van Leeuwen).
pub(crate) fn find(nodes: &mut [Node], at: usize) -> usize
    requires table { IsNodeTable nodes.old }
    requires inside { at < length nodes.old }
    ensures fits { SameFits nodes.old nodes.new }
    ensures weights { weights nodes.new ≡ weights nodes.old }
    ensures kept { KeepsRoots nodes.old nodes.new }
    ensures inside { result < length nodes.old }
    ensures root { IsRoot (node_at nodes.new result) }
    ensures there { HasTypeOf nodes.old at result }
{
    let mut here = at;
    while let Node::Link(next) = &nodes[here] {
        let next = *next;
        halve(nodes, here, next);
        here = next;
    }
    here
}

// Where a link leads to another link, makes it lead past that one.
fn halve(nodes: &mut [Node], at: usize, next: usize)
    requires table { IsNodeTable nodes.old }
    requires inside { at < length nodes.old }
    requires link { node_at nodes.old at ≡ Link next }
    ensures fits { SameFits nodes.old nodes.new }
    ensures weights { weights nodes.new ≡ weights nodes.old }
    ensures kept { KeepsRoots nodes.old nodes.new }
{
    if let Node::Link(far) = &nodes[next] {
        nodes[at] = Node::Link(*far);
    }
}
