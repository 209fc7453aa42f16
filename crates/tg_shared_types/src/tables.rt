//! The table of nodes that callers hold.
ghost use Rattle.std.specs.Prelude.{◌≡◌, ◌<◌, ◌++◌, [], ◌∷◌, length, IfOk, OnErr};
ghost use Rattle.tg_types.specs.Types.{ty};
ghost use Rattle.tg_shared_types.specs.Growth.{IsDeclared, Plants};
ghost use Rattle.tg_shared_types.specs.Nodes.{node_at, AreBelow, Names, IsNodeTable, IsRoot, SameFits, HasTypeOf};
ghost use Rattle.tg_shared_types.specs.Uniting.{Unites};
ghost use Rattle.tg_shared_types.specs.Settled.{Settles};

use super::finding::find;
use super::nodes::Node;
use super::planting::{plant, push};
use super::settling::{Solutions, settle};
use super::uniting::unite;
use std::alloc::{AllocError, Global};
use std::marker::Model;
use tg_types::Ty;

/// Nodes whose types are to be found. A contract sees a table as the list of its nodes; what it means is
/// the assignments of types to the nodes that fit it. Each node names nodes of the table, and a link
/// names an earlier one.
#[derive(Drop)]
pub struct Table {
    nodes: Vec<Node>,
    alloc: Global,
}

impl Model for Table {
    ghost use Rattle.std.specs.Prelude.{List};
    ghost use Rattle.tg_shared_types.specs.declared.nodes.Node.{Node};

    ghost Value = { List Node };

    ghost use Rattle.tg_shared_types.specs.Nodes.{IsNodeTable};

    ghost view = { λ t. t.nodes.items };

    ghost invariant = { λ t. IsNodeTable t.nodes.items };
}

impl Table {
    /// A table without nodes. It takes no memory.
    pub fn new(alloc: Global) -> Table
        ensures { result ≡ [] }
    {
        Table {
            nodes: Vec::new(alloc),
            alloc,
        }
    }

    /// How many nodes there are.
    pub fn len(&self) -> usize
        ensures { result ≡ length self.now }
    {
        self.nodes.len()
    }

    /// Adds a node, and gives its place.
    pub fn push(&mut self, node: Node) -> Result<usize, AllocError>
        requires { Names (length self.old) (length self.old) node }
        ensures table { IsNodeTable self.old }
        ensures place { IfOk result (λ at. at ≡ length self.old) }
        ensures ok { IfOk result (λ at. self.new ≡ self.old ++ node ∷ []) }
        ensures err { OnErr result (self.new ≡ self.old) }
    {
        push(&mut self.nodes, node)
    }

    /// Adds the nodes of a declared type, and gives its node. The parameter of number n is the n-th node of
    /// `given`, or nat where there is no such node. After an error the table may have nodes
    /// more, and nothing is said of what it says of them.
    pub fn plant(&mut self, given: &[usize], t: &Ty) -> Result<usize, AllocError>
        requires given { AreBelow (length self.old) given.now }
        requires declared { IsDeclared (ty t.now) }
        ensures { IfOk result (λ at. Plants self.old given.now (ty t.now) self.new at) }
    {
        plant(self.alloc, &mut self.nodes, given, t)
    }

    /// What the table says of a node.
    pub fn node(&self, at: usize) -> &Node
        requires { at < length self.now }
        ensures { result.now ≡ node_at self.now at }
    {
        &self.nodes[at]
    }

    /// The root that the links from a node lead to, which has its type in each assignment that fits. The
    /// same assignments fit the table as before; only links become shorter.
    pub fn find(&mut self, at: usize) -> usize
        requires { at < length self.old }
        ensures fits { SameFits self.old self.new }
        ensures inside { result < length self.old }
        ensures root { IsRoot (node_at self.new result) }
        ensures there { HasTypeOf self.old at result }
    {
        find(&mut self.nodes, at)
    }

    /// Gives two nodes one type, by union-find over the pairs of nodes that so come to have one type. It
    /// takes near-linear time in the nodes, and no stack.
    ///
    /// `true` leaves the assignments that fitted and gave both nodes one type, and no others. `false` comes
    /// where types that must be one differ at their roots, so that no assignment is left. That a type would
    /// have to hold itself is not looked for here: after `true` it is `settle` that tells whether one is left.
    /// After `false`, and after an error, the nodes are as many as before, and nothing more is said of them.
    pub fn unite(&mut self, left: usize, right: usize) -> Result<bool, AllocError>
        requires left { left < length self.old }
        requires right { right < length self.old }
        ensures unites { IfOk result (λ ok. Unites ok self.old left right self.new) }
        ensures long { length self.new ≡ length self.old }
    {
        unite(self.alloc, &mut self.nodes, left, right)
    }

    /// How many assignments fit the table.
    pub fn settle(&self) -> Result<Solutions, AllocError>
        ensures { IfOk result (λ answer. Settles self.now answer) }
    {
        settle(self.alloc, &self.nodes)
    }
}
