ghost use Rattle.std.specs.Prelude.{◌≡◌, ◌≤◌, IfOk};
ghost use Rattle.tg_term.specs.Measures.{nodes, height, loose_range, counted, measures, most_height};
ghost use Rattle.tg_term.specs.View.{tree};

use crate::measuring::{Measures, measured};
use sqlite_items::Items;
use std::alloc::{AllocError, Global};
use std::marker::Model;
use std::rc::Rc;
use tg_types::DataId;

/// The number of a constructor, from 1, through all datatypes in the order of declaration.
pub type ConId = u32;

/// The number of a function, from 1, in the order of declaration.
pub type FunId = u32;

/// The number of an operator: its place, from 1, in `Suc ~ & | --> = < <= + - * div mod`.
pub type OpId = u32;

/// No term is higher than this. So what walks down a term, and what drops its last handle, needs a
/// bounded part of the stack.
pub(crate) const MAX_HEIGHT: u64 = 10_000;

/// A term. It shares its node with the terms that `share` makes of it. A contract sees it as a tree.
#[cycle(term)]
#[derive(Debug, Drop)]
pub struct Term {
    node: Rc<Shared>,
}

/// A node, with what its term knows of itself.
#[cycle(term)]
#[derive(Debug, Drop)]
struct Shared {
    measures: Measures,
    node: Node,
}

/// What stands at the root of a term, and the terms below it.
#[cycle(term)]
#[derive(Debug, Drop)]
pub enum Node {
    /// The variable of the binder that is this number of binders further out, from 0.
    Bound(u32),
    /// The variable of this number, from 1. It is printed as `?n`.
    Free(u32),
    /// A natural.
    Lit(u64),
    /// A truth value.
    Truth(bool),
    /// A constructor at its arguments.
    Con(ConId, Items<Term>),
    /// A function at its arguments.
    Call(FunId, Items<Term>),
    /// The program at its inputs.
    Put(Items<Term>),
    /// The condition, the term where it is true and the term where it is false.
    If(Items<Term>),
    /// A term that is taken apart, with a branch for each constructor of its datatype, in their order.
    /// The number is that of the datatype, or 0 for the naturals, whose constructors are 0 and `Suc`.
    Case(DataId, Term, Items<Branch>),
    /// A term, and the term in which its innermost loose bound variable stands for the first.
    Let(Term, Term),
    /// An operator at its arguments.
    Op(OpId, Items<Term>),
}

/// A branch of a case.
#[cycle(term)]
#[derive(Debug, Drop)]
pub struct Branch {
    /// How many variables the branch binds, one for each argument of its constructor. The last of them
    /// is the innermost binder.
    pub vars: u32,
    /// The value of the case where the branch is taken.
    pub body: Term,
}

impl Model for Term {
    ghost use Rattle.tg_model.specs.Tree.{Tree};
    ghost use Rattle.tg_term.specs.Code.{coded_tree};

    ghost Value = { Tree };

    ghost coded = { coded_tree };

    ghost use Rattle.tg_term.specs.View.{tree};

    ghost view = { λ a. tree a.node.value.node };

    ghost use Rattle.tg_term.specs.Measures.{IsKnown, height};

    ghost invariant = { λ a. IsKnown a.node.value.measures (tree a.node.value.node) };

    ghost size = { height };

    ghost use Rattle.tg_term.specs.Falls.{falls};

    ghost size_decreases = { λ a h. falls a.node.value.node };
}

impl Term {
    /// The term with this node. A term that would be higher than 10,000 isn't made, which is answered as
    /// want of memory.
    pub fn new(alloc: Global, node: Node) -> Result<Term, AllocError>
        ensures is { IfOk result (λ term. term ≡ tree node) }
        ensures bounded { IfOk result (λ term. height term ≤ most_height) }
    {
        let measures = measured(&node);
        if measures.height > MAX_HEIGHT {
            return Err(AllocError);
        }
        Ok(Term {
            node: Rc::new(alloc, Shared { measures, node })?,
        })
    }

    /// An equal term, which shares its node with this one. It takes no memory: the error comes only where
    /// the node's count of terms is full.
    pub fn share(&self) -> Result<Term, AllocError>
        ensures { IfOk result (λ term. term ≡ self.now) }
    {
        Ok(Term {
            node: self.node.clone()?,
        })
    }

    /// The node of the term.
    pub fn node(&self) -> &Node
        ensures { tree result.now ≡ self.now }
    {
        &self.node.as_ref().node
    }

    /// What the term knows of itself.
    pub(crate) fn measures(&self) -> Measures
        ensures is { result ≡ measures self.now }
        ensures bounded { result.height ≤ most_height }
    {
        self.node.as_ref().measures
    }

    /// The number of nodes of the tree, a count that stops at 2^64 - 1. A branch counts as its body.
    pub fn nodes(&self) -> u64
        ensures { result ≡ counted (nodes self.now) }
    {
        self.node.as_ref().measures.nodes
    }

    /// The most steps from the root of the tree down to a leaf.
    pub fn height(&self) -> u64
        ensures is { result ≡ height self.now }
        ensures bounded { result ≤ most_height }
    {
        self.node.as_ref().measures.height
    }

    /// One more than the greatest index of a loose bound variable, or 0 where none is loose.
    pub fn loose_range(&self) -> u64
        ensures { result ≡ loose_range self.now }
    {
        self.node.as_ref().measures.loose_range
    }
}

#[cfg(test)]
mod tests {
    use super::*;
    use std::test::Fail;

    #[test]
    fn a_shared_term_has_the_same_node(rt: HostRuntime) -> Result<(), Fail> {
        let alloc = rt.alloc();
        let one = Term::new(alloc, Node::Lit(1))?;
        let mut items = Items::new(alloc);
        items.push(one.share()?)?;
        let two = Term::new(alloc, Node::Op(1, items))?;
        assert!(rt; matches!(one.node(), Node::Lit(1)));
        let again = two.share()?;
        assert!(rt; matches!(again.node(), Node::Op(1, items) if items.len() == 1));
        Ok(())
    }
}
