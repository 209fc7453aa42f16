//! What a term knows of itself, from what the terms below its root know of themselves.
ghost use Rattle.std.specs.Prelude.{◌≡◌, ◌≤◌};
ghost use Rattle.tg_model.specs.Tree.{con, trees};
ghost use Rattle.tg_term.specs.FormulaMeasures.{formula_measures};
ghost use Rattle.tg_term.specs.Formulas.{formula};
ghost use Rattle.tg_term.specs.Measures.{measures, own_range, most_height, raised, joined};
ghost use Rattle.tg_term.specs.View.{tree};

use crate::formulas::FormulaNode;
use crate::parts::{part_at, part_count};
use crate::terms::{Node, Term};

/// What a term knows of itself.
#[derive(Clone, Copy, Debug)]
pub(crate) struct Measures {
    /// The number of nodes, a count that stops at its type's end.
    pub(crate) nodes: u64,
    /// The most steps from the root down to a leaf.
    pub(crate) height: u64,
    /// One more than the greatest index of a loose bound variable, or 0 where none is loose.
    pub(crate) loose_range: u64,
}

/// The measures of the term of a node.
#[tactic(auto, using(crate::proofs::MeasureLaws::measuring))]
pub(crate) fn measured(node: &Node) -> Measures
    ensures { result ≡ measures (tree node.now) }
{
    let mut nodes: u64 = 1;
    let mut height: u64 = 0;
    let mut loose_range = own_range(node);
    for at in 0..part_count(node) {
        let Some(part) = part_at(node, at) else {
            continue;
        };
        nodes = nodes.saturating_add(part.term.nodes());
        height = height.max(part.term.height() + 1);
        let range = part.term.loose_range().saturating_sub(u64::from(part.vars));
        loose_range = loose_range.max(range);
    }
    Measures {
        nodes,
        height,
        loose_range,
    }
}

/// The loose range of a node alone.
fn own_range(node: &Node) -> u64
    ensures { result ≡ own_range (tree node.now) }
{
    match node {
        Node::Bound(k) => u64::from(*k) + 1,
        _ => 0,
    }
}

/// The measures of the formula of a node.
#[tactic(auto, using(crate::proofs::MeasureLaws::joining))]
pub(crate) fn formula_measured(node: &FormulaNode) -> Measures
    ensures { result ≡ formula_measures (formula node.now) }
{
    match node {
        FormulaNode::Atom(t) => above(t.measures(), 0),
        FormulaNode::And(f, g) => above_two(f.measures(), g.measures()),
        FormulaNode::Imp(f, g) => above_two(f.measures(), g.measures()),
        FormulaNode::All(_, f) => above(f.measures(), 1),
        FormulaNode::Ex(_, f) => above(f.measures(), 1),
        FormulaNode::Thyp(f) => above(f.measures(), 0),
        FormulaNode::Tested(ts) => above_terms(ts.as_slice()),
        FormulaNode::Deep(_, ts) => above_terms(ts.as_slice()),
    }
}

/// The measures of a node above one that binds `vars` variables.
fn above(m: Measures, vars: u64) -> Measures
    requires { m.height ≤ most_height }
    ensures { result ≡ raised m vars }
{
    Measures {
        nodes: m.nodes.saturating_add(1),
        height: m.height + 1,
        loose_range: m.loose_range.saturating_sub(vars),
    }
}

/// The measures of a node above two.
fn above_two(left: Measures, right: Measures) -> Measures
    requires left { left.height ≤ most_height }
    requires right { right.height ≤ most_height }
    ensures { result ≡ joined left right }
{
    Measures {
        nodes: left.nodes.saturating_add(right.nodes).saturating_add(1),
        height: left.height.max(right.height) + 1,
        loose_range: left.loose_range.max(right.loose_range),
    }
}

/// The measures of a node above terms.
fn above_terms(ts: &[Term]) -> Measures
    ensures { result ≡ measures (con 0 (trees ts.now)) }
{
    let mut nodes: u64 = 1;
    let mut height: u64 = 0;
    let mut loose_range: u64 = 0;
    for t in ts {
        nodes = nodes.saturating_add(t.nodes());
        height = height.max(t.height() + 1);
        loose_range = loose_range.max(t.loose_range());
    }
    Measures {
        nodes,
        height,
        loose_range,
    }
}
