//! How many assignments fit a table.
ghost use Rattle.std.specs.Prelude.{◌≡◌, ◌≢◌, ℕ, ◌<◌, ◌≤◌, true, false, length, IfOk, IfSome, IfNone};
ghost use Rattle.std.specs.Bool.{OnFalse};
ghost use Rattle.tg_shared_types.specs.Nodes.{node_at, IsNodeTable};
ghost use Rattle.tg_shared_types.specs.Marks.{is_marked, all_marked, is_ready, AreMarks, IsStuck, unmarked, with_turn};
ghost use Rattle.tg_shared_types.specs.Settled.{Settles};
ghost use Rattle.tg_shared_types.specs.declared.nodes.Node.TheVariants.{Open};

use super::nodes::Node;
use super::visiting::visit;
use std::alloc::{AllocError, Global};

/// How many assignments fit a table.
#[derive(Clone, Copy, Debug, PartialEq, Eq)]
pub enum Solutions {
    /// None fits.
    Zero,
    /// One fits, and no other gives the nodes other types.
    One,
    /// Two fit that give some node two types.
    Several,
}

/// How many assignments fit the table: none where a type would hold itself, several where a node is
/// open.
pub(crate) fn settle(alloc: Global, nodes: &[Node]) -> Result<Solutions, AllocError>
    requires { IsNodeTable nodes.now }
    ensures { IfOk result (λ answer. Settles nodes.now answer) }
{
    let mut marks = vec![in alloc; false; nodes.len()]?;
    // The visits mark in linear time all that can be marked. The answer rests on the rounds alone, of
    // which the first then finds nothing more; without the visits there could be as many as nodes.
    visit(alloc, nodes, &mut marks)?;
    let mut going = true;
    while going {
        going = round(nodes, &mut marks);
    }
    Ok(answer(nodes, &marks))
}

// The answer where no further node can be marked.
#[tactic(auto, using(crate::proofs::MarkLaws::settled))]
fn answer(nodes: &[Node], marks: &[bool]) -> Solutions
    requires table { IsNodeTable nodes.now }
    requires marks { AreMarks nodes.now marks.now }
    requires stuck { IsStuck nodes.now marks.now }
    ensures { Settles nodes.now result }
{
    match find_unmarked(marks) {
        Some(_) => Solutions::Zero,
        None => match find_open(nodes) {
            Some(_) => Solutions::Several,
            None => Solutions::One,
        },
    }
}

fn find_unmarked(marks: &[bool]) -> Option<usize>
    ensures some { IfSome result (λ i. (i < length marks.now) × (is_marked marks.now i ≡ false)) }
    ensures none { IfNone result ((i : ℕ) → i < length marks.now → is_marked marks.now i ≡ true) }
{
    for i in 0..marks.len() {
        if !marks[i] {
            return Some(i);
        }
    }
    None
}

fn find_open(nodes: &[Node]) -> Option<usize>
    ensures some { IfSome result (λ i. (i < length nodes.now) × (node_at nodes.now i ≡ Open)) }
    ensures none { IfNone result ((i : ℕ) → i < length nodes.now → node_at nodes.now i ≢ Open) }
{
    for i in 0..nodes.len() {
        if let Node::Open = &nodes[i] {
            return Some(i);
        }
    }
    None
}

// Marks each node in turn whose parts are marked. Tells whether it marked one.
fn round(nodes: &[Node], marks: &mut [bool]) -> bool
    requires table { IsNodeTable nodes.now }
    requires marks { AreMarks nodes.now marks.old }
    ensures marks { AreMarks nodes.now marks.new }
    ensures fewer { with_turn result (unmarked marks.new) ≤ unmarked marks.old }
    ensures stuck { OnFalse result (IsStuck nodes.now marks.new) }
{
    let mut more = false;
    for i in 0..nodes.len() {
        if mark(nodes, marks, i) {
            more = true;
        }
    }
    more
}

/// Marks a node where it has no mark and its parts have. Tells whether it did.
pub(crate) fn mark(nodes: &[Node], marks: &mut [bool], at: usize) -> bool
    requires table { IsNodeTable nodes.now }
    requires marks { AreMarks nodes.now marks.old }
    requires inside { at < length nodes.now }
    ensures marks { AreMarks nodes.now marks.new }
    ensures fewer { with_turn result (unmarked marks.new) ≤ unmarked marks.old }
    ensures kept { OnFalse result (marks.new ≡ marks.old) }
    ensures unready { OnFalse result (
        is_marked marks.old at ≡ false → is_ready marks.old (node_at nodes.now at) ≡ false) }
{
    if marks[at] {
        return false;
    }
    if !is_ready(marks, &nodes[at]) {
        return false;
    }
    marks[at] = true;
    true
}

fn is_ready(marks: &[bool], node: &Node) -> bool
    ensures { result ≡ is_ready marks.now node.now }
{
    match node {
        Node::Link(k) => is_marked(marks, *k),
        Node::App(_, ks) => all_marked(marks, ks.as_slice()),
        _ => true,
    }
}

fn all_marked(marks: &[bool], ks: &[usize]) -> bool
    ensures { result ≡ all_marked marks.now ks.now }
{
    for k in ks {
        if !is_marked(marks, *k) {
            return false;
        }
    }
    true
}

fn is_marked(marks: &[bool], k: usize) -> bool
    ensures { result ≡ is_marked marks.now k }
{
    k < marks.len() && marks[k]
}
