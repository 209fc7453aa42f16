//! Two roots made one node.
ghost use Rattle.std.specs.Prelude.{◌≡◌, ◌<◌, ◌≤◌, ◌+◌, ◌++◌, [], ◌∷◌, length, IfOk, OnOk};
ghost use Rattle.tg_shared_types.specs.Nodes.{node_at, IsRoot, IsNodeTable};
ghost use Rattle.tg_shared_types.specs.Pairs.{meet, meet_applied, paired, weights, CarriesOr, PairsBelow};
ghost use Rattle.tg_shared_types.specs.View.{meeting};

use super::nodes::Node;
use sqlite_items::Items;
use std::alloc::AllocError;
use std::mem;
use tg_types::DataId;

/// What two roots that are to have one type say together.
enum Meeting<'a> {
    First,
    Second,
    Parts(&'a [usize], &'a [usize]),
    Never,
}

/// Makes the root `high` a link to the earlier root `low`, which then says what both said; what their
/// parts must have in common is added to `work`. `false` where no type is what both say.
pub(crate) fn join(
    nodes: &mut [Node],
    work: &mut Vec<(usize, usize)>,
    low: usize,
    high: usize,
) -> Result<bool, AllocError>
    requires table { IsNodeTable nodes.old }
    requires work { PairsBelow (length nodes.old) work.old.items }
    requires order { low < high }
    requires inside { high < length nodes.old }
    requires low { IsRoot (node_at nodes.old low) }
    requires high { IsRoot (node_at nodes.old high) }
    ensures table { IsNodeTable nodes.new }
    ensures carries { IfOk result (λ ok.
        CarriesOr ok nodes.old (work.old.items ++ (low, high) ∷ []) nodes.new work.new.items) }
    ensures weights { IfOk result (λ ok.
        weights nodes.new + length work.new.items ≤ weights nodes.old + length work.old.items) }
{
    match roots(&nodes[low], &nodes[high]) {
        Meeting::First => {
            nodes[high] = Node::Link(low);
        }
        Meeting::Second => {
            let node = mem::replace(&mut nodes[high], Node::Link(low));
            nodes[low] = node;
        }
        Meeting::Parts(ks, ls) => {
            push_pairs(work, ks, ls)?;
            nodes[high] = Node::Link(low);
        }
        Meeting::Never => return Ok(false),
    }
    Ok(true)
}

fn push_pairs(work: &mut Vec<(usize, usize)>, ks: &[usize], ls: &[usize]) -> Result<(), AllocError>
    requires { length ks.now ≡ length ls.now }
    ensures { OnOk result (work.new.items ≡ work.old.items ++ paired ks.now ls.now) }
{
    for i in 0..ks.len() {
        work.push((ks[i], ls[i]))?;
    }
    Ok(())
}

fn roots<'a>(low: &'a Node, high: &'a Node) -> Meeting<'a>
    ensures { meeting result ≡ meet low.now high.now }
{
    match (low, high) {
        (Node::Open, _) => Meeting::Second,
        (_, Node::Open) => Meeting::First,
        (Node::Nat, Node::Nat) => Meeting::First,
        (Node::Bool, Node::Bool) => Meeting::First,
        (Node::Param(m), Node::Param(n)) => {
            if *m == *n {
                Meeting::First
            } else {
                Meeting::Never
            }
        }
        (Node::App(d, ks), Node::App(e, ls)) => applied(*d, ks, *e, ls),
        _ => Meeting::Never,
    }
}

fn applied<'a>(d: DataId, ks: &'a Items<usize>, e: DataId, ls: &'a Items<usize>) -> Meeting<'a>
    ensures { meeting result ≡ meet_applied d ks.now e ls.now }
{
    if d == e && ks.len() == ls.len() {
        Meeting::Parts(ks.as_slice(), ls.as_slice())
    } else {
        Meeting::Never
    }
}
