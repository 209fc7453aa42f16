//! How many nodes raw terms have. A count stops at its limit, and needs the stack of two calls a level.
ghost use Rattle.std.specs.Prelude.{◌≡◌, ◌-◌, nat_lt};
ghost use Rattle.tg_accept.specs.Raw.{nodes, all_nodes, branch_nodes};
ghost use Rattle.tg_infer.specs.View.{raw_term, raw_terms, raw_branches};

use tg_grammar::{RawBranch, RawTerm};

/// The most nodes that a term of a declaration may have.
pub(crate) const MOST_NODES: u32 = 100_000;

/// Whether the term has more nodes than the limit.
pub fn is_larger(t: &RawTerm, limit: u32) -> bool
    ensures { result ≡ nat_lt limit (nodes (raw_term t.now)) }
{
    left_after(t, u64::from(limit) + 1) == 0
}

/// What is left of a number of nodes after those of the term, and 0 where it has as many or more.
#[cycle(count)]
#[tactic(auto, using(crate::proofs::SizeLaws::counting))]
fn left_after(t: &RawTerm, left: u64) -> u64
    ensures { result ≡ left - nodes (raw_term t.now) }
{
    if left == 0 {
        return 0;
    }
    let rest = left - 1;
    match t {
        RawTerm::Num(_) => rest,
        RawTerm::Truth(_) => rest,
        RawTerm::Free(_) => rest,
        RawTerm::Bound(_) => rest,
        RawTerm::Use(_, ts) => left_after_all(ts.as_slice(), rest),
        RawTerm::Op(_, ts) => left_after_all(ts.as_slice(), rest),
        RawTerm::If(ts) => left_after_all(ts.as_slice(), rest),
        RawTerm::Let(_, ts) => {
            if ts.len() != 2 {
                return rest;
            }
            left_after_all(ts.as_slice(), rest)
        }
        RawTerm::Case(ts, bs) => {
            if ts.len() != 1 {
                return rest;
            }
            left_after_branches(bs.as_slice(), left_after_all(ts.as_slice(), rest))
        }
    }
}

#[cycle(count)]
#[tactic(auto, using(crate::proofs::SizeLaws::counting))]
fn left_after_all(ts: &[RawTerm], left: u64) -> u64
    ensures { result ≡ left - all_nodes (raw_terms ts.now) }
{
    let mut rest = left;
    for t in ts {
        rest = left_after(t, rest);
    }
    rest
}

#[cycle(count)]
#[tactic(auto, using(crate::proofs::SizeLaws::counting))]
fn left_after_branches(bs: &[RawBranch], left: u64) -> u64
    ensures { result ≡ left - branch_nodes (raw_branches bs.now) }
{
    let mut rest = left;
    for b in bs {
        rest = left_after(&b.body, rest);
    }
    rest
}
