//! Values that share their arguments and know how large they are.
ghost use Rattle.std.specs.Prelude.{◌≡◌, ◌≤◌, IfOk};
ghost use Rattle.tg_model.specs.Value.{number, boolean, made, values};
ghost use Rattle.tg_eval.specs.Limited.{value_nodes, nodes_of};
ghost use Rattle.tg_eval.specs.Sizes.{height, heights, counted, most_height};
ghost use Rattle.tg_eval.specs.Seen.{seen};

use sqlite_items::Items;
use std::alloc::{AllocError, Global};
use std::marker::Model;
use std::rc::Rc;
use tg_term::ConId;

/// No value is higher than this. So what walks down a value, and what drops its last handle, needs a
/// bounded part of the stack.
const MAX_HEIGHT: u64 = 10_000;

/// A value. A constructor shares its arguments with the values that `share` makes of it, and knows how
/// many nodes it has. A contract sees a value of the model.
#[cycle(held)]
#[derive(Debug, Drop)]
pub struct Held {
    kind: Kind,
}

#[cycle(held)]
#[derive(Debug, Drop)]
enum Kind {
    Nat(u64),
    Truth(bool),
    Con(Rc<Made>),
}

/// A constructor at its arguments, with what it knows of itself.
#[cycle(held)]
#[derive(Debug, Drop)]
struct Made {
    nodes: u64,
    height: u64,
    con: ConId,
    args: Items<Held>,
}

impl Model for Held {
    ghost use Rattle.tg_model.specs.Value as model;
    ghost use Rattle.tg_eval.specs.Code.{coded_value};

    ghost Value = { model.Value };

    ghost coded = { coded_value };

    ghost use Rattle.tg_eval.specs.Held.{held, IsKnown};

    ghost view = { λ a. held a.kind };

    ghost invariant = { λ a. IsKnown a.kind };

    ghost use Rattle.tg_eval.specs.Sizes.{height};

    ghost size = { height };

    ghost use Rattle.tg_eval.specs.Falls.{falls};

    ghost size_decreases = { λ a h. falls a.kind };
}

/// What a value is made of.
#[derive(Clone, Copy, Debug)]
pub enum Seen<'a> {
    /// A natural.
    Nat(u64),
    /// A truth value.
    Truth(bool),
    /// A constructor at its arguments.
    Con(ConId, &'a [Held]),
}

impl Held {
    /// A natural.
    pub fn nat(n: u64) -> Held
        ensures { result ≡ number n }
    {
        Held { kind: Kind::Nat(n) }
    }

    /// A truth value.
    pub fn truth(b: bool) -> Held
        ensures { result ≡ boolean b }
    {
        Held {
            kind: Kind::Truth(b),
        }
    }

    /// What the value is made of.
    pub fn seen(&self) -> Seen<'_>
        ensures { seen result ≡ self.now }
    {
        match &self.kind {
            Kind::Nat(n) => Seen::Nat(*n),
            Kind::Truth(b) => Seen::Truth(*b),
            Kind::Con(made) => {
                let made = made.as_ref();
                Seen::Con(made.con, made.args.as_slice())
            }
        }
    }

    /// The number of nodes, a count that stops at 2^64 - 1.
    pub fn nodes(&self) -> u64
        ensures { result ≡ counted (value_nodes self.now) }
    {
        match &self.kind {
            Kind::Nat(_) | Kind::Truth(_) => 1,
            Kind::Con(m) => m.as_ref().nodes,
        }
    }

    /// The most steps from the value down to one without arguments.
    pub fn height(&self) -> u64
        ensures is { result ≡ height self.now }
        ensures bounded { result ≤ most_height }
    {
        match &self.kind {
            Kind::Nat(_) | Kind::Truth(_) => 0,
            Kind::Con(m) => m.as_ref().height,
        }
    }

    /// An equal value, which shares its arguments with this one. It takes no memory: the error comes only
    /// where the count of values that share them is full.
    pub fn share(&self) -> Result<Held, AllocError>
        ensures { IfOk result (λ v. v ≡ self.now) }
    {
        let kind = match &self.kind {
            Kind::Nat(n) => Kind::Nat(*n),
            Kind::Truth(b) => Kind::Truth(*b),
            Kind::Con(m) => Kind::Con(m.clone()?),
        };
        Ok(Held { kind })
    }

    /// A constructor at its arguments. A value that would be higher than 10,000 isn't made, which is
    /// answered as want of memory.
    pub fn con(alloc: Global, con: ConId, args: Vec<Held>) -> Result<Held, AllocError>
        ensures { IfOk result (λ v. v ≡ made con (values args.items)) }
    {
        let nodes = nodes_of(args.as_slice()).saturating_add(1);
        let height = heights(args.as_slice());
        if height > MAX_HEIGHT {
            return Err(AllocError);
        }
        let args = Items::from_vec(args);
        let made = Made {
            nodes,
            height,
            con,
            args,
        };
        Ok(Held {
            kind: Kind::Con(Rc::new(alloc, made)?),
        })
    }
}

/// The nodes of all values, a count that stops at 2^64 - 1.
#[tactic(auto, using(crate::proofs::HeldLaws::measuring))]
fn nodes_of(vs: &[Held]) -> u64
    ensures { result ≡ counted (nodes_of (values vs.now)) }
{
    let mut nodes: u64 = 0;
    for v in vs {
        nodes = nodes.saturating_add(v.nodes());
    }
    nodes
}

/// One more than the height of the highest, and 0 of none.
#[tactic(auto, using(crate::proofs::HeldLaws::measuring))]
fn heights(vs: &[Held]) -> u64
    ensures is { result ≡ heights (values vs.now) }
    ensures bounded { result ≤ 10001 }
{
    let mut most: u64 = 0;
    for v in vs {
        most = most.max(v.height() + 1);
    }
    most
}
