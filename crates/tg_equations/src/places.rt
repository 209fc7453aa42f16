//! Where there is a branch or an equation for a constructor.
ghost use Rattle.std.specs.Prelude.{◌≡◌, Some, None, IfOk, OnOk, is_some, not, if◌then◌else◌};
ghost use Rattle.tg_accept.specs.Core.{same_head};
ghost use Rattle.tg_accept.specs.Resolved as model;
ghost use Rattle.tg_equations.specs.Places.{held, holds_one, noted};
ghost use Rattle.tg_typing.specs.View.{head};

use indexmap::IndexMap;
use std::alloc::{AllocError, Global};
use tg_term::ConId;
use tg_typing::Head;

/// Where what is for a constructor stands among all that are written.
#[derive(Clone, Copy, Debug)]
pub(crate) struct Place {
    /// The place of the first, from 0.
    pub(crate) first: usize,
    /// Whether there is no other.
    pub(crate) only: bool,
}

/// The places of what is written for constructors, found by hash.
#[derive(Drop)]
pub(crate) struct Places {
    zero: Option<Place>,
    successor: Option<Place>,
    constructors: IndexMap<ConId, Place>,
}

impl Places {
    /// There is nothing for any constructor.
    pub(crate) fn new(alloc: Global) -> Places
        ensures { (h : model.Head) → held result h ≡ None }
    {
        Places {
            zero: None,
            successor: None,
            constructors: IndexMap::new(alloc),
        }
    }

    /// The place of what is for a constructor.
    pub(crate) fn find(&self, of: Head) -> Option<Place>
        ensures { result ≡ held self.now (head of) }
    {
        match of {
            Head::Zero => self.zero,
            Head::Successor => self.successor,
            Head::Con(c) => self.constructors.get(&c).copied(),
        }
    }

    /// Whether there is exactly one thing for a constructor.
    pub(crate) fn has_one(&self, of: Head) -> bool
        ensures { result ≡ holds_one self.now (head of) }
    {
        match self.find(of) {
            Some(place) => place.only,
            None => false,
        }
    }

    /// Notes that something for a constructor stands at a place behind all before, and answers whether it is
    /// the first for it.
    pub(crate) fn note(&mut self, of: Head, at: usize) -> Result<bool, AllocError>
        ensures free { IfOk result (λ free. free ≡ not (is_some (held self.old (head of)))) }
        ensures noted { OnOk result ((h : model.Head) → held self.new h ≡ (if same_head (head of) h then Some (noted at (held self.old h)) else held self.old h)) }
    {
        let before = self.find(of);
        let place = next_place(before, at);
        match of {
            Head::Zero => self.zero = Some(place),
            Head::Successor => self.successor = Some(place),
            Head::Con(c) => {
                self.constructors.insert(c, place)?;
            }
        }
        Ok(before.is_none())
    }
}

// The place of what has another one at a place behind.
fn next_place(before: Option<Place>, at: usize) -> Place
    ensures { result ≡ noted at before }
{
    match before {
        None => Place {
            first: at,
            only: true,
        },
        Some(place) => Place {
            first: place.first,
            only: false,
        },
    }
}
