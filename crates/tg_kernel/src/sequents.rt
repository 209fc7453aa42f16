//! Sequents.
ghost use Rattle.std.specs.Prelude.{◌≡◌, IfOk};
ghost use Rattle.tg_kernel.specs.Sequents.{sequent};

use crate::contexts::Context;
use crate::hypotheses::Hypotheses;
use std::alloc::AllocError;
use tg_term::Formula;

/// A sequent: its goal follows from its hypotheses, at all values of its variables.
#[derive(Debug, Drop)]
pub struct Sequent {
    /// The types of the variables, that of `?1` first.
    pub vars: Context,
    /// The hypotheses, in the order in which a line keeps them.
    pub hyps: Hypotheses,
    /// The goal.
    pub goal: Formula,
}

impl Sequent {
    /// An equal sequent, which shares its parts with this one. It takes no memory.
    pub fn share(&self) -> Result<Sequent, AllocError>
        ensures { IfOk result (λ s. sequent s ≡ sequent self.now) }
    {
        Ok(Sequent {
            vars: self.vars.share()?,
            hyps: self.hyps.share()?,
            goal: self.goal.share()?,
        })
    }
}
