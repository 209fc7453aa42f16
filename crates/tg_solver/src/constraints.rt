//! Whether constraints hold at values.
ghost use Rattle.std.specs.Prelude.{◌≡◌, [], IfOk};
ghost use Rattle.std.specs.List.{list_all};
ghost use Rattle.tg_accept.specs.Declared.{theory};
ghost use Rattle.tg_solver.specs.Candidates.{holds, satisfies};

use std::alloc::{AllocError, Global};
use tg_declarations::Declarations;
use tg_eval::{Held, limited_truth};
use tg_term::Term;

/// Whether the limited value of a constraint is True.
#[tactic(auto, using(crate::proofs::HoldLaws::holding))]
fn holds(
    alloc: Global,
    declared: &Declarations,
    vars: &[Held],
    t: &Term,
) -> Result<bool, AllocError>
    ensures { IfOk result (λ b. b ≡ holds (theory [] declared.now) vars.now t.now) }
{
    let b = limited_truth(alloc, declared, vars, t)?;
    Ok(b)
}

/// Whether the limited value of each constraint is True. None is evaluated after the first one of which it isn't.
#[tactic(auto, using(crate::proofs::HoldLaws::all_hold))]
pub(crate) fn all_hold(
    alloc: Global,
    declared: &Declarations,
    vars: &[Held],
    constraints: &[Term],
) -> Result<bool, AllocError>
    ensures { IfOk result (λ b. b ≡ satisfies (theory [] declared.now) constraints.now vars.now) }
{
    for t in constraints {
        if !holds(alloc, declared, vars, t)? {
            return Ok(false);
        }
    }
    Ok(true)
}
