//! What a rule makes of its premises, before it is asked what has a type.
ghost use Rattle.std.specs.Prelude.{◌≡◌, IfOk, [], ◌∷◌, None, Some};
ghost use Rattle.tg_calculus.specs.Draft.{always};
ghost use Rattle.tg_calculus.specs.Sequent.{◌│◌⊢◌};
ghost use Rattle.tg_kernel.specs.Drafts.{made, need};

use crate::contexts::Context;
use crate::hypotheses::Hypotheses;
use crate::sequents::Sequent;
use std::alloc::AllocError;
use tg_term::{Formula, Term};
use tg_types::Ty;

/// What must be so for a conclusion.
#[derive(Debug, Drop)]
pub(crate) enum Need {
    /// The types are closed.
    Closed(Context),
    /// The formula is well formed in the context.
    Formed(Context, Formula),
    /// The term has the type in the context.
    Typed(Context, Term, Ty),
}

/// A conclusion, and what is needed for it.
#[derive(Debug, Drop)]
pub(crate) struct Draft {
    pub(crate) first: Option<Need>,
    pub(crate) second: Option<Need>,
    pub(crate) conclusion: Sequent,
}

/// The draft of a rule, or `None` where the premises aren't those of the rule.
pub(crate) type Drafted = Result<Option<Draft>, AllocError>;

/// A conclusion for which nothing is needed.
pub(crate) fn concluded(vars: Context, hyps: Hypotheses, goal: Formula) -> Drafted
    ensures { IfOk result (λ o. made o ≡ always [] (vars │ hyps ⊢ goal)) }
{
    Ok(Some(Draft {
        first: None,
        second: None,
        conclusion: Sequent { vars, hyps, goal },
    }))
}

/// A conclusion for which one thing is needed.
pub(crate) fn with_need(first: Need, vars: Context, hyps: Hypotheses, goal: Formula) -> Drafted
    ensures { IfOk result (λ o. made o ≡ always (need first ∷ []) (vars │ hyps ⊢ goal)) }
{
    Ok(Some(Draft {
        first: Some(first),
        second: None,
        conclusion: Sequent { vars, hyps, goal },
    }))
}

/// A conclusion for which two things are needed.
pub(crate) fn with_needs(
    first: Need,
    second: Need,
    vars: Context,
    hyps: Hypotheses,
    goal: Formula,
) -> Drafted
    ensures { IfOk result (λ o. made o ≡ always (need first ∷ need second ∷ []) (vars │ hyps ⊢ goal)) }
{
    Ok(Some(Draft {
        first: Some(first),
        second: Some(second),
        conclusion: Sequent { vars, hyps, goal },
    }))
}
