//! The variables of a class with the constraints that each decides.
ghost use Rattle.std.specs.Prelude.{◌≡◌, IfOk, map, length};
ghost use Rattle.tg_solver.specs.Walk.{last_used, decided_by, stages_from};

use sqlite_items::Items;
use std::alloc::{AllocError, Global};
use tg_term::{Term, uses};

/// A variable, and the constraints that use it and no later one: its value decides them.
#[derive(Debug, Drop)]
pub(crate) struct Stage {
    /// Whether it is a truth variable.
    pub(crate) truth: bool,
    /// In the order in which the class has them.
    pub(crate) decided: Items<Term>,
}

/// The last of the first `count` variables that the term uses, and 0 where it uses none.
#[tactic(auto, using(crate::proofs::StageLaws::last))]
fn last_used(count: u32, t: &Term) -> u32
    ensures { result ≡ last_used count t.now }
{
    let mut number = count;
    while number > 0 && !uses(t, number) {
        number -= 1;
    }
    number
}

/// For each term the last variable that it uses.
pub(crate) fn all_last_used(
    alloc: Global,
    count: u32,
    terms: &[Term],
) -> Result<Vec<u32>, AllocError>
    ensures { IfOk result (λ ns. ns.items ≡ map (last_used count) terms.now) }
{
    let mut out = Vec::new(alloc);
    for t in terms {
        out.push(last_used(count, t))?;
    }
    Ok(out)
}

/// The constraints whose last variable is that of the number, where `lasts` has the last variable of each.
#[tactic(auto, using(crate::proofs::StageLaws::deciding))]
pub(crate) fn decided_by(
    alloc: Global,
    count: u32,
    number: u32,
    constraints: &[Term],
    lasts: &[u32],
) -> Result<Items<Term>, AllocError>
    requires { lasts.now ≡ map (last_used count) constraints.now }
    ensures { IfOk result (λ ts. ts ≡ decided_by count number constraints.now) }
{
    let mut out = Items::new(alloc);
    for (i, t) in constraints.iter().enumerate() {
        if lasts[i] == number {
            out.push(t.share()?)?;
        }
    }
    Ok(out)
}

/// Each variable with the constraints that it decides.
pub(crate) fn stages(
    alloc: Global,
    count: u32,
    truths: &[bool],
    constraints: &[Term],
    lasts: &[u32],
) -> Result<Items<Stage>, AllocError>
    requires counted { length truths.now ≡ count }
    requires placed { lasts.now ≡ map (last_used count) constraints.now }
    ensures { IfOk result (λ ss. ss ≡ stages_from count 1 truths.now constraints.now) }
{
    let mut out = Items::new(alloc);
    let mut number: u32 = 0;
    for truth in truths {
        number += 1;
        let decided = decided_by(alloc, count, number, constraints, lasts)?;
        out.push(Stage {
            truth: *truth,
            decided,
        })?;
    }
    Ok(out)
}

/// The constraints in the order in which a walk evaluates them.
#[derive(Debug, Drop)]
pub(crate) struct Plan {
    /// Those that use no variable.
    pub(crate) ground: Items<Term>,
    /// The others, by the last variable that they use.
    pub(crate) stages: Items<Stage>,
}

/// The constraints in the order of a walk. More than 2^32 - 1 variables are answered as want of memory.
pub(crate) fn planned(
    alloc: Global,
    truths: &[bool],
    constraints: &[Term],
) -> Result<Plan, AllocError>
    ensures ground { IfOk result (λ p. p.ground ≡ decided_by (length truths.now) 0 constraints.now) }
    ensures stages { IfOk result (λ p. p.stages ≡ stages_from (length truths.now) 1 truths.now constraints.now) }
{
    let count = u32::try_from(truths.len()).ok().ok_or(AllocError)?;
    let lasts = all_last_used(alloc, count, constraints)?;
    let ground = decided_by(alloc, count, 0, constraints, lasts.as_slice())?;
    let stages = stages(alloc, count, truths, constraints, lasts.as_slice())?;
    Ok(Plan { ground, stages })
}
