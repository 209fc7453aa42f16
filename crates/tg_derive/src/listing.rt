//! The classes of a theory's inputs.
ghost use Rattle.std.specs.Prelude.{◌≡◌, ◌∷◌, ◌++◌, [], IfOk, OnOk, IfErr, map};
ghost use Rattle.tg_clause.specs.Answers.{literals};
ghost use Rattle.tg_derive.specs.Answers.{Stops};
ghost use Rattle.tg_derive.specs.Classes.{AreClasses, Derived, WorkAt, class_of, whole};
ghost use Rattle.tg_derive.specs.Goals.{start};
ghost use Rattle.tg_derive.specs.Work.{done, Work};
ghost use Rattle.tg_derive.specs.Working.{AreAdded};
ghost use Rattle.tg_hyps.specs.Hypotheses.{seen};
ghost use Rattle.tg_split.specs.Listing.{pattern};
ghost use Rattle.tg_split.specs.Patterns.{patterns};
ghost use Rattle.tg_split.specs.Sizes.{counted};

use crate::budgets::Left;
use crate::errors::LimitErr;
use crate::working::work_from;
use std::alloc::{AllocError, Global};
use tg_clause::{Clause, class_of, minimise};
use tg_split::{count, patterns};
use tg_term::{Class, Pattern, subst};
use tg_theory::Theory;

/// There are no more patterns.
const MAX_PATTERNS: u64 = 4096;

/// The classes of the inputs of a theory's program to a depth, in the order of patterns, leaves and clauses. Each is the
/// class of a clause of its pattern that no other one makes superfluous.
///
/// An error is the first limit that is passed in the order of work: the patterns are counted; then, pattern by pattern,
/// the split tree is worked through in preorder, the child in which the condition is met before the other, with the
/// clauses of a leaf when it is reached. Calls that normalise, inner nodes and clauses are counted over all patterns.
#[tactic(auto, using(crate::proofs::ListingLaws::counting))]
pub fn classes(alloc: Global, th: &Theory, depth: u8) -> Result<Vec<Class>, LimitErr>
    ensures classes { IfOk result (λ cs. AreClasses th.now depth (map seen cs.items)) }
    ensures limit { IfErr result (Stops (Derived th.now depth)) }
{
    if number_of_patterns(th, depth) > MAX_PATTERNS {
        return Err(LimitErr::Patterns);
    }
    let ps = all_patterns(alloc, th, depth)?;
    let cs = classes_at(alloc, th, ps.as_slice())?;
    Ok(cs)
}

/// The number of the patterns. It stands apart, so that the tables that are kept while patterns are counted aren't on the
/// stack while the classes are made.
#[inline(never)]
fn number_of_patterns(th: &Theory, depth: u8) -> u64
    ensures { result ≡ counted (patterns th.now depth) }
{
    count(th, depth)
}

/// The patterns, apart for the same reason.
#[inline(never)]
fn all_patterns(alloc: Global, th: &Theory, depth: u8) -> Result<Vec<Pattern>, AllocError>
    ensures { IfOk result (λ ps. map pattern ps.items ≡ patterns th.now depth) }
{
    patterns(alloc, th, depth)
}

/// The classes of the patterns.
#[tactic(auto, using(crate::proofs::ListingLaws::listing))]
fn classes_at(alloc: Global, th: &Theory, ps: &[Pattern]) -> Result<Vec<Class>, LimitErr>
    ensures classes { IfOk result (λ cs. (left : _) × WorkAt th.now whole (map pattern ps.now) (done (map seen cs.items) left)) }
    ensures limit { IfErr result (Stops (WorkAt th.now whole (map pattern ps.now))) }
{
    let mut left = Left::WHOLE;
    let mut cs = Vec::new(alloc);
    for p in ps {
        add_classes(alloc, th, &mut left, &mut cs, p)?;
    }
    Ok(cs)
}

/// Adds the classes of a pattern.
#[tactic(auto, using(crate::proofs::ListingLaws::starting))]
fn add_classes(
    alloc: Global,
    th: &Theory,
    left: &mut Left,
    cs: &mut Vec<Class>,
    p: &Pattern,
) -> Result<(), LimitErr>
    ensures ok { OnOk result (AreAdded th.now left.old left.new (pattern p.now) (map seen cs.old.items) (map seen cs.new.items)) }
    ensures limit { IfErr result (Stops (Work th.now left.old (start th.now (pattern p.now) ∷ []))) }
{
    let start = subst(alloc, th.specification(), p.terms.as_slice())?;
    let found = work_from(alloc, th, left, start)?;
    let kept = minimise(alloc, found)?;
    append_classes(alloc, cs, p, kept.as_slice())?;
    Ok(())
}

#[tactic(auto, using(crate::proofs::ListingLaws::adding))]
fn append_classes(
    alloc: Global,
    cs: &mut Vec<Class>,
    p: &Pattern,
    clauses: &[Clause],
) -> Result<(), AllocError>
    ensures { OnOk result (map seen cs.new.items ≡ map seen cs.old.items ++ map (class_of (pattern p.now)) (map literals clauses.now)) }
{
    for c in clauses {
        cs.push(class_of(alloc, p, c)?)?;
    }
    Ok(())
}
