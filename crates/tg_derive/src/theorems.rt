//! The hypotheses of the test theorem.
ghost use Rattle.std.specs.Prelude.{◌≡◌, ◌≤◌, ◌∷◌, ◌++◌, [], IfOk, OnOk, length, map};
ghost use Rattle.tg_calculus.specs.Theorem.{IsTheorem};
ghost use Rattle.tg_derive.specs.Classes.{AreClasses};
ghost use Rattle.tg_derive.specs.Derivability.{AreComputed};
ghost use Rattle.tg_derive.specs.Theorem.{labelled, hypotheses_of, of_class, of_classes, formulas, theorem_of};
ghost use Rattle.tg_kernel.specs.Sequents.{sequent};
ghost use Rattle.tg_derive.specs.Answers.{choice_of, label_of, hypothesis};
ghost use Rattle.tg_hyps.specs.Hypotheses.{seen};

use sqlite_items::Items;
use std::alloc::{AllocError, Global};
use tg_hyps::{conclusion, open_class, regularity, test, uniformity};
use tg_kernel::{Context, Hypotheses, Sequent};
use tg_term::{Class, Formula, Value};
use tg_theory::Theory;

/// What stands for a class in the theorem.
#[derive(Debug, Drop)]
pub enum Choice {
    /// It is tested at these values of its variables, that of `Free(1)` first.
    Tested(Items<Value>),
    /// It is assumed to be true.
    Assumed,
}

/// What a hypothesis is, with the number of its class, from 1.
#[derive(Clone, Copy, Debug, PartialEq, Eq)]
pub enum Label {
    /// The test of a tested class.
    Test(usize),
    /// The uniformity of a tested class.
    Uniformity(usize),
    /// The open class of an assumed one.
    OpenClass(usize),
    /// The regularity of the theory.
    Regularity,
}

/// A hypothesis of the theorem.
#[derive(Debug, Drop)]
pub struct Hypothesis {
    /// What it is.
    pub label: Label,
    /// What it says.
    pub formula: Formula,
}

/// The hypotheses of the test theorem of these classes, in order: class by class the test and the uniformity of a tested
/// one, or the open class of an assumed one; then the regularity, where there is one.
pub fn hypotheses(
    alloc: Global,
    th: &Theory,
    depth: u8,
    classes: &[Class],
    choices: &[Choice],
) -> Result<Vec<Hypothesis>, AllocError>
    requires { length classes.now ≡ length choices.now }
    ensures { IfOk result (λ hs. map hypothesis hs.items ≡ hypotheses_of th.now depth (map seen classes.now) (map choice_of choices.now)) }
{
    let mut hs = of_classes(alloc, classes, choices)?;
    if let Some(f) = regularity(alloc, th, depth)? {
        add(&mut hs, Label::Regularity, f)?;
    }
    Ok(hs)
}

#[tactic(auto, using(crate::proofs::HypothesisLaws::numbering))]
fn of_classes(
    alloc: Global,
    classes: &[Class],
    choices: &[Choice],
) -> Result<Vec<Hypothesis>, AllocError>
    requires { length classes.now ≡ length choices.now }
    ensures { IfOk result (λ hs. map hypothesis hs.items ≡ of_classes 1 (map seen classes.now) (map choice_of choices.now)) }
{
    let mut hs = Vec::new(alloc);
    for (at, c) in classes.iter().enumerate() {
        add_class(alloc, &mut hs, at + 1, c, &choices[at])?;
    }
    Ok(hs)
}

/// Adds the hypotheses of a class.
#[tactic(auto, using(crate::proofs::HypothesisLaws::adding))]
fn add_class(
    alloc: Global,
    hs: &mut Vec<Hypothesis>,
    number: usize,
    c: &Class,
    choice: &Choice,
) -> Result<(), AllocError>
    ensures { OnOk result (map hypothesis hs.new.items ≡ map hypothesis hs.old.items ++ of_class number (seen c.now) (choice_of choice.now)) }
{
    match choice {
        Choice::Tested(values) => {
            add(hs, Label::Test(number), test(alloc, c, values.as_slice())?)?;
            add(hs, Label::Uniformity(number), uniformity(alloc, c)?)
        }
        Choice::Assumed => add(hs, Label::OpenClass(number), open_class(alloc, c)?),
    }
}

fn add(hs: &mut Vec<Hypothesis>, label: Label, formula: Formula) -> Result<(), AllocError>
    ensures { OnOk result (map hypothesis hs.new.items ≡ map hypothesis hs.old.items ++ labelled (label_of label) formula ∷ []) }
{
    hs.push(Hypothesis { label, formula })?;
    Ok(())
}

/// The test theorem of these classes, as a sequent without variables: from the hypotheses, the specification at every tested
/// input. It has a derivation, its hypotheses compared as sets, where the classes are those of the theory to the depth, and the
/// constraints of each tested class compute to True at its values.
pub fn goal(
    alloc: Global,
    th: &Theory,
    depth: u8,
    classes: &[Class],
    choices: &[Choice],
) -> Result<Sequent, AllocError>
    requires { length classes.now ≡ length choices.now }
    ensures theorem { IfOk result (λ s. sequent s ≡ theorem_of th.now depth (map seen classes.now) (map choice_of choices.now)) }
    ensures derivable { 1 ≤ depth → AreClasses th.now depth (map seen classes.now) → AreComputed th.now (map seen classes.now) (map choice_of choices.now)
        → IfOk result (λ s. IsTheorem th.now [] (sequent s).hypotheses (sequent s).goal) }
{
    th.accepted();
    let hs = hypotheses(alloc, th, depth, classes, choices)?;
    let hyps = formulas(alloc, hs.as_slice())?;
    let goal = conclusion(alloc, th)?;
    Ok(Sequent {
        vars: Context::new(alloc, Items::new(alloc))?,
        hyps: Hypotheses::new(alloc, hyps)?,
        goal,
    })
}

/// The formulas of hypotheses.
#[tactic(auto, using(crate::proofs::HypothesisLaws::sequents))]
fn formulas(alloc: Global, hs: &[Hypothesis]) -> Result<Items<Formula>, AllocError>
    ensures { IfOk result (λ fs. fs ≡ formulas (map hypothesis hs.now)) }
{
    let mut fs = Items::new(alloc);
    for h in hs {
        fs.push(h.formula.share()?)?;
    }
    Ok(fs)
}
