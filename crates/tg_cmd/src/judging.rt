//! Tests of classes, and what verdicts on them mean for the theorem.
ghost use Rattle.std.specs.Prelude.{◌≡◌, ◌++◌, IfOk, OnOk, length, map};
ghost use Rattle.tg_cmd.specs.Judging.{tested_if_passed, choices_by_verdicts};
ghost use Rattle.tg_cmd.specs.Lines.{number_of, once, count_of};
ghost use Rattle.tg_cmd.specs.Output.{ending_on};
ghost use Rattle.tg_cmd.specs.Answers.{answer_after};
ghost use Rattle.tg_cmd.specs.Tests.{test_at, tests_at};
ghost use Rattle.tg_harness.specs.Tests.{test};
ghost use Rattle.tg_derive.specs.Answers.{choice_of};
ghost use Rattle.tg_hyps.specs.Hypotheses.{seen};

use crate::answer::Ending;
use sqlite_items::Items;
use std::alloc::{AllocError, Global};
use tg_derive::Choice;
use tg_term::{Class, Test, Value, copy_value, fill};
use tg_types::Verdict;

/// The tests of the classes that have a datum, in their order.
#[tactic(auto, using(crate::proofs::TestLaws::testing))]
pub(crate) fn tests_of(
    alloc: Global,
    classes: &[Class],
    choices: &[Choice],
) -> Result<Vec<Test>, AllocError>
    requires { length classes.now ≡ length choices.now }
    ensures { IfOk result (λ ts. map test ts.items ≡ tests_at 1 (map seen classes.now) (map choice_of choices.now)) }
{
    let mut tests = Vec::new(alloc);
    for (at, c) in classes.iter().enumerate() {
        let number = u32::try_from(at + 1).map_err(|_| AllocError)?;
        add_test(alloc, &mut tests, number, c, &choices[at])?;
    }
    Ok(tests)
}

/// Adds the test of the class of this number, if it has a datum.
#[tactic(auto, using(crate::proofs::TestLaws::adding))]
fn add_test(
    alloc: Global,
    tests: &mut Vec<Test>,
    number: u32,
    c: &Class,
    choice: &Choice,
) -> Result<(), AllocError>
    ensures { OnOk result (map test tests.new.items ≡ map test tests.old.items ++ test_at number (seen c.now) (choice_of choice.now)) }
{
    match choice {
        Choice::Tested(values) => {
            let datum = Items::from_vec(fill(alloc, &c.pattern, values.as_slice())?);
            tests.push(Test {
                class: number,
                datum,
            })?;
            Ok(())
        }
        Choice::Assumed => Ok(()),
    }
}

/// What stands for the classes in the theorem once they are judged: those that passed are tested, and all others are assumed.
#[tactic(auto, using(crate::proofs::TestLaws::choosing))]
pub(crate) fn choices_by_verdicts(
    alloc: Global,
    choices: &[Choice],
    verdicts: &[Verdict],
) -> Result<Vec<Choice>, AllocError>
    requires { length choices.now ≡ length verdicts.now }
    ensures { IfOk result (λ xs. map choice_of xs.items ≡ choices_by_verdicts (map choice_of choices.now) verdicts.now) }
{
    let mut chosen = Vec::new(alloc);
    for (at, choice) in choices.iter().enumerate() {
        chosen.push(tested_if_passed(alloc, verdicts[at], choice)?)?;
    }
    Ok(chosen)
}

fn tested_if_passed(alloc: Global, verdict: Verdict, choice: &Choice) -> Result<Choice, AllocError>
    ensures { IfOk result (λ x. choice_of x ≡ tested_if_passed verdict (choice_of choice.now)) }
{
    match verdict {
        Verdict::Passed => copied(alloc, choice),
        _ => Ok(Choice::Assumed),
    }
}

/// The same choice.
fn copied(alloc: Global, choice: &Choice) -> Result<Choice, AllocError>
    ensures { IfOk result (λ x. choice_of x ≡ choice_of choice.now) }
{
    match choice {
        Choice::Tested(values) => Ok(Choice::Tested(copied_values(alloc, values.as_slice())?)),
        Choice::Assumed => Ok(Choice::Assumed),
    }
}

fn copied_values(alloc: Global, values: &[Value]) -> Result<Items<Value>, AllocError>
    ensures { IfOk result (λ vs. vs ≡ values.now) }
{
    let mut copy = Items::new(alloc);
    for v in values {
        copy.push(copy_value(alloc, v)?)?;
    }
    Ok(copy)
}

/// How many verdicts are this one.
pub(crate) fn count_of(verdicts: &[Verdict], wanted: Verdict) -> usize
    ensures { result ≡ count_of wanted verdicts.now }
{
    let mut count = 0;
    for v in verdicts {
        count += once(wanted, *v);
    }
    count
}

fn once(wanted: Verdict, verdict: Verdict) -> usize
    ensures { result ≡ once wanted verdict }
{
    if number_of(verdict) == number_of(wanted) {
        1
    } else {
        0
    }
}

fn number_of(verdict: Verdict) -> u8
    ensures { result ≡ number_of verdict }
{
    match verdict {
        Verdict::Passed => 0,
        Verdict::Failed => 1,
        Verdict::Undecided => 2,
        Verdict::Raised => 3,
        Verdict::Missing => 4,
        Verdict::NoDatum => 5,
    }
}

/// How a run ends whose classes have these verdicts.
pub(crate) fn ending_on(verdicts: &[Verdict]) -> Ending
    ensures { answer_after result ≡ ending_on verdicts.now }
{
    if count_of(verdicts, Verdict::Failed) == 0 {
        Ending::Done
    } else {
        Ending::TestsFailed
    }
}
