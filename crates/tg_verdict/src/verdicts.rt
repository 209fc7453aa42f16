//! The verdicts on classes.
ghost use Rattle.std.specs.Prelude.{◌≡◌, Some, IfOk, map, option_copied};
ghost use Rattle.tg_eval.specs.Answering.{answered};
ghost use Rattle.tg_hyps.specs.Hypotheses.{seen};
ghost use Rattle.tg_term.specs.Values.{value};
ghost use Rattle.tg_verdict.specs.Places.{AreOnce, test_number, outcome_number, test_of, outcome_of};
ghost use Rattle.tg_verdict.specs.Verdicts.{AreVerdicts, IsVerdict, IsAnswered, verdict_at, verdict_by};

use crate::places::Places;
use std::alloc::{AllocError, Global};
use tg_eval::{Limited, value};
use tg_hyps::any_of;
use tg_term::{Class, Outcome, Term, Test, Value, matches};
use tg_theory::Theory;
use tg_types::Verdict;

/// The verdict on each class, by its test and that test's outcome: `NoDatum` where it has no test, `Missing` where the test has
/// no outcome, `Raised` where the program raised an error. Else the disjunction of the checks is evaluated at the datum, where each
/// program call has the recorded answer, and the verdict is `Passed` where it is True, `Undecided` where a bound of the evaluation is
/// passed, and `Failed` otherwise. So a class without checks is `Failed` at any answer.
#[tactic(auto, using(crate::proofs::VerdictLaws::judging))]
pub fn judge(
    alloc: Global,
    th: &Theory,
    classes: &[Class],
    tests: &[Test],
    list: &[Outcome],
) -> Result<Vec<Verdict>, AllocError>
    requires tests { AreOnce (map test_number tests.now) }
    requires outcomes { AreOnce (map outcome_number list.now) }
    ensures { IfOk result (λ vs. AreVerdicts th.now tests.now list.now 1 (map seen classes.now) vs.items) }
{
    let tested = places_of_tests(alloc, tests)?;
    let recorded = places_of_outcomes(alloc, list)?;
    let mut verdicts = Vec::new(alloc);
    for (at, c) in classes.iter().enumerate() {
        let number = at as u64 + 1;
        let test = test_of(tests, &tested, number);
        let outcome = outcome_of(list, &recorded, number);
        verdicts.push(verdict(alloc, th, c, test, outcome)?)?;
    }
    Ok(verdicts)
}

/// The numbers of tests.
#[tactic(auto, using(crate::proofs::PlaceLaws::placing))]
fn places_of_tests(alloc: Global, tests: &[Test]) -> Result<Places, AllocError>
    requires { AreOnce (map test_number tests.now) }
    ensures { IfOk result (λ ns. ns ≡ map test_number tests.now) }
{
    let mut numbers = Places::new(alloc);
    for test in tests {
        numbers.add(u64::from(test.class))?;
    }
    Ok(numbers)
}

/// The numbers of outcomes.
#[tactic(auto, using(crate::proofs::PlaceLaws::placing))]
fn places_of_outcomes(alloc: Global, list: &[Outcome]) -> Result<Places, AllocError>
    requires { AreOnce (map outcome_number list.now) }
    ensures { IfOk result (λ ns. ns ≡ map outcome_number list.now) }
{
    let mut numbers = Places::new(alloc);
    for outcome in list {
        numbers.add(u64::from(outcome.test))?;
    }
    Ok(numbers)
}

/// The test of the class of this number, by the tests' numbers.
#[tactic(auto, using(crate::proofs::PlaceLaws::finding))]
fn test_of<'a>(tests: &'a [Test], numbers: &Places, number: u64) -> Option<&'a Test>
    requires once { AreOnce (map test_number tests.now) }
    requires numbers { numbers.now ≡ map test_number tests.now }
    ensures { option_copied result ≡ test_of tests.now number }
{
    match numbers.place(number) {
        Some(at) => Some(&tests[at]),
        None => None,
    }
}

/// The outcome of the test of this number, by the outcomes' numbers.
#[tactic(auto, using(crate::proofs::PlaceLaws::finding))]
fn outcome_of<'a>(list: &'a [Outcome], numbers: &Places, number: u64) -> Option<&'a Outcome>
    requires once { AreOnce (map outcome_number list.now) }
    requires numbers { numbers.now ≡ map outcome_number list.now }
    ensures { option_copied result ≡ outcome_of list.now number }
{
    match numbers.place(number) {
        Some(at) => Some(&list[at]),
        None => None,
    }
}

/// The verdict on a class by its test and the outcome.
fn verdict(
    alloc: Global,
    th: &Theory,
    c: &Class,
    test: Option<&Test>,
    outcome: Option<&Outcome>,
) -> Result<Verdict, AllocError>
    ensures { IfOk result (IsVerdict th.now (seen c.now) (option_copied test.entry) (option_copied outcome.entry)) }
{
    let Some(test) = test else {
        return Ok(Verdict::NoDatum);
    };
    let Some(outcome) = outcome else {
        return Ok(Verdict::Missing);
    };
    match &outcome.answer {
        Some(answer) => verdict_on(alloc, th, c, test.datum.as_slice(), answer),
        None => Ok(Verdict::Raised),
    }
}

/// The verdict where the program has answered at a datum.
fn verdict_on(
    alloc: Global,
    th: &Theory,
    c: &Class,
    datum: &[Value],
    answer: &Value,
) -> Result<Verdict, AllocError>
    ensures { IfOk result (IsAnswered th.now (seen c.now) (map value datum.now) (Some (value answer.now))) }
{
    match matches(alloc, &c.pattern, datum)? {
        Some(values) => verdict_at(alloc, th, c.checks.as_slice(), values.as_slice(), answer),
        None => Ok(Verdict::Undecided),
    }
}

/// The verdict by checks at values of the variables.
fn verdict_at(
    alloc: Global,
    th: &Theory,
    checks: &[Term],
    values: &[Value],
    answer: &Value,
) -> Result<Verdict, AllocError>
    ensures { IfOk result (λ v. v ≡ verdict_at th.now checks.now (map value values.now) (value answer.now)) }
{
    let some = any_of(alloc, checks)?;
    let limited = value(alloc, th, values, Some(answer), &some)?;
    Ok(verdict_by(&limited))
}

/// The verdict by a limited value.
fn verdict_by(limited: &Limited) -> Verdict
    ensures { result ≡ verdict_by (answered limited.now) }
{
    match limited {
        Limited::Val(Value::Bool(true)) => Verdict::Passed,
        Limited::Val(_) => Verdict::Failed,
        Limited::Over => Verdict::Undecided,
    }
}
