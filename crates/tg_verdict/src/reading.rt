//! Outcomes read record by record.
ghost use Rattle.std.specs.Prelude.{◌≡◌, ◌↔◌, IsTrue, ◌∷◌, ◌++◌, [], IfOk, IfErr, OnOk, map};
ghost use Rattle.tg_accept.specs.Standing.{declared_in};
ghost use Rattle.tg_infer.specs.Words.{AreWordsOf};
ghost use Rattle.tg_verdict.specs.Places.{test_number, HaveSame};
ghost use Rattle.tg_verdict.specs.Records.{in_order, AreOutcomes, Stops, AreRecords, RecordsStop, IsRecord, RecordStops};

use crate::errors::OutcomeErr;
use crate::places::Places;
use std::alloc::{AllocError, Global};
use tg_grammar::{RawItem, RawOutcomes};
use tg_infer::Words;
use tg_standing::{value_of, words_of};
use tg_term::{Outcome, Test};
use tg_theory::Theory;
use tg_types::Settings;

/// The outcomes of these tests, in the order of their records.
///
/// `Settings` comes exactly where the header states other settings than these. Else `Unknown`, `Repeated` and `BadAnswer` come
/// exactly where a record has such a fault, at the first record that has one: it is of no test, or else of a test that has a
/// record before it, or else its answer is no value of the program's answer type.
pub fn read(
    alloc: Global,
    th: &Theory,
    s: &Settings,
    tests: &[Test],
    raw: &RawOutcomes,
) -> Result<Vec<Outcome>, OutcomeErr>
    ensures outcomes { IfOk result (λ os. AreOutcomes th.now s.now (map test_number tests.now) raw.now os.items) }
    ensures stop { IfErr result (Stops th.now s.now (map test_number tests.now) raw.now) }
{
    let used = in_order(s);
    if !are_stated(raw, &used) {
        return Err(OutcomeErr::Settings {
            stated: raw.settings,
            used,
        });
    }
    let known = numbers_of(alloc, tests)?;
    let words = words_of(alloc, th)?;
    match records(alloc, th, &words, &known, raw.items.as_slice()) {
        Ok(outcomes) => Ok(outcomes),
        Err(error) => Err(error),
    }
}

/// Whether the header states these settings.
fn are_stated(raw: &RawOutcomes, used: &[u64; 5]) -> bool
    ensures { IsTrue result ↔ (raw.now.settings ≡ used.now) }
{
    raw.settings == *used
}

/// The settings in the order of a header.
fn in_order(s: &Settings) -> [u64; 5]
    ensures { result ≡ in_order s.now }
{
    [
        u64::from(s.depth),
        u64::from(s.bound),
        s.seed,
        u64::from(s.tries),
        u64::from(s.width),
    ]
}

/// The numbers of tests.
#[tactic(auto, using(crate::proofs::PlaceLaws::gathering))]
fn numbers_of(alloc: Global, tests: &[Test]) -> Result<Places, AllocError>
    ensures { IfOk result (λ ns. HaveSame ns (map test_number tests.now)) }
{
    let mut numbers = Places::new(alloc);
    for test in tests {
        numbers.add(u64::from(test.class))?;
    }
    Ok(numbers)
}

/// The outcomes of records.
#[tactic(auto, using(crate::proofs::RecordLaws::recording))]
fn records(
    alloc: Global,
    th: &Theory,
    words: &Words,
    known: &Places,
    items: &[RawItem],
) -> Result<Vec<Outcome>, OutcomeErr>
    requires { AreWordsOf words.now (declared_in th.now) }
    ensures outcomes { IfOk result (λ os. AreRecords th.now known.now [] items.now os.items) }
    ensures stop { IfErr result (RecordsStop th.now known.now [] items.now) }
{
    let mut before = Places::new(alloc);
    let mut outcomes = Vec::new(alloc);
    for item in items {
        let outcome = record(alloc, th, words, known, &before, item)?;
        add(&mut outcomes, outcome)?;
        before.add(item.test)?;
    }
    Ok(outcomes)
}

/// Adds an outcome.
fn add(outcomes: &mut Vec<Outcome>, outcome: Outcome) -> Result<(), AllocError>
    ensures { OnOk result (outcomes.new.items ≡ outcomes.old.items ++ outcome ∷ []) }
{
    outcomes.push(outcome)?;
    Ok(())
}

/// The outcome of a record behind others, whose numbers are `before`.
fn record(
    alloc: Global,
    th: &Theory,
    words: &Words,
    known: &Places,
    before: &Places,
    item: &RawItem,
) -> Result<Outcome, OutcomeErr>
    requires { AreWordsOf words.now (declared_in th.now) }
    ensures outcome { IfOk result (IsRecord th.now known.now before.now item.now) }
    ensures stop { IfErr result (RecordStops th.now known.now before.now item.now) }
{
    let n = item.test;
    if !known.contains(n) {
        return Err(OutcomeErr::Unknown { n });
    }
    if before.contains(n) {
        return Err(OutcomeErr::Repeated { n });
    }
    let test = u32::try_from(n).map_err(|_| OutcomeErr::Memory)?;
    match &item.answer {
        Some(raw) => match value_of(alloc, words, th, &th.program().answer, raw)? {
            Some(answer) => Ok(Outcome {
                test,
                answer: Some(answer),
            }),
            None => Err(OutcomeErr::BadAnswer { n }),
        },
        None => Ok(Outcome { test, answer: None }),
    }
}
