ghost use Rattle.std.specs.Prelude.{◌≡◌, ◌≤◌, All, length, map, IfOk, IfErr, IfSome, OnOk, OnErr};
ghost use Rattle.tg_lex.specs.Answers.{IsFirstFault};
ghost use Rattle.tg_lex.specs.Grammar.{Reads, IsTokenOf};
ghost use Rattle.tg_grammar.specs.Seen.{seen, declarations};
ghost use Rattle.tg_cmd.specs.declared.answer.Refusal.TheVariants as refusals;
ghost use Rattle.tg_cmd.specs.Answers.{answer_after};
ghost use Rattle.tg_cmd.specs.Causes.{longest, IsRefusal, IsLimit, OfInput};
ghost use Rattle.tg_cmd.specs.Output.{IsOutput, IsRead, IsReadInPart, IsStop, IsJudgement, Makes, OfClasses, OfOutcomes, OfTheory, Judged, Checked, IsOutcomeLine};
ghost use Rattle.tg_cmd.specs.Ends.{IsFaultLine, HasTokenLine, IsTheoryLine, IsPassedLine};
ghost use Rattle.tg_infer.specs.TextNames.{IsNamed};
ghost use Rattle.tg_cmd.specs.Data.{choices_by_data};
ghost use Rattle.tg_cmd.specs.Requests.{asked};
ghost use Rattle.tg_cmd.specs.Tests.{tests_at};
ghost use Rattle.tg_derive.specs.Answers.{choice_of};
ghost use Rattle.tg_derive.specs.Classes.{AreClasses};
ghost use Rattle.tg_grammar.specs.Parts as parts;
ghost use Rattle.tg_harness.specs.Tests.{test, record_of};
ghost use Rattle.tg_hyps.specs.Hypotheses as hyps;
ghost use Rattle.tg_verdict.specs.Places.{AreOnce, outcome_number};

use crate::answer::{Answer, Ending, LimitName, Refusal, put_limit, put_refusal};
use crate::certificates::checked_theory;
use crate::data::choices_by_data;
use crate::judging::{ending_on, tests_of};
use crate::making::{Task, make};
use crate::report::judged_report_on;
use crate::request::Request;
use std::alloc::{AllocError, Global};
use tg_derive::{Choice, LimitErr, classes};
use tg_grammar::{RawCert, RawOutcomes, RawTheory, place};
use tg_infer::{TheoryErr, elaborate};
use tg_io::{ReadErr, Source, read_all};
use tg_lex::{LexErr, Token, lex};
use tg_syntax::{FormErr, parse_check, parse_judge, parse_theory};
use tg_term::{Class, Outcome, Test};
use tg_theory::Theory;
use tg_types::Settings;
use tg_verdict::{OutcomeErr, judge, read};

/// How many bytes are read at the most.
const LONGEST: usize = 16_777_216;

/// What a run writes, and how it ends once that is written.
#[derive(Debug, Drop)]
pub(crate) struct Output {
    pub(crate) text: Vec<u8>,
    pub(crate) ending: Ending,
}

/// Memory ran out.
#[derive(Clone, Copy, Debug)]
pub(crate) struct NoMemory;

impl From<AllocError> for NoMemory {
    fn from(_error: AllocError) -> NoMemory {
        NoMemory
    }
}

/// Reads the source and makes the output of the request. At an error, nothing is to be written.
pub(crate) fn make_output<S: Source>(
    alloc: Global,
    request: &Request<'_>,
    source: &mut S,
) -> Result<Output, Answer>
    ensures made { IfOk result (λ o. IfSome (S.left source.old) (λ input. IsOutput (asked request.now) input (answer_after o.ending) o.text.items)) }
    ensures read { OnOk result (IsRead (S.left source.old) (S.left source.new)) }
    ensures part { OnErr result (IsReadInPart (S.left source.old) (S.left source.new)) }
    ensures stop { IfErr result (λ a. IsStop a (S.faults source.old) (S.faults source.new)) }
{
    match read_all(alloc, source, LONGEST) {
        Ok(bytes) => or_memory(output_of(alloc, request, bytes.as_slice())),
        Err(ReadErr::TooLong) => or_memory(limited(alloc, LimitName::Input)),
        Err(ReadErr::Fault) => Err(Answer::ReadFault),
        Err(ReadErr::Memory) => Err(Answer::Memory),
    }
}

fn or_memory(made: Result<Output, NoMemory>) -> Result<Output, Answer>
    ensures ok { IfOk made (λ o. result ≡ Ok o) }
    ensures err { OnErr made (result ≡ Err Answer.Memory) }
{
    match made {
        Ok(output) => Ok(output),
        Err(_) => Err(Answer::Memory),
    }
}

fn output_of(alloc: Global, request: &Request<'_>, bytes: &[u8]) -> Result<Output, NoMemory>
    ensures { length bytes.now ≤ longest → IfOk result (λ o. IsOutput (asked request.now) bytes.now (answer_after o.ending) o.text.items) }
{
    match lex(alloc, bytes) {
        Ok(tokens) => of_tokens(alloc, request, bytes, tokens.as_slice()),
        Err(error) => without_tokens(alloc, bytes, &error),
    }
}

/// The output where the bytes have a first fault.
fn without_tokens(alloc: Global, bytes: &[u8], error: &LexErr) -> Result<Output, NoMemory>
    requires { IsFirstFault bytes.now error.now }
    ensures { IfOk result (λ o. HasTokenLine bytes.now (answer_after o.ending) o.text.items) }
{
    match error {
        LexErr::Byte { before, .. } => wrong_token(alloc, bytes, before.as_slice()),
        LexErr::Comment { before, .. } => wrong_token(alloc, bytes, before.as_slice()),
        LexErr::Number { .. } => limited(alloc, LimitName::Number),
        LexErr::Memory => Err(NoMemory),
    }
}

/// The output where a byte or a comment is wrong behind these tokens.
fn wrong_token(alloc: Global, bytes: &[u8], before: &[Token]) -> Result<Output, NoMemory>
    requires { All (IsTokenOf bytes.now) before.now }
    ensures { IfOk result (λ o. IsRefusal (refusals.Form (declarations (seen bytes.now before.now))) (answer_after o.ending) o.text.items) }
{
    let decl = place(bytes, before);
    refused(alloc, Refusal::Form { decl })
}

fn of_tokens(
    alloc: Global,
    request: &Request<'_>,
    bytes: &[u8],
    tokens: &[Token],
) -> Result<Output, NoMemory>
    requires { Reads bytes.now tokens.now }
    ensures { length bytes.now ≤ longest → IfOk result (λ o. IsOutput (asked request.now) bytes.now (answer_after o.ending) o.text.items) }
{
    match request {
        Request::Generate(settings) => of_theory(alloc, settings, &Task::Report, bytes, tokens),
        Request::Harness(settings) => of_theory(alloc, settings, &Task::Harness, bytes, tokens),
        Request::Judge(settings) => of_outcomes(alloc, settings, bytes, tokens),
        Request::Simulate(name, settings) => {
            of_theory(alloc, settings, &Task::Outcomes(name), bytes, tokens)
        }
        Request::Check => of_certificate(alloc, bytes, tokens),
    }
}

/// The output of a task on the theory that the tokens are.
fn of_theory(
    alloc: Global,
    settings: &Settings,
    task: &Task<'_>,
    bytes: &[u8],
    tokens: &[Token],
) -> Result<Output, NoMemory>
    requires { Reads bytes.now tokens.now }
    ensures { length bytes.now ≤ longest
        → IfOk result (λ o. OfInput parts.Theory (OfTheory (Makes task.now) settings.now) bytes.now (answer_after o.ending) o.text.items) }
{
    match parse_theory(alloc, bytes, tokens) {
        Ok(theory) => worked(alloc, settings, task, &theory),
        Err(error) => without_text(alloc, error),
    }
}

/// The judgement on the theory and the outcomes that the tokens are.
fn of_outcomes(
    alloc: Global,
    settings: &Settings,
    bytes: &[u8],
    tokens: &[Token],
) -> Result<Output, NoMemory>
    requires { Reads bytes.now tokens.now }
    ensures { length bytes.now ≤ longest
        → IfOk result (λ o. OfInput parts.Judge (Judged settings.now) bytes.now (answer_after o.ending) o.text.items) }
{
    match parse_judge(alloc, bytes, tokens) {
        Ok((theory, outcomes)) => judged(alloc, settings, &theory, &outcomes),
        Err(error) => without_text(alloc, error),
    }
}

/// What the certificate proves that the tokens are, on the theory before it.
fn of_certificate(alloc: Global, bytes: &[u8], tokens: &[Token]) -> Result<Output, NoMemory>
    requires { Reads bytes.now tokens.now }
    ensures { length bytes.now ≤ longest
        → IfOk result (λ o. OfInput parts.Check Checked bytes.now (answer_after o.ending) o.text.items) }
{
    match parse_check(alloc, bytes, tokens) {
        Ok((theory, certificate)) => checked(alloc, &theory, &certificate),
        Err(error) => without_text(alloc, error),
    }
}

/// The output where the tokens are no text.
fn without_text(alloc: Global, error: FormErr) -> Result<Output, NoMemory>
    ensures { IfOk result (λ o. IsFaultLine error (answer_after o.ending) o.text.items) }
{
    match error {
        FormErr::Nested => limited(alloc, LimitName::Nesting),
        FormErr::Form { decl } => refused(alloc, Refusal::Form { decl }),
        FormErr::Memory => Err(NoMemory),
    }
}

/// What is made of a theory, or the line that says why there is nothing.
fn worked(
    alloc: Global,
    settings: &Settings,
    task: &Task<'_>,
    read: &RawTheory,
) -> Result<Output, NoMemory>
    requires { IsNamed read.now }
    ensures { IfOk result (λ o. OfTheory (Makes task.now) settings.now read.now (answer_after o.ending) o.text.items) }
{
    match elaborate(alloc, read) {
        Ok(theory) => worked_theory(alloc, settings, task, &theory),
        Err(error) => unaccepted(alloc, error),
    }
}

fn worked_theory(
    alloc: Global,
    settings: &Settings,
    task: &Task<'_>,
    theory: &Theory,
) -> Result<Output, NoMemory>
    ensures { IfOk result (λ o. OfClasses (Makes task.now settings.now theory.now) settings.now.depth theory.now (answer_after o.ending) o.text.items) }
{
    match classes(alloc, theory, settings.depth) {
        Ok(classes) => make(alloc, task, settings, theory, classes.as_slice()),
        Err(error) => without_classes(alloc, error),
    }
}

/// The output where a limit on classes is passed.
fn without_classes(alloc: Global, error: LimitErr) -> Result<Output, NoMemory>
    ensures { IfOk result (λ o. IsPassedLine error (answer_after o.ending) o.text.items) }
{
    match error {
        LimitErr::Patterns => limited(alloc, LimitName::Patterns),
        LimitErr::Splits => limited(alloc, LimitName::Splits),
        LimitErr::Steps => limited(alloc, LimitName::Steps),
        LimitErr::Clauses => limited(alloc, LimitName::Clauses),
        LimitErr::Memory => Err(NoMemory),
    }
}

/// The output where the theory isn't accepted.
fn unaccepted(alloc: Global, error: TheoryErr) -> Result<Output, NoMemory>
    ensures { IfOk result (λ o. IsTheoryLine error (answer_after o.ending) o.text.items) }
{
    match error {
        TheoryErr::TermSize { .. } => limited(alloc, LimitName::TermSize),
        TheoryErr::Name { decl } => refused(alloc, Refusal::Name { decl }),
        TheoryErr::Typing { decl } => refused(alloc, Refusal::Typing { decl }),
        TheoryErr::Ambiguous { decl } => refused(alloc, Refusal::Ambiguous { decl }),
        TheoryErr::Shape { decl } => refused(alloc, Refusal::Shape { decl }),
        TheoryErr::Program { decl } => refused(alloc, Refusal::Program { decl }),
        TheoryErr::Memory => Err(NoMemory),
    }
}

/// What a certificate proves on a theory, or the line that says why there is nothing.
fn checked(alloc: Global, read: &RawTheory, certificate: &RawCert) -> Result<Output, NoMemory>
    requires { IsNamed read.now }
    ensures { IfOk result (λ o. Checked (read.now, certificate.now) (answer_after o.ending) o.text.items) }
{
    match elaborate(alloc, read) {
        Ok(theory) => checked_theory(alloc, &theory, certificate),
        Err(error) => unaccepted(alloc, error),
    }
}

/// The judgement on a theory, or the line that says why there is none.
fn judged(
    alloc: Global,
    settings: &Settings,
    read: &RawTheory,
    outcomes: &RawOutcomes,
) -> Result<Output, NoMemory>
    requires { IsNamed read.now }
    ensures { IfOk result (λ o. Judged settings.now (read.now, outcomes.now) (answer_after o.ending) o.text.items) }
{
    match elaborate(alloc, read) {
        Ok(theory) => judged_theory(alloc, settings, &theory, outcomes),
        Err(error) => unaccepted(alloc, error),
    }
}

fn judged_theory(
    alloc: Global,
    settings: &Settings,
    theory: &Theory,
    outcomes: &RawOutcomes,
) -> Result<Output, NoMemory>
    ensures { IfOk result (λ o. OfClasses (OfOutcomes settings.now outcomes.now theory.now) settings.now.depth theory.now (answer_after o.ending) o.text.items) }
{
    match classes(alloc, theory, settings.depth) {
        Ok(classes) => judged_classes(alloc, settings, theory, classes.as_slice(), outcomes),
        Err(error) => without_classes(alloc, error),
    }
}

fn judged_classes(
    alloc: Global,
    settings: &Settings,
    theory: &Theory,
    classes: &[Class],
    outcomes: &RawOutcomes,
) -> Result<Output, NoMemory>
    requires { AreClasses theory.now settings.now.depth (map hyps.seen classes.now) }
    ensures { IfOk result (λ o. OfOutcomes settings.now outcomes.now theory.now (map hyps.seen classes.now) (answer_after o.ending) o.text.items) }
{
    theory.accepted();
    let choices = choices_by_data(alloc, theory, settings, classes)?;
    let tests = tests_of(alloc, classes, choices.as_slice())?;
    match read(alloc, theory, settings, tests.as_slice(), outcomes) {
        Ok(list) => judgement(
            alloc,
            settings,
            theory,
            classes,
            choices.as_slice(),
            tests.as_slice(),
            list.as_slice(),
        ),
        Err(error) => unread(alloc, error),
    }
}

/// The output where the outcomes aren't those of the tests.
fn unread(alloc: Global, error: OutcomeErr) -> Result<Output, NoMemory>
    ensures { IfOk result (λ o. IsOutcomeLine error (answer_after o.ending) o.text.items) }
{
    match error {
        OutcomeErr::Settings { stated, used } => {
            refused(alloc, Refusal::Settings { stated, used })
        }
        OutcomeErr::Unknown { n } => refused(alloc, Refusal::Unknown { test: n }),
        OutcomeErr::Repeated { n } => refused(alloc, Refusal::Repeated { test: n }),
        OutcomeErr::BadAnswer { n } => refused(alloc, Refusal::BadAnswer { test: n }),
        OutcomeErr::Memory => Err(NoMemory),
    }
}

/// The report on classes with these data and tests, by the outcomes.
fn judgement(
    alloc: Global,
    settings: &Settings,
    theory: &Theory,
    classes: &[Class],
    choices: &[Choice],
    tests: &[Test],
    list: &[Outcome],
) -> Result<Output, NoMemory>
    requires classes { AreClasses theory.now settings.now.depth (map hyps.seen classes.now) }
    requires choices { map choice_of choices.now ≡ choices_by_data theory.now settings.now (map hyps.seen classes.now) }
    requires tests { map test tests.now ≡ tests_at 1 (map hyps.seen classes.now) (map choice_of choices.now) }
    requires once { AreOnce (map outcome_number list.now) }
    ensures { IfOk result (λ o. IsJudgement settings.now theory.now (map hyps.seen classes.now) (map record_of list.now) (answer_after o.ending) o.text.items) }
{
    theory.accepted();
    let verdicts = judge(alloc, theory, classes, tests, list)?;
    let verdicts = verdicts.as_slice();
    let ending = ending_on(verdicts);
    Ok(Output {
        text: judged_report_on(alloc, theory, settings, classes, choices, verdicts)?,
        ending,
    })
}

pub(crate) fn refused(alloc: Global, refusal: Refusal) -> Result<Output, NoMemory>
    ensures { IfOk result (λ o. IsRefusal refusal (answer_after o.ending) o.text.items) }
{
    let mut text = Vec::new(alloc);
    put_refusal(&mut text, refusal)?;
    Ok(Output {
        text,
        ending: Ending::Refused(refusal),
    })
}

fn limited(alloc: Global, name: LimitName) -> Result<Output, NoMemory>
    ensures { IfOk result (λ o. IsLimit name (answer_after o.ending) o.text.items) }
{
    let mut text = Vec::new(alloc);
    put_limit(&mut text, name)?;
    Ok(Output {
        text,
        ending: Ending::Limit(name),
    })
}
