//! What is made of the classes of a theory.
ghost use Rattle.std.specs.Prelude.{◌≡◌, IfOk, map};
ghost use Rattle.tg_cmd.specs.Answers.{answer_after};
ghost use Rattle.tg_cmd.specs.Output.{Makes, OfStandIn};
ghost use Rattle.tg_cmd.specs.StandIn.{StandsIn, simulated};
ghost use Rattle.tg_cmd.specs.Tests.{tests_by_data};
ghost use Rattle.tg_derive.specs.Classes.{AreClasses};
ghost use Rattle.tg_harness.specs.HarnessTexts.{harness_text};
ghost use Rattle.tg_harness.specs.OutcomeTexts.{outcomes_text};
ghost use Rattle.tg_harness.specs.Tests.{test};
ghost use Rattle.tg_hyps.specs.Hypotheses.{seen};

use crate::answer::{Ending, Refusal};
use crate::data::choices_by_data;
use crate::judging::tests_of;
use crate::output::{NoMemory, Output, refused};
use crate::report::report_on;
use crate::standing::{outcomes_of, stand_in};
use std::alloc::{AllocError, Global};
use tg_harness::{outcomes, write};
use tg_term::{Class, FunId, Test};
use tg_theory::Theory;
use tg_types::{Name, Settings};

/// What is to be made of a theory alone.
#[derive(Clone, Copy, Debug)]
pub(crate) enum Task<'a> {
    /// The report.
    Report,
    /// The shell harness.
    Harness,
    /// The outcomes where the function of this name stands in as the program.
    Outcomes(&'a Name),
}

/// Makes it of the theory and its classes.
pub(crate) fn make(
    alloc: Global,
    task: &Task<'_>,
    settings: &Settings,
    theory: &Theory,
    classes: &[Class],
) -> Result<Output, NoMemory>
    ensures { IfOk result (λ o. Makes task.now settings.now theory.now (map seen classes.now) (answer_after o.ending) o.text.items) }
{
    match task {
        Task::Report => Ok(Output {
            text: report_on(alloc, theory, settings, classes)?,
            ending: Ending::Done,
        }),
        Task::Harness => Ok(Output {
            text: harness_on(alloc, theory, settings, classes)?,
            ending: Ending::Done,
        }),
        Task::Outcomes(name) => simulation(alloc, name, settings, theory, classes),
    }
}

fn harness_on(
    alloc: Global,
    theory: &Theory,
    settings: &Settings,
    classes: &[Class],
) -> Result<Vec<u8>, AllocError>
    ensures { IfOk result (λ text. text.items ≡ harness_text theory.now settings.now (tests_by_data theory.now settings.now (map seen classes.now))) }
{
    let tests = tests_by_data(alloc, theory, settings, classes)?;
    write(alloc, theory, settings, tests.as_slice())
}

/// The tests of the classes, with the data that are found for them.
fn tests_by_data(
    alloc: Global,
    theory: &Theory,
    settings: &Settings,
    classes: &[Class],
) -> Result<Vec<Test>, AllocError>
    ensures { IfOk result (λ ts. map test ts.items ≡ tests_by_data theory.now settings.now (map seen classes.now)) }
{
    let choices = choices_by_data(alloc, theory, settings, classes)?;
    tests_of(alloc, classes, choices.as_slice())
}

fn simulation(
    alloc: Global,
    name: &Name,
    settings: &Settings,
    theory: &Theory,
    classes: &[Class],
) -> Result<Output, NoMemory>
    ensures { IfOk result (λ o. OfStandIn name.now settings.now theory.now (map seen classes.now) (answer_after o.ending) o.text.items) }
{
    match stand_in(alloc, theory, name)? {
        Some(f) => Ok(Output {
            text: simulated(alloc, f, settings, theory, classes)?,
            ending: Ending::Done,
        }),
        None => refused(alloc, Refusal::StandIn),
    }
}

/// The outcomes where the function of the number stands in.
fn simulated(
    alloc: Global,
    f: FunId,
    settings: &Settings,
    theory: &Theory,
    classes: &[Class],
) -> Result<Vec<u8>, AllocError>
    ensures { IfOk result (λ text. text.items
        ≡ outcomes_text theory.now settings.now (simulated theory.now f (tests_by_data theory.now settings.now (map seen classes.now)))) }
{
    let tests = tests_by_data(alloc, theory, settings, classes)?;
    let list = outcomes_of(alloc, theory, f, tests.as_slice())?;
    outcomes(alloc, theory, settings, list.as_slice())
}
