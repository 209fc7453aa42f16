//! The data of classes.
ghost use Rattle.std.specs.Prelude.{◌≡◌, IfOk, map};
ghost use Rattle.tg_cmd.specs.Data.{choices_by_data};
ghost use Rattle.tg_derive.specs.Answers.{choice_of};
ghost use Rattle.tg_hyps.specs.Hypotheses.{seen};
ghost use Rattle.tg_solver.specs.Candidates.{first_candidate};
ghost use Rattle.tg_term.specs.Classes.{variables_of};

use std::alloc::{AllocError, Global};
use tg_derive::Choice;
use tg_solver::datum;
use tg_term::Class;
use tg_theory::Theory;
use tg_types::Settings;

/// What stands for each class in the theorem: a class with a datum is tested there, and another one is assumed.
#[tactic(auto, using(crate::proofs::DataLaws::finding))]
pub(crate) fn choices_by_data(
    alloc: Global,
    th: &Theory,
    s: &Settings,
    classes: &[Class],
) -> Result<Vec<Choice>, AllocError>
    ensures { IfOk result (λ xs. map choice_of xs.items ≡ choices_by_data th.now s.now (map seen classes.now)) }
{
    let mut choices = Vec::new(alloc);
    for (at, c) in classes.iter().enumerate() {
        let number = u32::try_from(at + 1).map_err(|_| AllocError)?;
        choices.push(choice_by_datum(alloc, th, s, c, number)?)?;
    }
    Ok(choices)
}

/// The choice for the class of this number.
fn choice_by_datum(
    alloc: Global,
    th: &Theory,
    s: &Settings,
    c: &Class,
    number: u32,
) -> Result<Choice, AllocError>
    ensures { IfOk result (λ x. choice_of x ≡ first_candidate th.now (variables_of c.now.pattern) c.now.constraints s.now number) }
{
    match datum(alloc, th, c, s, number)? {
        Some(values) => Ok(Choice::Tested(values)),
        None => Ok(Choice::Assumed),
    }
}
