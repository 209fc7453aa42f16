//! Recorded outcomes.
ghost use Rattle.std.specs.Prelude.{◌≡◌, IfOk, OnOk, map};
ghost use Rattle.tg_render.specs.Render.{written, written_line, written_lines};
ghost use Rattle.tg_harness.specs.OutcomeTexts.{head_line, record_lines, recorded, outcomes_text};
ghost use Rattle.tg_harness.specs.Tests.{record_of};
ghost use Rattle.tg_term.specs.Classes.{answer_of};

use std::alloc::{AllocError, Global};
use tg_render::{end_line, put_number, put_token};
use tg_report::{put_settings, put_value};
use tg_term::Outcome;
use tg_theory::Theory;
use tg_types::Settings;

/// The text of recorded outcomes under the settings that they were found with, as `judge` reads them: `answer N V;` or `raised N;`
/// a line each, in the order of the list.
#[tactic(auto, using(crate::proofs::OutcomeLaws::writing))]
pub fn outcomes(
    alloc: Global,
    th: &Theory,
    s: &Settings,
    list: &[Outcome],
) -> Result<Vec<u8>, AllocError>
    ensures { IfOk result (λ text. text.items ≡ outcomes_text th.now s.now (map record_of list.now)) }
{
    let mut out = Vec::new(alloc);
    put_head(&mut out, s)?;
    end_line(&mut out)?;
    put_records(&mut out, th, list)?;
    put_token(&mut out, b"end")?;
    end_line(&mut out)?;
    Ok(out)
}

/// Writes `outcomes`, the settings and `begin`.
#[tactic(auto, using(crate::proofs::OutcomeLaws::writing))]
pub(crate) fn put_head(out: &mut Vec<u8>, s: &Settings) -> Result<(), AllocError>
    ensures { OnOk result (out.new.items ≡ written out.old.items (head_line s.now)) }
{
    put_token(out, b"outcomes")?;
    put_settings(out, s)?;
    put_token(out, b"begin")
}

/// Writes a line for each outcome.
#[tactic(auto, using(crate::proofs::OutcomeLaws::writing))]
fn put_records(out: &mut Vec<u8>, th: &Theory, list: &[Outcome]) -> Result<(), AllocError>
    ensures { OnOk result (out.new.items ≡ written_lines out.old.items (record_lines th.now (map record_of list.now))) }
{
    for outcome in list {
        put_record(out, th, outcome)?;
    }
    Ok(())
}

/// Writes the line of an outcome.
#[tactic(auto, using(crate::proofs::OutcomeLaws::writing))]
fn put_record(out: &mut Vec<u8>, th: &Theory, outcome: &Outcome) -> Result<(), AllocError>
    ensures { OnOk result (out.new.items ≡ written_line out.old.items (recorded th.now outcome.now.test (answer_of outcome.now))) }
{
    let number = u64::from(outcome.test);
    match &outcome.answer {
        Some(v) => {
            put_token(out, b"answer")?;
            put_number(out, number)?;
            put_value(out, th, v)?;
        }
        None => {
            put_token(out, b"raised")?;
            put_number(out, number)?;
        }
    }
    put_token(out, b";")?;
    end_line(out)
}
