//! Certificates: what they prove, or the line that says where one fails.
ghost use Rattle.std.specs.Prelude.{◌≡◌, IfOk, OnOk, map};
ghost use Rattle.tg_cmd.specs.Answers.{answer_after};
ghost use Rattle.tg_cmd.specs.CheckedLines.{assumed_lines, checked_lines, checked_text, formula_line, sequent_lines, vars_line};
ghost use Rattle.tg_cmd.specs.Output.{OfCertificate};
ghost use Rattle.tg_kernel.specs.Sequents.{sequent};
ghost use Rattle.tg_render.specs.Render.{written, written_line, written_lines};
ghost use Rattle.tg_render.specs.Tokens.{continued, divided};
ghost use Rattle.tg_report.specs.TypeTexts.{ty_tokens};
ghost use Rattle.tg_report.specs.Words.{comma};
ghost use Rattle.tg_types.specs.Types.{ty};

use crate::answer::{Ending, Refusal};
use crate::output::{NoMemory, Output, refused};
use std::alloc::{AllocError, Global};
use tg_cert::{CertErr, check};
use tg_grammar::RawCert;
use tg_kernel::Sequent;
use tg_render::{end_line, put_number, put_token};
use tg_report::{put_formula, put_ty};
use tg_term::Formula;
use tg_theory::Theory;
use tg_types::Ty;

/// The sequent that the certificate proves, or the line at which it fails.
pub(crate) fn checked_theory(alloc: Global, th: &Theory, raw: &RawCert) -> Result<Output, NoMemory>
    ensures { IfOk result (λ o. OfCertificate th.now raw.now.lines (answer_after o.ending) o.text.items) }
{
    match check(alloc, th, raw) {
        Ok(sequent) => Ok(Output {
            text: checked_text(alloc, th, raw.lines.len() as u64, &sequent)?,
            ending: Ending::Done,
        }),
        Err(CertErr::Step { line }) => refused(alloc, Refusal::Certificate { line }),
        Err(CertErr::Empty) => refused(alloc, Refusal::Certificate { line: 0 }),
        Err(CertErr::Memory) => Err(NoMemory),
    }
}

/// The text of a certificate of so many lines.
fn checked_text(alloc: Global, th: &Theory, lines: u64, s: &Sequent) -> Result<Vec<u8>, AllocError>
    ensures { IfOk result (λ text. text.items ≡ checked_text th.now lines (sequent s.now)) }
{
    let mut out = Vec::new(alloc);
    put_checked(&mut out, th, lines, s)?;
    Ok(out)
}

fn put_checked(out: &mut Vec<u8>, th: &Theory, lines: u64, s: &Sequent) -> Result<(), AllocError>
    ensures { OnOk result (out.new.items ≡ written_lines out.old.items (checked_lines th.now lines (sequent s.now))) }
{
    put_token(out, b"checked")?;
    put_token(out, th.name().bytes())?;
    end_line(out)?;
    put_token(out, b"lines")?;
    put_number(out, lines)?;
    end_line(out)?;
    put_sequent(out, th, s)
}

#[tactic(auto, using(crate::proofs::LineLaws::writing))]
fn put_sequent(out: &mut Vec<u8>, th: &Theory, s: &Sequent) -> Result<(), AllocError>
    ensures { OnOk result (out.new.items ≡ written_lines out.old.items (sequent_lines th.now (sequent s.now))) }
{
    put_vars(out, th, s.vars.types())?;
    put_assumed(out, th, s.hyps.formulas())?;
    put_formula_line(out, th, b"conclusion", &s.goal)
}

/// Writes the types of the variables.
#[tactic(auto, using(crate::proofs::LineLaws::writing))]
fn put_vars(out: &mut Vec<u8>, th: &Theory, types: &[Ty]) -> Result<(), AllocError>
    ensures { OnOk result (out.new.items ≡ written_line out.old.items (vars_line th.now (map ty types.now))) }
{
    put_token(out, b"vars")?;
    put_token(out, b"{")?;
    put_types(out, th, types)?;
    put_token(out, b"}")?;
    end_line(out)
}

/// Writes types with a comma between two of them.
#[tactic(auto, using(crate::proofs::LineLaws::writing))]
fn put_types(out: &mut Vec<u8>, th: &Theory, types: &[Ty]) -> Result<(), AllocError>
    ensures { OnOk result (out.new.items ≡ written out.old.items (divided comma (map (ty_tokens th.now) (map ty types.now)))) }
{
    match types {
        [first, rest @ ..] => {
            put_ty(out, th, first)?;
            put_more(out, th, rest)
        }
        [] => Ok(()),
    }
}

/// Writes types with a comma before each.
#[tactic(auto, using(crate::proofs::LineLaws::writing))]
fn put_more(out: &mut Vec<u8>, th: &Theory, types: &[Ty]) -> Result<(), AllocError>
    ensures { OnOk result (out.new.items ≡ written out.old.items (continued comma (map (ty_tokens th.now) (map ty types.now)))) }
{
    for t in types {
        put_token(out, b",")?;
        put_ty(out, th, t)?;
    }
    Ok(())
}

/// Writes the hypotheses of a sequent.
#[tactic(auto, using(crate::proofs::LineLaws::writing))]
fn put_assumed(out: &mut Vec<u8>, th: &Theory, formulas: &[Formula]) -> Result<(), AllocError>
    ensures { OnOk result (out.new.items ≡ written_lines out.old.items (assumed_lines th.now formulas.now)) }
{
    for f in formulas {
        put_formula_line(out, th, b"hypothesis", f)?;
    }
    Ok(())
}

fn put_formula_line(
    out: &mut Vec<u8>,
    th: &Theory,
    word: &[u8],
    f: &Formula,
) -> Result<(), AllocError>
    ensures { OnOk result (out.new.items ≡ written_line out.old.items (formula_line th.now word.now f.now)) }
{
    put_token(out, word)?;
    put_formula(out, th, f)?;
    end_line(out)
}
