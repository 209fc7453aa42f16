//! Certificates as they are written.
ghost use Rattle.std.specs.Prelude.{◌≡◌, ◌∷◌, ◌++◌, [], IfOk, OnOk, drop, map, take};
ghost use Rattle.tg_calculus.specs.Book as calculus;
ghost use Rattle.tg_cert.specs.CertificateTexts.{certificate_lines, context_tokens, first_tokens, last_tokens, line_tokens, lines_from, numerals, row_name, rule_text};
ghost use Rattle.tg_kernel.specs.Entries.{IsThere, number};
ghost use Rattle.tg_kernel.specs.Rules.{as_line, as_rule};
ghost use Rattle.tg_render.specs.Render.{lines, written, written_line, written_lines};
ghost use Rattle.tg_render.specs.Tokens.{continued, divided};
ghost use Rattle.tg_report.specs.TypeTexts.{ty_tokens};
ghost use Rattle.tg_report.specs.Words.{comma};
ghost use Rattle.tg_types.specs.Types.{ty};

use std::alloc::{AllocError, Global};
use tg_kernel::{Book, Context, Rule, RuleLine, Thm};
use tg_render::{end_line, put_number, put_token};
use tg_report::{put_formula, put_term, put_terms, put_ty};
use tg_schema::SchemaId;
use tg_tables::{SCHEMA_COUNT, schemas};
use tg_theory::Theory;
use tg_types::Ty;

/// The text of a certificate that has the lines of a book up to one of them, a line of text each.
#[tactic(auto, using(crate::proofs::WritingLaws::writing))]
pub fn write(alloc: Global, book: &Book<'_>, last: Thm) -> Result<Vec<u8>, AllocError>
    requires { IsThere book.now last }
    ensures { IfOk result (λ text. text.items ≡ lines (certificate_lines book.now.theory (take (number last) (calculus.lines book.now.entries)))) }
{
    let mut out = Vec::new(alloc);
    put_token(&mut out, b"certificate")?;
    put_number(&mut out, 1)?;
    put_token(&mut out, b"begin")?;
    end_line(&mut out)?;
    put_lines(&mut out, book, last)?;
    put_token(&mut out, b"end")?;
    end_line(&mut out)?;
    Ok(out)
}

/// Writes the lines up to one of them.
#[tactic(auto, using(crate::proofs::WritingLaws::lines))]
fn put_lines(out: &mut Vec<u8>, book: &Book<'_>, last: Thm) -> Result<(), AllocError>
    requires { IsThere book.now last }
    ensures { OnOk result (out.new.items ≡ written_lines out.old.items (lines_from book.now.theory 1 (take (number last) (calculus.lines book.now.entries)))) }
{
    for n in 0..last.0 {
        put_line(out, book.theory(), n + 1, book.line(Thm(n + 1)))?;
    }
    Ok(())
}

/// Writes a line with its number.
#[tactic(auto, using(crate::proofs::WritingLaws::writing))]
fn put_line(out: &mut Vec<u8>, th: &Theory, n: u64, line: &RuleLine) -> Result<(), AllocError>
    ensures { OnOk result (out.new.items ≡ written_line out.old.items (line_tokens th.now n (as_line line.now))) }
{
    put_number(out, n)?;
    put_token(out, rule_text(&line.rule))?;
    put_first(out, th, &line.rule)?;
    put_numbers(out, line.premises.as_slice())?;
    put_last(out, th, &line.rule)?;
    put_token(out, b";")?;
    end_line(out)
}

/// The word of a rule.
fn rule_text(rule: &Rule) -> &'static [u8]
    ensures { result.now ≡ rule_text (as_rule rule.now) }
{
    match rule {
        Rule::Hyp(_, _) => b"hyp",
        Rule::Weak(_) => b"weak",
        Rule::Cut => b"cut",
        Rule::Grow(_) => b"grow",
        Rule::AndI => b"andI",
        Rule::AndL => b"andL",
        Rule::AndR => b"andR",
        Rule::ImpI(_) => b"impI",
        Rule::Mp => b"mp",
        Rule::AllI => b"allI",
        Rule::AllE(_) => b"allE",
        Rule::ExI(_, _) => b"exI",
        Rule::ExE => b"exE",
        Rule::ThypI => b"thypI",
        Rule::ThypE => b"thypE",
        Rule::Truth(_) => b"true",
        Rule::Absurd(_) => b"false",
        Rule::Split(_) => b"split",
        Rule::Refl(_, _) => b"refl",
        Rule::Sym => b"sym",
        Rule::Trans => b"trans",
        Rule::Replace(_) => b"replace",
        Rule::Schema(_, _, _) => b"schema",
        Rule::Exhaust(_) => b"exhaust",
        Rule::Deep(_, _, _) => b"deep",
        Rule::Compute(_, _) => b"compute",
    }
}

/// Writes what stands before the numbers of the premises.
#[tactic(auto, using(crate::proofs::WritingLaws::writing))]
fn put_first(out: &mut Vec<u8>, th: &Theory, rule: &Rule) -> Result<(), AllocError>
    ensures { OnOk result (out.new.items ≡ written out.old.items (first_tokens th.now (as_rule rule.now))) }
{
    match rule {
        Rule::Hyp(vars, _) | Rule::Truth(vars) | Rule::Refl(vars, _) | Rule::Compute(vars, _) =>
            put_context(out, th, vars),
        Rule::Schema(vars, row, _) => {
            put_context(out, th, vars)?;
            put_token(out, row_name(*row))
        }
        Rule::Exhaust(n) => put_number(out, *n),
        Rule::Deep(vars, depth, _) => {
            put_context(out, th, vars)?;
            put_number(out, *depth)
        }
        _ => Ok(()),
    }
}

/// Writes what stands behind the numbers of the premises.
#[tactic(auto, using(crate::proofs::WritingLaws::writing))]
fn put_last(out: &mut Vec<u8>, th: &Theory, rule: &Rule) -> Result<(), AllocError>
    ensures { OnOk result (out.new.items ≡ written out.old.items (last_tokens th.now (as_rule rule.now))) }
{
    match rule {
        Rule::Hyp(_, f) | Rule::Weak(f) | Rule::ImpI(f) | Rule::Absurd(f) | Rule::Replace(f) =>
            put_formula(out, th, f),
        Rule::Grow(types) => put_context(out, th, types),
        Rule::AllE(t)
        | Rule::Split(t)
        | Rule::Refl(_, t)
        | Rule::Schema(_, _, t)
        | Rule::Compute(_, t) => put_term(out, th, t, 0),
        Rule::ExI(f, t) => {
            put_formula(out, th, f)?;
            put_term(out, th, t, 0)
        }
        Rule::Deep(_, _, ts) => put_terms(out, th, ts.as_slice(), 0),
        _ => Ok(()),
    }
}

/// Writes the types of a context.
#[tactic(auto, using(crate::proofs::WritingLaws::contexts))]
fn put_context(out: &mut Vec<u8>, th: &Theory, vars: &Context) -> Result<(), AllocError>
    ensures { OnOk result (out.new.items ≡ written out.old.items (context_tokens th.now vars.now)) }
{
    put_token(out, b"{")?;
    put_types(out, th, vars.types())?;
    put_token(out, b"}")
}

/// Writes types with a comma between two of them.
#[tactic(auto, using(crate::proofs::WritingLaws::contexts))]
fn put_types(out: &mut Vec<u8>, th: &Theory, types: &[Ty]) -> Result<(), AllocError>
    ensures { OnOk result (out.new.items ≡ written out.old.items (divided comma (map (ty_tokens th.now) (map ty types.now)))) }
{
    let Some((first, others)) = types.split_first() else {
        return Ok(());
    };
    put_ty(out, th, first)?;
    put_others(out, th, others)
}

/// Writes types with a comma before each.
#[tactic(auto, using(crate::proofs::WritingLaws::types))]
fn put_others(out: &mut Vec<u8>, th: &Theory, types: &[Ty]) -> Result<(), AllocError>
    ensures { OnOk result (out.new.items ≡ written out.old.items (continued comma (map (ty_tokens th.now) (map ty types.now)))) }
{
    for t in types {
        put_token(out, b",")?;
        put_ty(out, th, t)?;
    }
    Ok(())
}

/// Writes numbers one behind another.
#[tactic(auto, using(crate::proofs::WritingLaws::numbers))]
fn put_numbers(out: &mut Vec<u8>, numbers: &[u64]) -> Result<(), AllocError>
    ensures { OnOk result (out.new.items ≡ written out.old.items (numerals numbers.now)) }
{
    for n in numbers {
        put_number(out, *n)?;
    }
    Ok(())
}

/// The name of a row, and no byte where there is no row of the number.
#[tactic(auto, using(crate::proofs::WritingLaws::names))]
fn row_name(number: SchemaId) -> &'static [u8]
    ensures { result.now ≡ row_name number }
{
    let rows = schemas();
    for i in 0..SCHEMA_COUNT {
        let row = rows.get(i);
        if row.code == number {
            return row.name.as_bytes();
        }
    }
    b""
}
