//! The texts by themselves, in a vector of their own.
ghost use Rattle.std.specs.Prelude.{◌≡◌, ◌∷◌, [], IfOk, option_copied};
ghost use Rattle.tg_render.specs.Render.{render, lines};
ghost use Rattle.tg_report.specs.ClassTexts.{settings_line, lines_of_class};
ghost use Rattle.tg_report.specs.FormulaTexts.{formula_tokens};
ghost use Rattle.tg_report.specs.TermTexts.{term_tokens};
ghost use Rattle.tg_report.specs.TypeTexts.{ty_tokens};
ghost use Rattle.tg_report.specs.ValueTexts.{value_tokens};
ghost use Rattle.tg_term.specs.Values.{value};
ghost use Rattle.tg_types.specs.Types.{ty};

use crate::classes::{put_class, put_settings_line};
use crate::formulas::put_formula;
use crate::terms::put_term;
use crate::types::put_ty;
use crate::values::put_value;
use std::alloc::{AllocError, Global};
use tg_term::{Class, Formula, Term, Test, Value};
use tg_theory::Theory;
use tg_types::{Settings, Ty, Verdict};

/// The text of a term that stands within `level` binders, as `put_term` writes it.
pub fn term_text(alloc: Global, th: &Theory, t: &Term, level: u32) -> Result<Vec<u8>, AllocError>
    ensures { IfOk result (λ text. text.items ≡ render (term_tokens th.now level t.now)) }
{
    let mut out = Vec::new(alloc);
    put_term(&mut out, th, t, level)?;
    Ok(out)
}

/// The text of a value, as `put_value` writes it.
pub fn value_text(alloc: Global, th: &Theory, v: &Value) -> Result<Vec<u8>, AllocError>
    ensures { IfOk result (λ text. text.items ≡ render (value_tokens th.now (value v.now))) }
{
    let mut out = Vec::new(alloc);
    put_value(&mut out, th, v)?;
    Ok(out)
}

/// The text of a type, as `put_ty` writes it.
pub fn ty_text(alloc: Global, th: &Theory, t: &Ty) -> Result<Vec<u8>, AllocError>
    ensures { IfOk result (λ text. text.items ≡ render (ty_tokens th.now (ty t.now))) }
{
    let mut out = Vec::new(alloc);
    put_ty(&mut out, th, t)?;
    Ok(out)
}

/// The text of a formula, as `put_formula` writes it.
pub fn formula_text(alloc: Global, th: &Theory, f: &Formula) -> Result<Vec<u8>, AllocError>
    ensures { IfOk result (λ text. text.items ≡ render (formula_tokens th.now 0 f.now)) }
{
    let mut out = Vec::new(alloc);
    put_formula(&mut out, th, f)?;
    Ok(out)
}

/// The lines of a class, as `put_class` writes them. Each ends with LF.
pub fn class_text(
    alloc: Global,
    th: &Theory,
    number: u32,
    class: &Class,
    test: Option<&Test>,
    verdict: Option<Verdict>,
) -> Result<Vec<u8>, AllocError>
    ensures { IfOk result (λ text. text.items ≡ lines (lines_of_class th.now number class.now (option_copied test.entry) verdict)) }
{
    let mut out = Vec::new(alloc);
    put_class(&mut out, th, number, class, test, verdict)?;
    Ok(out)
}

/// The line of settings. It ends with LF.
pub fn settings_text(alloc: Global, s: &Settings) -> Result<Vec<u8>, AllocError>
    ensures { IfOk result (λ text. text.items ≡ lines (settings_line s.now ∷ [])) }
{
    let mut out = Vec::new(alloc);
    put_settings_line(&mut out, s)?;
    Ok(out)
}
