//! Classes and settings.
ghost use Rattle.std.specs.Prelude.{◌≡◌, OnOk, option_copied};
ghost use Rattle.tg_render.specs.Render.{written, written_line, written_lines};
ghost use Rattle.tg_report.specs.ClassTexts.{settings_tokens, settings_line, term_lines, datum_line, datum_in, verdict_word, verdict_lines, lines_of_class};

use crate::terms::{put_term, put_terms};
use crate::values::put_values;
use std::alloc::AllocError;
use tg_render::{end_line, put_number, put_token};
use tg_term::{Class, Term, Test};
use tg_theory::Theory;
use tg_types::{Settings, Verdict};

/// Writes settings, as `depth 3 bound 8 seed 1 tries 1000 width 16`.
pub fn put_settings(out: &mut Vec<u8>, s: &Settings) -> Result<(), AllocError>
    ensures { OnOk result (out.new.items ≡ written out.old.items (settings_tokens s.now)) }
{
    put_token(out, b"depth")?;
    put_number(out, u64::from(s.depth))?;
    put_token(out, b"bound")?;
    put_number(out, u64::from(s.bound))?;
    put_token(out, b"seed")?;
    put_number(out, s.seed)?;
    put_token(out, b"tries")?;
    put_number(out, u64::from(s.tries))?;
    put_token(out, b"width")?;
    put_number(out, u64::from(s.width))
}

/// Writes the line of settings.
pub fn put_settings_line(out: &mut Vec<u8>, s: &Settings) -> Result<(), AllocError>
    ensures { OnOk result (out.new.items ≡ written_line out.old.items (settings_line s.now)) }
{
    put_token(out, b"settings")?;
    put_settings(out, s)?;
    end_line(out)
}

/// Writes the lines of a class: its number, the pattern of its inputs, its constraints, its checks, its datum or that it is open, and
/// its verdict where there is one. The test's own number isn't written.
#[tactic(auto, using(crate::proofs::ClassLaws::writing))]
pub fn put_class(
    out: &mut Vec<u8>,
    th: &Theory,
    number: u32,
    class: &Class,
    test: Option<&Test>,
    verdict: Option<Verdict>,
) -> Result<(), AllocError>
    ensures { OnOk result (out.new.items ≡ written_lines out.old.items (lines_of_class th.now number class.now (option_copied test.entry) verdict)) }
{
    put_token(out, b"class")?;
    put_number(out, u64::from(number))?;
    end_line(out)?;
    put_token(out, b"pattern")?;
    put_terms(out, th, class.pattern.terms.as_slice(), 0)?;
    end_line(out)?;
    put_term_lines(out, th, b"constraint", class.constraints.as_slice())?;
    put_term_lines(out, th, b"check", class.checks.as_slice())?;
    put_datum(out, th, test)?;
    put_verdict(out, verdict)
}

/// Writes a line for each term: a word and the term.
#[tactic(auto, using(crate::proofs::ClassLaws::writing))]
fn put_term_lines(
    out: &mut Vec<u8>,
    th: &Theory,
    word: &[u8],
    ts: &[Term],
) -> Result<(), AllocError>
    ensures { OnOk result (out.new.items ≡ written_lines out.old.items (term_lines th.now word.now ts.now)) }
{
    for t in ts {
        put_token(out, word)?;
        put_term(out, th, t, 0)?;
        end_line(out)?;
    }
    Ok(())
}

/// Writes the line of a datum, or that there is none.
fn put_datum(out: &mut Vec<u8>, th: &Theory, test: Option<&Test>) -> Result<(), AllocError>
    ensures { OnOk result (out.new.items ≡ written_line out.old.items (datum_line th.now (datum_in (option_copied test.entry)))) }
{
    match test {
        Some(t) => {
            put_token(out, b"datum")?;
            put_values(out, th, t.datum.as_slice())?;
            end_line(out)
        }
        None => {
            put_token(out, b"open")?;
            end_line(out)
        }
    }
}

/// Writes the line of a verdict where there is one.
fn put_verdict(out: &mut Vec<u8>, verdict: Option<Verdict>) -> Result<(), AllocError>
    ensures { OnOk result (out.new.items ≡ written_lines out.old.items (verdict_lines verdict)) }
{
    match verdict {
        Some(v) => {
            put_token(out, b"verdict")?;
            put_token(out, verdict_word(v))?;
            end_line(out)
        }
        None => Ok(()),
    }
}

fn verdict_word(v: Verdict) -> &'static [u8]
    ensures { result.now ≡ verdict_word v }
{
    match v {
        Verdict::Passed => b"passed",
        Verdict::Failed => b"failed",
        Verdict::Undecided => b"undecided",
        Verdict::Raised => b"raised",
        Verdict::Missing => b"missing",
        Verdict::NoDatum => b"open",
    }
}
