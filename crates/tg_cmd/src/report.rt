//! The report on a theory.
ghost use Rattle.std.specs.Prelude.{◌≡◌, ◌+◌, ◌∷◌, [], IfOk, OnOk, length, map, slice_get, decimal};
ghost use Rattle.tg_cmd.specs.Lines.{head_lines, lines_of, classes_from, label_tokens, hypothesis_line, hypothesis_lines, theorem_lines, tested_count, open_count, counts_line, report_lines, report_on, verdicts_line, judged_lines};
ghost use Rattle.tg_cmd.specs.Judging.{choices_by_verdicts};
ghost use Rattle.tg_derive.specs.Answers.{choice_of, hypothesis, label_of};
ghost use Rattle.tg_hyps.specs.Hypotheses.{seen};
ghost use Rattle.tg_render.specs.Render.{put, written, written_line, written_lines, lines};

use crate::data::choices_by_data;
use crate::judging::{choices_by_verdicts, count_of};
use sqlite_items::Items;
use std::alloc::{AllocError, Global};
use tg_derive::{Choice, Hypothesis, Label, hypotheses};
use tg_hyps::conclusion;
use tg_render::{end_line, put_number, put_token};
use tg_report::{put_class, put_formula, put_settings_line};
use tg_term::{Class, Test, fill};
use tg_theory::Theory;
use tg_types::{Settings, Verdict};

/// The report on a theory of these classes: the classes with their data, the test theorem and the counts.
pub(crate) fn report_on(
    alloc: Global,
    th: &Theory,
    s: &Settings,
    classes: &[Class],
) -> Result<Vec<u8>, AllocError>
    ensures { IfOk result (λ text. text.items ≡ report_on th.now s.now (map seen classes.now)) }
{
    let choices = choices_by_data(alloc, th, s, classes)?;
    let mut out = Vec::new(alloc);
    put_report(alloc, &mut out, th, s, classes, choices.as_slice())?;
    Ok(out)
}

/// Writes the report where the classes are tested as the choices say.
#[tactic(auto, using(crate::proofs::LineLaws::writing))]
fn put_report(
    alloc: Global,
    out: &mut Vec<u8>,
    th: &Theory,
    s: &Settings,
    classes: &[Class],
    choices: &[Choice],
) -> Result<(), AllocError>
    requires { length classes.now ≡ length choices.now }
    ensures { OnOk result (out.new.items ≡ written_lines out.old.items (report_lines th.now s.now (map seen classes.now) (map choice_of choices.now))) }
{
    put_head(out, th, s)?;
    put_classes(alloc, out, th, classes, choices, &[])?;
    put_theorem(alloc, out, th, s.depth, classes, choices)?;
    put_counts(out, choices)
}

/// The report on a theory of these classes, where they are judged so: the classes with their data and verdicts, the theorem in which
/// those that passed are tested, and the verdicts' counts.
pub(crate) fn judged_report_on(
    alloc: Global,
    th: &Theory,
    s: &Settings,
    classes: &[Class],
    choices: &[Choice],
    verdicts: &[Verdict],
) -> Result<Vec<u8>, AllocError>
    requires choices { length classes.now ≡ length choices.now }
    requires verdicts { length choices.now ≡ length verdicts.now }
    ensures { IfOk result (λ text. text.items ≡ lines (judged_lines th.now s.now (map seen classes.now) (map choice_of choices.now) verdicts.now)) }
{
    let chosen = choices_by_verdicts(alloc, choices, verdicts)?;
    let mut out = Vec::new(alloc);
    put_judged(
        alloc,
        &mut out,
        th,
        s,
        classes,
        choices,
        verdicts,
        chosen.as_slice(),
    )?;
    Ok(out)
}

/// Writes the report where the theorem's choices are the last ones.
#[tactic(auto, using(crate::proofs::LineLaws::writing))]
fn put_judged(
    alloc: Global,
    out: &mut Vec<u8>,
    th: &Theory,
    s: &Settings,
    classes: &[Class],
    choices: &[Choice],
    verdicts: &[Verdict],
    chosen: &[Choice],
) -> Result<(), AllocError>
    requires choices { length classes.now ≡ length choices.now }
    requires chosen { length classes.now ≡ length chosen.now }
    requires by_verdicts { map choice_of chosen.now ≡ choices_by_verdicts (map choice_of choices.now) verdicts.now }
    ensures { OnOk result (out.new.items ≡ written_lines out.old.items (judged_lines th.now s.now (map seen classes.now) (map choice_of choices.now) verdicts.now)) }
{
    put_head(out, th, s)?;
    put_classes(alloc, out, th, classes, choices, verdicts)?;
    put_theorem(alloc, out, th, s.depth, classes, chosen)?;
    put_verdicts(out, verdicts)
}

/// Writes the theory's name and the settings.
fn put_head(out: &mut Vec<u8>, th: &Theory, s: &Settings) -> Result<(), AllocError>
    ensures { OnOk result (out.new.items ≡ written_lines out.old.items (head_lines th.now s.now)) }
{
    put_token(out, b"testgen")?;
    put_token(out, th.name().bytes())?;
    end_line(out)?;
    put_settings_line(out, s)
}

/// Writes the classes with their data, and with their verdicts as far as there are such.
#[tactic(auto, using(crate::proofs::LineLaws::writing))]
fn put_classes(
    alloc: Global,
    out: &mut Vec<u8>,
    th: &Theory,
    classes: &[Class],
    choices: &[Choice],
    verdicts: &[Verdict],
) -> Result<(), AllocError>
    requires { length classes.now ≡ length choices.now }
    ensures { OnOk result (out.new.items ≡ written_lines out.old.items (classes_from th.now 1 (map seen classes.now) (map choice_of choices.now) verdicts.now)) }
{
    for (at, c) in classes.iter().enumerate() {
        let number = u32::try_from(at + 1).map_err(|_| AllocError)?;
        put_chosen(
            alloc,
            out,
            th,
            number,
            c,
            &choices[at],
            verdict_at(verdicts, at),
        )?;
    }
    Ok(())
}

/// The verdict at a place, if there is one.
fn verdict_at(verdicts: &[Verdict], at: usize) -> Option<Verdict>
    ensures { result ≡ slice_get verdicts.now at }
{
    if at < verdicts.len() {
        Some(verdicts[at])
    } else {
        None
    }
}

/// Writes the class of this number with its datum, if it is tested, and its verdict, if there is one.
fn put_chosen(
    alloc: Global,
    out: &mut Vec<u8>,
    th: &Theory,
    number: u32,
    c: &Class,
    choice: &Choice,
    verdict: Option<Verdict>,
) -> Result<(), AllocError>
    ensures { OnOk result (out.new.items ≡ written_lines out.old.items (lines_of th.now number (seen c.now) (choice_of choice.now) verdict)) }
{
    match choice {
        Choice::Tested(values) => {
            let datum = fill(alloc, &c.pattern, values.as_slice())?;
            let test = Test {
                class: number,
                datum: Items::from_vec(datum),
            };
            put_class(out, th, number, c, Some(&test), verdict)
        }
        Choice::Assumed => put_class(out, th, number, c, None, verdict),
    }
}

/// Writes the test theorem.
#[tactic(auto, using(crate::proofs::LineLaws::writing))]
fn put_theorem(
    alloc: Global,
    out: &mut Vec<u8>,
    th: &Theory,
    depth: u8,
    classes: &[Class],
    choices: &[Choice],
) -> Result<(), AllocError>
    requires { length classes.now ≡ length choices.now }
    ensures { OnOk result (out.new.items ≡ written_lines out.old.items (theorem_lines th.now depth (map seen classes.now) (map choice_of choices.now))) }
{
    put_token(out, b"theorem")?;
    end_line(out)?;
    let hs = hypotheses(alloc, th, depth, classes, choices)?;
    put_hypotheses(out, th, hs.as_slice())?;
    put_token(out, b"conclusion")?;
    put_formula(out, th, &conclusion(alloc, th)?)?;
    end_line(out)
}

#[tactic(auto, using(crate::proofs::LineLaws::writing))]
fn put_hypotheses(out: &mut Vec<u8>, th: &Theory, hs: &[Hypothesis]) -> Result<(), AllocError>
    ensures { OnOk result (out.new.items ≡ written_lines out.old.items (hypothesis_lines th.now (map hypothesis hs.now))) }
{
    for h in hs {
        put_hypothesis(out, th, h)?;
    }
    Ok(())
}

#[tactic(auto, using(crate::proofs::LineLaws::writing))]
fn put_hypothesis(out: &mut Vec<u8>, th: &Theory, h: &Hypothesis) -> Result<(), AllocError>
    ensures { OnOk result (out.new.items ≡ written_line out.old.items (hypothesis_line th.now (hypothesis h.now))) }
{
    put_label(out, h.label)?;
    put_formula(out, th, &h.formula)?;
    end_line(out)
}

fn put_label(out: &mut Vec<u8>, label: Label) -> Result<(), AllocError>
    ensures { OnOk result (out.new.items ≡ written out.old.items (label_tokens (label_of label))) }
{
    match label {
        Label::Test(n) => put_numbered(out, b"test", n),
        Label::Uniformity(n) => put_numbered(out, b"uniformity", n),
        Label::OpenClass(n) => put_numbered(out, b"open", n),
        Label::Regularity => put_token(out, b"regularity"),
    }
}

fn put_numbered(out: &mut Vec<u8>, word: &[u8], number: usize) -> Result<(), AllocError>
    ensures { OnOk result (out.new.items ≡ put (put out.old.items word.now) (decimal number)) }
{
    put_token(out, word)?;
    put_number(out, number as u64)
}

/// Writes how many classes there are, how many are tested, and how many aren't.
fn put_counts(out: &mut Vec<u8>, choices: &[Choice]) -> Result<(), AllocError>
    ensures { OnOk result (out.new.items ≡ written_line out.old.items (counts_line (map choice_of choices.now))) }
{
    let tested = tested_count(choices);
    put_token(out, b"classes")?;
    put_number(out, choices.len() as u64)?;
    put_token(out, b"tests")?;
    put_number(out, tested as u64)?;
    put_token(out, b"open")?;
    put_number(out, (choices.len() - tested) as u64)?;
    end_line(out)
}

/// Writes how many classes have each verdict.
fn put_verdicts(out: &mut Vec<u8>, verdicts: &[Verdict]) -> Result<(), AllocError>
    ensures { OnOk result (out.new.items ≡ written_line out.old.items (verdicts_line verdicts.now)) }
{
    put_numbered(out, b"passed", count_of(verdicts, Verdict::Passed))?;
    put_numbered(out, b"failed", count_of(verdicts, Verdict::Failed))?;
    put_numbered(out, b"undecided", count_of(verdicts, Verdict::Undecided))?;
    put_numbered(out, b"raised", count_of(verdicts, Verdict::Raised))?;
    put_numbered(out, b"missing", count_of(verdicts, Verdict::Missing))?;
    put_numbered(out, b"open", count_of(verdicts, Verdict::NoDatum))?;
    end_line(out)
}

/// How many classes are tested.
fn tested_count(choices: &[Choice]) -> usize
    ensures tested { result ≡ tested_count (map choice_of choices.now) }
    ensures open { result + open_count (map choice_of choices.now) ≡ length choices.now }
{
    let mut count = 0;
    for choice in choices {
        count += tested_once(choice);
    }
    count
}

/// One for a class that is tested, else none.
fn tested_once(choice: &Choice) -> usize
    ensures tested { result ≡ tested_count (choice_of choice.now ∷ []) }
    ensures open { result + open_count (choice_of choice.now ∷ []) ≡ 1 }
{
    match choice {
        Choice::Tested(_) => 1,
        Choice::Assumed => 0,
    }
}
