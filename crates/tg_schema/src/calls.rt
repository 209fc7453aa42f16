//! The rows of `case` and of calls.
ghost use Rattle.std.specs.Prelude.{◌≡◌, ◌++◌, [], length, option_map, option_copied};
ghost use Rattle.tg_accept.specs.Declared.{theory};
ghost use Rattle.tg_declarations.specs.View.{function};
ghost use Rattle.tg_model.specs.Denotation.{datatype_of_place, others};
ghost use Rattle.tg_model.specs.Theory.{datatype_of};
ghost use Rattle.tg_rows.specs.Parts.{branch_at};
ghost use Rattle.tg_rows.specs.Rows.{case_by, entered, plain_body, recursive_body, unfold_by, unfold_def};
ghost use Rattle.tg_schema.specs.Found.{listed, opener, term_of};
ghost use Rattle.tg_term.specs.View.{arms};
ghost use Rattle.tg_types.specs.Types.{ty};

use crate::found::{Arguments, Found, Writing};
use crate::opening::{item, opened};
use crate::parts::{called, case_of};
use sqlite_items::at;
use tg_declarations::{Body, Declarations, FunDef};
use tg_term::{Branch, Term};
use tg_types::{DataId, Ty};

/// How many arguments there are.
fn count(us: Arguments<'_>) -> usize
    ensures { result ≡ length (listed us.entry) }
{
    match us {
        Arguments::These(ts) => ts.len(),
        Arguments::Only(_) => 1,
    }
}

/// The branch at a place, from 0: how many variables it binds, and its body.
#[tactic(auto, using(crate::proofs::CallLaws::branches))]
fn branch_at(branches: &[Branch], place: usize) -> Option<(u32, &Term)>
    ensures { option_map (λ p. (p.0, p.1.now)) result ≡ branch_at (arms branches.now) place }
{
    let branch = at(branches, place)?;
    Some((branch.vars, &branch.body))
}

/// A branch with arguments for its variables, as many as it binds.
fn entered<'a>(us: Arguments<'a>, vars: u32, body: &'a Term) -> Option<Found<'a>>
    ensures { option_map term_of result ≡ entered (listed us.entry) (vars, body.now) }
{
    if vars as usize == count(us) {
        Some(Found::Instantiated(us, body))
    } else {
        None
    }
}

/// A `case` whose scrutinee is written so.
pub(crate) fn case_by<'a>(
    declared: &Declarations,
    writing: Writing,
    t: &'a Term,
) -> Option<Found<'a>>
    ensures { option_map term_of result ≡ case_by (opener (theory [] declared.now) writing) t.now }
{
    let (d, scrutinee, branches) = case_of(t)?;
    let opened = opened(declared, writing, d, scrutinee)?;
    let (vars, body) = branch_at(branches, opened.place)?;
    entered(opened.arguments, vars, body)
}

/// The body of a definition.
fn plain_body(def: &FunDef) -> Option<&Term>
    ensures { option_copied result ≡ plain_body (function def.now).body }
{
    match &def.body {
        Body::Plain(t) => Some(t),
        Body::Rec { .. } => None,
    }
}

/// The place, from 1, that a primitive recursive function recurses on, and its bodies.
fn recursive_body(def: &FunDef) -> Option<(u32, &[Term])>
    ensures { option_map (λ p. (p.0, p.1.now)) result ≡ recursive_body (function def.now).body }
{
    match &def.body {
        Body::Plain(_) => None,
        Body::Rec { place, cases } => Some((*place, cases.as_slice())),
    }
}

/// A call of a definition.
#[tactic(auto, using(crate::proofs::CallLaws::calls))]
pub(crate) fn unfold_def<'a>(declared: &'a Declarations, t: &'a Term) -> Option<Found<'a>>
    ensures { option_map term_of result ≡ unfold_def (theory [] declared.now) t.now }
{
    let (f, ts) = called(t)?;
    let body = plain_body(declared.fun_def(f)?)?;
    Some(Found::Substituted(ts, body))
}

/// The number of the datatype of a function's argument at a place, from 1, and 0 of any other type.
#[tactic(auto, using(crate::proofs::CallLaws::typed))]
fn datatype_of_place(def: &FunDef, place: u32) -> DataId
    ensures { result ≡ datatype_of_place (function def.now) place }
{
    match item(def.args.as_slice(), place) {
        Some(t) => data_number(t),
        None => 0,
    }
}

#[tactic(auto, using(crate::proofs::CallLaws::types))]
fn data_number(t: &Ty) -> DataId
    ensures { result ≡ datatype_of (ty t.now) }
{
    match t {
        Ty::App(d, _) => *d,
        Ty::Nat => 0,
        Ty::Bool => 0,
        Ty::Param(_) => 0,
        Ty::Meta(_) => 0,
    }
}

/// A call of a primitive recursive function whose argument at its place is written so.
#[tactic(auto, using(crate::proofs::CallLaws::calls))]
pub(crate) fn unfold_by<'a>(
    declared: &'a Declarations,
    writing: Writing,
    t: &'a Term,
) -> Option<Found<'a>>
    ensures { option_map term_of result ≡ unfold_by (opener (theory [] declared.now) writing) (theory [] declared.now) t.now }
{
    let (f, ts) = called(t)?;
    let def = declared.fun_def(f)?;
    let (place, cases) = recursive_body(def)?;
    let argument = item(ts, place)?;
    let opened = opened(declared, writing, datatype_of_place(def, place), argument)?;
    let body = at(cases, opened.place)?;
    let (before, after) = others(ts, place);
    Some(Found::Unfolded(before, after, opened.arguments, body))
}

/// The terms before a number, from 1, and those after it. They are all terms where none has the number.
#[tactic(auto, using(crate::proofs::CallLaws::beside))]
fn others(ts: &[Term], number: u32) -> (&[Term], &[Term])
    ensures { result.0.now ++ result.1.now ≡ others ts.now number }
{
    let number = number as usize;
    if number == 0 || ts.len() < number {
        return (&[], ts);
    }
    (&ts[..number - 1], &ts[number..])
}
