//! Declarations of the specification.
ghost use Rattle.std.specs.Prelude.{◌≡◌, ◌↔◌, true, IfOk, OnOk, IfErr, option_map};
ghost use Rattle.std.specs.List.{list_any};
ghost use Rattle.tg_accept.specs.Faults.{is_taken};
ghost use Rattle.tg_accept.specs.Programs.{specification_meant};
ghost use Rattle.tg_accept.specs.Raw.{specification};
ghost use Rattle.tg_accept.specs.Theories.{checks_of};
ghost use Rattle.tg_infer.specs.Specifications.{HasInputs};
ghost use Rattle.tg_infer.specs.Refused.{IsDeclared, IsFirst};
ghost use Rattle.tg_infer.specs.View.{raw_term};
ghost use Rattle.tg_infer.specs.Words.{AreWordsOf, values_in};
ghost use Rattle.tg_typing.specs.View.{resolved};

use crate::binders::Binders;
use crate::lefts::add_numbered;
use crate::refusals::{Kind, Refusal};
use crate::resolving::resolve;
use crate::scopes::Scope;
use crate::sizes::{MOST_NODES, is_larger};
use crate::variables::Variables;
use crate::words::Words;
use std::alloc::{AllocError, Global};
use tg_declarations::Declarations;
use tg_equations::{core_term, count_specification_typings, is_specification_shaped};
use tg_grammar::RawTerm;
use tg_theory::Builder;
use tg_types::Name;
use tg_typing::{Resolved, Typings};

/// Declares the specification, or answers what is wrong with it first.
#[tactic(auto, using(crate::proofs::SpecificationLaws::declaring))]
pub(crate) fn declare_specification(
    alloc: Global,
    builder: &mut Builder,
    words: &Words,
    vars: &[Name],
    body: &RawTerm,
) -> Result<(), Refusal>
    requires { AreWordsOf words.now builder.old }
    ensures declared { OnOk result (IsDeclared builder.old builder.new words.now (specification vars.now (raw_term body.now))) }
    ensures cause { IfErr result (IsFirst (checks_of builder.old (specification vars.now (raw_term body.now)))) }
{
    if is_larger(body, MOST_NODES) {
        return Err(Refusal::Fault(Kind::TermSize));
    }
    let declared = builder.declarations();
    if !is_for_program(declared, vars.len()) {
        return Err(Refusal::Fault(Kind::Program));
    }
    let Some(t) = look_up(alloc, declared, words, vars, body)? else {
        return Err(Refusal::Fault(Kind::Name));
    };
    match count_specification_typings(alloc, declared, &t)? {
        Typings::None => return Err(Refusal::Fault(Kind::Typing)),
        Typings::One => {}
        Typings::Several => return Err(Refusal::Fault(Kind::Ambiguous)),
    }
    if !is_specification_shaped(alloc, declared, vars, &t)? {
        return Err(Refusal::Fault(Kind::Shape));
    }
    let t = core_term(alloc, declared, 0, &t)?;
    match builder.set_spec(t) {
        Ok(()) => Ok(()),
        Err(error) => Err(Refusal::from(error)),
    }
}

/// Whether there is a program, with as many inputs.
#[tactic(auto, using(crate::proofs::SpecificationLaws::programs))]
fn is_for_program(declared: &Declarations, count: usize) -> bool
    ensures { (result ≡ true) ↔ HasInputs declared.now count }
{
    match declared.program() {
        Some(def) => def.inputs.len() == count,
        None => false,
    }
}

/// What the specification means, or `None` where a name in it is wrong.
#[tactic(auto, using(crate::proofs::SpecificationLaws::meaning))]
fn look_up(
    alloc: Global,
    declared: &Declarations,
    words: &Words,
    vars: &[Name],
    body: &RawTerm,
) -> Result<Option<Resolved>, AllocError>
    requires { AreWordsOf words.now declared.now }
    ensures { IfOk result (λ found. option_map resolved found ≡ specification_meant declared.now vars.now (raw_term body.now)) }
{
    if some_value(words, vars) {
        return Ok(None);
    }
    let mut variables = Variables::new(alloc);
    let _ = add_numbered(&mut variables, 1, vars)?;
    let scope = Scope::outside(alloc, declared, words, &variables, false);
    let mut outer = Binders::new(alloc);
    let t = resolve(&scope, &mut outer, body)?;
    Ok(t)
}

/// Whether a constructor, a function or the program has one of these names.
fn some_value(words: &Words, xs: &[Name]) -> bool
    ensures { result ≡ list_any (λ x. is_taken x (values_in words.now)) xs.now }
{
    for x in xs {
        if words.is_value(x) {
            return true;
        }
    }
    false
}
