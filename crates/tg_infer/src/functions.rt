//! Declarations of functions.
ghost use Rattle.std.specs.Prelude.{◌≡◌, ◌↔◌, true, IfOk, OnOk, IfErr, map, option_map};
ghost use Rattle.tg_accept.specs.Functions.{function_meant, signature_of};
ghost use Rattle.tg_accept.specs.Theories.{checks_of};
ghost use Rattle.tg_declarations.specs.View as view;
ghost use Rattle.tg_infer.specs.Functions.{raw_function, seen_meant, SmallSides, IsWritten};
ghost use Rattle.tg_infer.specs.Named.{names_declared};
ghost use Rattle.tg_infer.specs.Refused.{IsDeclared, IsFirst};
ghost use Rattle.tg_infer.specs.View.{raw_type, raw_equation};
ghost use Rattle.tg_infer.specs.Words.{AreWordsOf};
ghost use Rattle.tg_theory.specs.Names.{AreNames};
ghost use Rattle.tg_types.specs.Types.{ty};

use crate::equations::equations;
use crate::programs::value_types;
use crate::refusals::{Kind, Refusal};
use crate::scopes::Scope;
use crate::signatures::Signature;
use crate::sizes::{MOST_NODES, is_larger};
use crate::typings::typing_fault;
use crate::variables::Variables;
use crate::words::Words;
use sqlite_items::Items;
use std::alloc::{AllocError, Global};
use tg_declarations::{Body, Declarations, FunDef};
use tg_equations::{Equation, is_function_written, whole_function};
use tg_grammar::{RawEq, RawTy};
use tg_term::{Node, Term};
use tg_theory::Builder;
use tg_types::Name;

/// A function's name and types, and its equations, all words looked up. The body of `signature` says nothing.
#[derive(Drop)]
pub(crate) struct Meant {
    pub signature: FunDef,
    pub equations: Items<Equation>,
}

/// Declares a function behind the others, or answers what is wrong with it first.
#[tactic(auto, using(crate::proofs::FunctionLaws::declaring))]
pub(crate) fn declare_function(
    alloc: Global,
    builder: &mut Builder,
    words: &mut Words,
    is_recursive: bool,
    name: &Name,
    tys: &[RawTy],
    eqs: &[RawEq],
) -> Result<(), Refusal>
    requires words { AreWordsOf words.old builder.old }
    requires named { AreNames (names_declared (raw_function is_recursive name.now (map raw_type tys.now) (map raw_equation eqs.now))) }
    ensures declared { OnOk result (IsDeclared builder.old builder.new words.new (raw_function is_recursive name.now (map raw_type tys.now) (map raw_equation eqs.now))) }
    ensures cause { IfErr result (IsFirst (checks_of builder.old (raw_function is_recursive name.now (map raw_type tys.now) (map raw_equation eqs.now)))) }
{
    if !are_small(eqs) {
        return Err(Refusal::Fault(Kind::TermSize));
    }
    let declared = builder.declarations();
    let Some(function) = look_up(alloc, declared, words, is_recursive, name, tys, eqs)? else {
        return Err(Refusal::Fault(Kind::Name));
    };
    if let Some(kind) = typing_fault(alloc, declared, is_recursive, &function)? {
        return Err(Refusal::Fault(kind));
    }
    let Some(def) = written(alloc, declared, is_recursive, function)? else {
        return Err(Refusal::Fault(Kind::Shape));
    };
    match builder.add_def(def) {
        Ok(_) => {
            words.add_function(name)?;
            Ok(())
        }
        Err(error) => Err(Refusal::from(error)),
    }
}

/// Whether no right side has too many nodes.
#[tactic(auto, using(crate::proofs::FunctionLaws::sizes))]
fn are_small(es: &[RawEq]) -> bool
    ensures { (result ≡ true) ↔ SmallSides (map raw_equation es.now) }
{
    for e in es {
        if is_larger(&e.body, MOST_NODES) {
            return false;
        }
    }
    true
}

/// What a declaration of a function means, or `None` where a name in it is wrong.
#[tactic(auto, using(crate::proofs::FunctionLaws::meaning))]
fn look_up(
    alloc: Global,
    declared: &Declarations,
    words: &Words,
    is_recursive: bool,
    name: &Name,
    tys: &[RawTy],
    eqs: &[RawEq],
) -> Result<Option<Meant>, AllocError>
    requires { AreWordsOf words.now declared.now }
    ensures { IfOk result (λ found. option_map seen_meant found ≡ function_meant declared.now name.now is_recursive (map raw_type tys.now) (map raw_equation eqs.now)) }
{
    let Some(signature) = value_types(alloc, words, name, tys)? else {
        return Ok(None);
    };
    let variables = Variables::new(alloc);
    let scope = Scope {
        alloc,
        declared,
        words,
        own: Some(name),
        is_recursive,
        variables: &variables,
        in_certificate: false,
    };
    let Some(equations) = equations(&scope, eqs)? else {
        return Ok(None);
    };
    let signature = unsaid(alloc, name, signature)?;
    Ok(Some(Meant {
        signature,
        equations,
    }))
}

/// A function of these types whose body says nothing.
fn unsaid(alloc: Global, name: &Name, signature: Signature) -> Result<FunDef, AllocError>
    ensures { IfOk result (λ def. view.function def ≡ signature_of name.now signature.params (map ty signature.args, ty signature.result)) }
{
    let name = name.clone()?;
    let body = Body::Plain(Term::new(alloc, Node::Truth(false))?);
    Ok(FunDef {
        name,
        params: signature.params,
        args: signature.args,
        result: signature.result,
        body,
    })
}

/// The function that equations declare, or `None` where they haven't their shape.
fn written(
    alloc: Global,
    declared: &Declarations,
    is_recursive: bool,
    function: Meant,
) -> Result<Option<FunDef>, AllocError>
    ensures { IfOk result (λ found. IsWritten declared.now is_recursive (seen_meant function) (option_map view.function found)) }
{
    let Meant {
        signature,
        equations,
    } = function;
    let es = equations.as_slice();
    if !is_function_written(alloc, declared, is_recursive, &signature, es)? {
        return Ok(None);
    }
    let def = whole_function(alloc, declared, is_recursive, signature, es)?;
    Ok(Some(def))
}
