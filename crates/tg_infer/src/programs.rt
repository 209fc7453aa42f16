//! Declarations of the program under test.
ghost use Rattle.std.specs.Prelude.{◌≡◌, IfOk, OnOk, IfErr, map, option_map};
ghost use Rattle.tg_accept.specs.Raw.{program};
ghost use Rattle.tg_accept.specs.Theories.{checks_of};
ghost use Rattle.tg_infer.specs.Named.{names_declared};
ghost use Rattle.tg_infer.specs.Refused.{IsDeclared, IsFirst};
ghost use Rattle.tg_infer.specs.Signatures.{seen_signature, value_meant};
ghost use Rattle.tg_infer.specs.View.{raw_type};
ghost use Rattle.tg_infer.specs.Words.{AreWordsOf, values_in};
ghost use Rattle.tg_theory.specs.Names.{AreNames};

use crate::made::is_signature_made;
use crate::refusals::{Kind, Refusal};
use crate::signatures::{Signature, declared_types};
use crate::words::Words;
use std::alloc::{AllocError, Global};
use tg_declarations::ProgDef;
use tg_grammar::RawTy;
use tg_theory::Builder;
use tg_types::Name;

/// Declares the program under test, or answers what is wrong with it first.
#[tactic(auto, using(crate::proofs::ProgramLaws::declaring))]
pub(crate) fn declare_program(
    alloc: Global,
    builder: &mut Builder,
    words: &mut Words,
    name: &Name,
    tys: &[RawTy],
) -> Result<(), Refusal>
    requires words { AreWordsOf words.old builder.old }
    requires named { AreNames (names_declared (program name.now (map raw_type tys.now))) }
    ensures declared { OnOk result (IsDeclared builder.old builder.new words.new (program name.now (map raw_type tys.now))) }
    ensures cause { IfErr result (IsFirst (checks_of builder.old (program name.now (map raw_type tys.now)))) }
{
    let Some(signature) = value_types(alloc, words, name, tys)? else {
        return Err(Refusal::Fault(Kind::Name));
    };
    if !is_signature_made(builder.declarations(), &signature) {
        return Err(Refusal::Fault(Kind::Typing));
    }
    let word = name.clone()?;
    let def = ProgDef {
        name: name.clone()?,
        inputs: signature.args,
        answer: signature.result,
    };
    match builder.set_program(def) {
        Ok(()) => {
            words.set_program(word);
            Ok(())
        }
        Err(error) => Err(Refusal::from(error)),
    }
}

/// What the declared types of a function or the program mean, or `None` where a name in them is wrong, there
/// are none, or its own name is declared already.
#[tactic(auto, using(crate::proofs::ProgramLaws::meaning))]
pub(crate) fn value_types(
    alloc: Global,
    words: &Words,
    name: &Name,
    tys: &[RawTy],
) -> Result<Option<Signature>, AllocError>
    ensures { IfOk result (λ found. option_map seen_signature found ≡ value_meant words.now.types (values_in words.now) name.now (map raw_type tys.now)) }
{
    if words.is_value(name) {
        return Ok(None);
    }
    let types = declared_types(alloc, &words.types, tys)?;
    Ok(types)
}
