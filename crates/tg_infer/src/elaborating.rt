//! Theories whose text is accepted.
ghost use Rattle.std.specs.Prelude.{◌≡◌, IfOk, OnOk, IfErr, map};
ghost use Rattle.tg_accept.specs.Declared.{nothing};
ghost use Rattle.tg_accept.specs.Theories.{checks_of, IsTheoryOf};
ghost use Rattle.tg_infer.specs.Named.{names_declared, AreNamed};
ghost use Rattle.tg_infer.specs.Refused.{IsDeclared, IsFirst};
ghost use Rattle.tg_infer.specs.Theories.{IsRefusal, missing_at};
ghost use Rattle.tg_infer.specs.View.{raw_declaration};
ghost use Rattle.tg_infer.specs.Words.{AreWordsOf};
ghost use Rattle.tg_theory.specs.Names.{IsName, AreNames};

use crate::datatypes::declare_datatype;
use crate::errors::TheoryErr;
use crate::functions::declare_function;
use crate::programs::declare_program;
use crate::refusals::Refusal;
use crate::specifications::declare_specification;
use crate::words::Words;
use std::alloc::Global;
use tg_grammar::{RawDecl, RawTheory};
use tg_theory::{BuildErr, Builder, Theory};

/// The theory that a text means, if it is accepted.
///
/// An error comes exactly where it isn't: at the first declaration that has a fault, for the first kind of fault that
/// it has, and behind all declarations where the program or the specification is missing; or where memory is wanting.
#[tactic(auto, using(crate::proofs::TheoryLaws::elaborating))]
pub fn elaborate(alloc: Global, raw: &RawTheory) -> Result<Theory, TheoryErr>
    requires name { IsName raw.now.name }
    requires named { AreNamed (map raw_declaration raw.now.decls) }
    ensures accepted { IfOk result (λ th. IsTheoryOf raw.now.name nothing (map raw_declaration raw.now.decls) th) }
    ensures refused { IfErr result (IsRefusal (map raw_declaration raw.now.decls)) }
{
    let mut builder = Builder::new(alloc);
    let mut words = Words::new(alloc);
    let decls = raw.decls.as_slice();
    for (at, decl) in decls.iter().enumerate() {
        if let Err(refusal) = declare(alloc, &mut builder, &mut words, decl) {
            return Err(refusal.at(at as u64 + 1));
        }
    }
    let name = raw.name.clone()?;
    match builder.finish(name) {
        Ok(th) => Ok(th),
        Err(error) => Err(missing(error, decls.len() as u64 + 1)),
    }
}

/// The program or the specification is missing behind so many declarations.
fn missing(error: BuildErr, decl: u64) -> TheoryErr
    ensures { result ≡ missing_at error decl }
{
    match error {
        BuildErr::Memory => TheoryErr::Memory,
        BuildErr::Name { .. } | BuildErr::Shape | BuildErr::Program => TheoryErr::Program { decl },
    }
}

/// Declares what a declaration means behind the others, or answers what is wrong with it first.
fn declare(
    alloc: Global,
    builder: &mut Builder,
    words: &mut Words,
    decl: &RawDecl,
) -> Result<(), Refusal>
    requires words { AreWordsOf words.old builder.old }
    requires named { AreNames (names_declared (raw_declaration decl.now)) }
    ensures declared { OnOk result (IsDeclared builder.old builder.new words.new (raw_declaration decl.now)) }
    ensures cause { IfErr result (IsFirst (checks_of builder.old (raw_declaration decl.now))) }
{
    match decl {
        RawDecl::Datatype { name, params, cons } => declare_datatype(
            alloc,
            builder,
            words,
            name,
            params.as_slice(),
            cons.as_slice(),
        ),
        RawDecl::Primrec { name, tys, eqs } => declare_function(
            alloc,
            builder,
            words,
            true,
            name,
            tys.as_slice(),
            eqs.as_slice(),
        ),
        RawDecl::Definition { name, tys, eqs } => declare_function(
            alloc,
            builder,
            words,
            false,
            name,
            tys.as_slice(),
            eqs.as_slice(),
        ),
        RawDecl::Program { name, tys } => {
            declare_program(alloc, builder, words, name, tys.as_slice())
        }
        RawDecl::Spec { vars, body } => {
            declare_specification(alloc, builder, words, vars.as_slice(), body)
        }
    }
}
