//! Declarations and theories.
ghost use Rattle.std.specs.Prelude.{◌≡◌, ◌<◌, ◌≤◌, length, OnOk};
ghost use Rattle.tg_grammar.specs.Page.{datatype, primrec, definition, program, specification};
ghost use Rattle.tg_grammar.specs.Parts.{Theory, Declaration, Declarations};
ghost use Rattle.tg_grammar.specs.Reading.{reads};
ghost use Rattle.tg_reading.specs.Answers.{Gives, by_rule};

use crate::datatypes::{constructors, parameters};
use crate::equations::equations;
use sqlite_items::Items;
use std::alloc::Global;
use tg_grammar::kinds::{
    BEGIN_WORD, DATATYPE_WORD, DEFINITION_WORD, DOT, DOUBLE_COLON, END_WORD, EQUAL, ONE_NUMBER,
    PRIMREC_WORD, PROGRAM_WORD, SEMICOLON, SPEC_WORD, THEORY_WORD, VERSION_WORD, WHERE_WORD,
};
use tg_grammar::{RawDecl, RawTheory};
use tg_reading::{Growing, Mode, Reader, Stop, function_type, names, term};

/// `theory`, a name, `version 1 begin`, declarations and `end`.
#[tactic(auto, using(crate::proofs::DeclarationRules::theory_is))]
pub(crate) fn theory(alloc: Global, reader: &mut Reader) -> Result<RawTheory, Stop>
    ensures exact { Gives result reader.new (reads Theory reader.old) }
    ensures less { OnOk result (length reader.new < length reader.old) }
{
    reader.take(THEORY_WORD)?;
    let name = reader.word(alloc)?;
    reader.take(VERSION_WORD)?;
    reader.take(ONE_NUMBER)?;
    reader.take(BEGIN_WORD)?;
    let decls = declarations(alloc, reader)?;
    reader.take(END_WORD)?;
    Ok(RawTheory {
        name,
        version: 1,
        decls,
    })
}

/// Declarations, one after another.
#[tactic(auto, using(crate::proofs::DeclarationRules::declarations))]
fn declarations(alloc: Global, reader: &mut Reader) -> Result<Items<RawDecl>, Stop>
    ensures exact { Gives result reader.new (reads Declarations reader.old) }
    ensures less { OnOk result (length reader.new ≤ length reader.old) }
{
    let mut declarations = Growing::new(alloc);
    while reader.is_next(&[
        DATATYPE_WORD,
        PRIMREC_WORD,
        DEFINITION_WORD,
        PROGRAM_WORD,
        SPEC_WORD,
    ]) {
        declarations.push(declaration(alloc, reader)?)?;
    }
    Ok(declarations.done())
}

/// A datatype, a function, the program or its specification.
#[tactic(auto, using(crate::proofs::DeclarationRules::declaration_is))]
fn declaration(alloc: Global, reader: &mut Reader) -> Result<RawDecl, Stop>
    ensures exact { Gives result reader.new (reads Declaration reader.old) }
    ensures less { OnOk result (length reader.new < length reader.old) }
{
    if reader.is_next(&[DATATYPE_WORD]) {
        return datatype(alloc, reader);
    }
    if reader.is_next(&[PRIMREC_WORD]) {
        return primrec(alloc, reader);
    }
    if reader.is_next(&[DEFINITION_WORD]) {
        return definition(alloc, reader);
    }
    if reader.is_next(&[PROGRAM_WORD]) {
        return program(alloc, reader);
    }
    specification(alloc, reader)
}

/// `datatype`, type variables, a name, `=`, constructors with `|` between them, and `;`.
fn datatype(alloc: Global, reader: &mut Reader) -> Result<RawDecl, Stop>
    ensures exact { Gives result reader.new (by_rule datatype reader.old) }
    ensures less { OnOk result (length reader.new < length reader.old) }
{
    reader.take(DATATYPE_WORD)?;
    let params = parameters(alloc, reader)?;
    let name = reader.word(alloc)?;
    reader.take(EQUAL)?;
    let cons = constructors(alloc, reader)?;
    reader.take(SEMICOLON)?;
    Ok(RawDecl::Datatype { name, params, cons })
}

/// `primrec`, a name, `::`, a type, `where` and equations.
fn primrec(alloc: Global, reader: &mut Reader) -> Result<RawDecl, Stop>
    ensures exact { Gives result reader.new (by_rule primrec reader.old) }
    ensures less { OnOk result (length reader.new < length reader.old) }
{
    reader.take(PRIMREC_WORD)?;
    let name = reader.word(alloc)?;
    reader.take(DOUBLE_COLON)?;
    let tys = function_type(alloc, reader)?;
    reader.take(WHERE_WORD)?;
    let eqs = equations(alloc, reader)?;
    Ok(RawDecl::Primrec { name, tys, eqs })
}

/// `definition`, a name, `::`, a type, `where` and equations.
fn definition(alloc: Global, reader: &mut Reader) -> Result<RawDecl, Stop>
    ensures exact { Gives result reader.new (by_rule definition reader.old) }
    ensures less { OnOk result (length reader.new < length reader.old) }
{
    reader.take(DEFINITION_WORD)?;
    let name = reader.word(alloc)?;
    reader.take(DOUBLE_COLON)?;
    let tys = function_type(alloc, reader)?;
    reader.take(WHERE_WORD)?;
    let eqs = equations(alloc, reader)?;
    Ok(RawDecl::Definition { name, tys, eqs })
}

/// `program`, a name, `::`, a type and `;`.
fn program(alloc: Global, reader: &mut Reader) -> Result<RawDecl, Stop>
    ensures exact { Gives result reader.new (by_rule program reader.old) }
    ensures less { OnOk result (length reader.new < length reader.old) }
{
    reader.take(PROGRAM_WORD)?;
    let name = reader.word(alloc)?;
    reader.take(DOUBLE_COLON)?;
    let tys = function_type(alloc, reader)?;
    reader.take(SEMICOLON)?;
    Ok(RawDecl::Program { name, tys })
}

/// `spec`, names, `.`, a term and `;`.
fn specification(alloc: Global, reader: &mut Reader) -> Result<RawDecl, Stop>
    ensures exact { Gives result reader.new (by_rule specification reader.old) }
    ensures less { OnOk result (length reader.new < length reader.old) }
{
    reader.take(SPEC_WORD)?;
    let vars = names(alloc, reader)?;
    reader.take(DOT)?;
    let body = term(alloc, Mode::Theory, reader)?;
    reader.take(SEMICOLON)?;
    Ok(RawDecl::Spec { vars, body })
}
