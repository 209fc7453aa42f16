//! Types.
ghost use Rattle.std.specs.Prelude.{◌≡◌, ◌<◌, ◌≤◌, [], ◌∷◌, length, OnOk};
ghost use Rattle.tg_rules.specs.Repetition.{with_front};
ghost use Rattle.tg_grammar.specs.Parts.{SimpleType, TypeAtom, TypeAtoms, WholeType, FunctionType};
ghost use Rattle.tg_grammar.specs.Reading.{reads};
ghost use Rattle.tg_reading.specs.Answers.{Gives};
ghost use Rattle.tg_reading.specs.Pieces.{types_by_commas, named, behind_first};

use crate::lists::{Growing, one};
use crate::reader::{Reader, Stop};
use sqlite_items::Items;
use std::alloc::Global;
use tg_grammar::RawTy;
use tg_grammar::kinds::{
    BOOL_WORD, CLOSE_PAREN, COMMA, DOUBLE_ARROW, NAT_WORD, OPEN_PAREN, TYPE_VARIABLE,
};

/// `nat`, `bool`, a type variable or a name.
#[tactic(auto, using(crate::proofs::Rules::simple_type_is))]
fn simple_type(alloc: Global, reader: &mut Reader) -> Result<RawTy, Stop>
    ensures exact { Gives result reader.new (reads SimpleType reader.old) }
    ensures less { OnOk result (length reader.new < length reader.old) }
{
    if reader.skips(NAT_WORD) {
        return Ok(RawTy::Nat);
    }
    if reader.skips(BOOL_WORD) {
        return Ok(RawTy::Bool);
    }
    if reader.is_next(&[TYPE_VARIABLE]) {
        return Ok(RawTy::Var(reader.type_variable(alloc)?));
    }
    Ok(RawTy::Word(reader.word(alloc)?, Items::new(alloc)))
}

/// A type in brackets, or a simple one.
#[tactic(auto, using(crate::proofs::Rules::type_atom_is))]
pub fn type_atom(alloc: Global, reader: &mut Reader) -> Result<RawTy, Stop>
    ensures exact { Gives result reader.new (reads TypeAtom reader.old) }
    ensures less { OnOk result (length reader.new < length reader.old) }
{
    if reader.skips(OPEN_PAREN) {
        let ty = whole_type(alloc, reader)?;
        reader.take(CLOSE_PAREN)?;
        return Ok(ty);
    }
    simple_type(alloc, reader)
}

/// A type, which may be a name behind the types that it is applied to.
#[cycle(types)]
#[tactic(auto, using(crate::proofs::Rules::whole_type_by))]
pub(crate) fn whole_type(alloc: Global, reader: &mut Reader) -> Result<RawTy, Stop>
    ensures exact { Gives result reader.new (reads WholeType reader.old) }
    ensures less { OnOk result (length reader.new < length reader.old) }
{
    if reader.skips(OPEN_PAREN) {
        let first = whole_type(alloc, reader)?;
        return behind_first(alloc, reader, first);
    }
    let ty = simple_type(alloc, reader)?;
    named(alloc, reader, ty)
}

/// What stands behind the first type in brackets: nothing but the bracket, or the further types and the
/// name that all are applied to.
#[cycle(types)]
#[tactic(auto, using(crate::proofs::Rules::after_type_by))]
fn behind_first(alloc: Global, reader: &mut Reader, first: RawTy) -> Result<RawTy, Stop>
    ensures exact { Gives result reader.new (behind_first first reader.old) }
    ensures less { OnOk result (length reader.new < length reader.old) }
{
    if reader.skips(CLOSE_PAREN) {
        return named(alloc, reader, first);
    }
    reader.take(COMMA)?;
    let types = types(alloc, reader, first)?;
    reader.take(CLOSE_PAREN)?;
    Ok(RawTy::Word(reader.word(alloc)?, types))
}

/// Types with commas between them, behind the first.
#[cycle(types)]
#[tactic(auto, using(crate::proofs::Repetitions::types_by_commas))]
fn types(alloc: Global, reader: &mut Reader, first: RawTy) -> Result<Items<RawTy>, Stop>
    ensures exact { Gives result reader.new (with_front (first ∷ []) (types_by_commas reader.old)) }
    ensures less { OnOk result (length reader.new < length reader.old) }
{
    let mut types = Growing::new(alloc);
    types.push(first)?;
    loop {
        types.push(whole_type(alloc, reader)?)?;
        if !reader.skips(COMMA) {
            return Ok(types.done());
        }
    }
}

/// A type, or the name that is next applied to it.
fn named(alloc: Global, reader: &mut Reader, ty: RawTy) -> Result<RawTy, Stop>
    ensures exact { Gives result reader.new (named ty reader.old) }
    ensures less { OnOk result (length reader.new ≤ length reader.old) }
{
    if !reader.is_word_next() {
        return Ok(ty);
    }
    let name = reader.word(alloc)?;
    Ok(RawTy::Word(name, one(alloc, ty)?))
}

/// The types of a function's arguments, and the type of its result, with `=>` between them.
#[tactic(auto, using(crate::proofs::Repetitions::types_by_arrows))]
pub fn function_type(alloc: Global, reader: &mut Reader) -> Result<Items<RawTy>, Stop>
    ensures exact { Gives result reader.new (reads FunctionType reader.old) }
    ensures less { OnOk result (length reader.new < length reader.old) }
{
    let mut types = Growing::new(alloc);
    loop {
        types.push(whole_type(alloc, reader)?)?;
        if !reader.skips(DOUBLE_ARROW) {
            return Ok(types.done());
        }
    }
}

/// Types in brackets and simple ones, one after another.
#[tactic(auto, using(crate::proofs::Repetitions::type_atoms))]
pub fn type_atoms(alloc: Global, reader: &mut Reader) -> Result<Items<RawTy>, Stop>
    ensures exact { Gives result reader.new (reads TypeAtoms reader.old) }
    ensures less { OnOk result (length reader.new ≤ length reader.old) }
{
    let mut types = Growing::new(alloc);
    while reader.is_type_atom_next() {
        types.push(type_atom(alloc, reader)?)?;
    }
    Ok(types.done())
}
