//! The type variables and the constructors of datatypes.
ghost use Rattle.std.specs.Prelude.{◌≡◌, ◌<◌, ◌≤◌, [], ◌∷◌, length, OnOk};
ghost use Rattle.tg_rules.specs.Repetition.{with_front};
ghost use Rattle.tg_grammar.specs.Page.{parameters, several_parameters, constructors_of};
ghost use Rattle.tg_grammar.specs.Parts.{Parameters, Constructor};
ghost use Rattle.tg_grammar.specs.Reading.{reads};
ghost use Rattle.tg_reading.specs.Answers.{Gives, by_rule};

use sqlite_items::Items;
use std::alloc::Global;
use tg_grammar::RawConDef;
use tg_grammar::kinds::{CLOSE_PAREN, COMMA, OPEN_PAREN, OR, TYPE_VARIABLE};
use tg_reading::{Growing, Reader, Stop, one, type_atoms};
use tg_types::Name;

/// Nothing, a type variable, or several in brackets.
#[tactic(auto, using(crate::proofs::DatatypeRules::parameters_is))]
pub(crate) fn parameters(alloc: Global, reader: &mut Reader) -> Result<Items<Name>, Stop>
    ensures exact { Gives result reader.new (reads Parameters reader.old) }
    ensures less { OnOk result (length reader.new ≤ length reader.old) }
{
    if !reader.is_next(&[TYPE_VARIABLE, OPEN_PAREN]) {
        return Ok(Items::new(alloc));
    }
    if reader.is_next(&[TYPE_VARIABLE]) {
        let name = reader.type_variable(alloc)?;
        return Ok(one(alloc, name)?);
    }
    several_parameters(alloc, reader)
}

/// `(`, two type variables or more with commas between them, and `)`.
#[tactic(auto, using(crate::proofs::DatatypeRules::several_by))]
fn several_parameters(alloc: Global, reader: &mut Reader) -> Result<Items<Name>, Stop>
    ensures exact { Gives result reader.new (by_rule several_parameters reader.old) }
    ensures less { OnOk result (length reader.new < length reader.old) }
{
    reader.take(OPEN_PAREN)?;
    let first = reader.type_variable(alloc)?;
    reader.take(COMMA)?;
    let names = type_variables(alloc, reader, first)?;
    reader.take(CLOSE_PAREN)?;
    Ok(names)
}

/// Type variables with commas between them, behind the first.
#[tactic(auto, using(crate::proofs::DatatypeRules::type_variables_by))]
fn type_variables(alloc: Global, reader: &mut Reader, first: Name) -> Result<Items<Name>, Stop>
    ensures exact { Gives result reader.new (with_front (first ∷ []) (by_rule parameters reader.old)) }
    ensures less { OnOk result (length reader.new < length reader.old) }
{
    let mut names = Growing::new(alloc);
    names.push(first)?;
    loop {
        names.push(reader.type_variable(alloc)?)?;
        if !reader.skips(COMMA) {
            return Ok(names.done());
        }
    }
}

/// A name and the types of the arguments.
#[tactic(auto, using(crate::proofs::DatatypeRules::constructor_is))]
fn constructor(alloc: Global, reader: &mut Reader) -> Result<RawConDef, Stop>
    ensures exact { Gives result reader.new (reads Constructor reader.old) }
    ensures less { OnOk result (length reader.new < length reader.old) }
{
    let name = reader.word(alloc)?;
    let args = type_atoms(alloc, reader)?;
    Ok(RawConDef { name, args })
}

/// Constructors with `|` between them.
#[tactic(auto, using(crate::proofs::DatatypeRules::constructors_by))]
pub(crate) fn constructors(alloc: Global, reader: &mut Reader) -> Result<Items<RawConDef>, Stop>
    ensures exact { Gives result reader.new (by_rule constructors_of reader.old) }
    ensures less { OnOk result (length reader.new < length reader.old) }
{
    let mut constructors = Growing::new(alloc);
    loop {
        constructors.push(constructor(alloc, reader)?)?;
        if !reader.skips(OR) {
            return Ok(constructors.done());
        }
    }
}
