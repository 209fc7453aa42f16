//! Declarations of datatypes.
ghost use Rattle.std.specs.Prelude.{◌≡◌, IfOk, OnOk, IfErr, IsSome, map, option_map};
ghost use Rattle.tg_accept.specs.Datatypes.{names_in, constructor_meant};
ghost use Rattle.tg_accept.specs.Meaning.{each_meant};
ghost use Rattle.tg_accept.specs.Raw.{datatype};
ghost use Rattle.tg_accept.specs.Theories.{checks_of};
ghost use Rattle.tg_declarations.specs.View as view;
ghost use Rattle.tg_declarations.specs.View.{constructor};
ghost use Rattle.tg_infer.specs.Named.{names_declared};
ghost use Rattle.tg_infer.specs.Datatypes.{datatype_in, HaveNames};
ghost use Rattle.tg_infer.specs.Refused.{IsDeclared, IsFirst};
ghost use Rattle.tg_infer.specs.View.{raw_constructor};
ghost use Rattle.tg_infer.specs.Words.{AreWordsOf, values_in};
ghost use Rattle.tg_theory.specs.Names.{AreNames};

use crate::made::is_datatype_made;
use crate::numbers::Numbers;
use crate::params::Params;
use crate::refusals::{Kind, Refusal};
use crate::types::types_of_raw;
use crate::words::Words;
use sqlite_items::Items;
use std::alloc::{AllocError, Global};
use tg_declarations::{ConDef, DataDef};
use tg_equations::are_distinct;
use tg_grammar::RawConDef;
use tg_theory::Builder;
use tg_types::Name;

/// Declares a datatype behind the others, or answers what is wrong with it first. After an error the names may
/// be taken.
#[tactic(auto, using(crate::proofs::DatatypeLaws::declaring))]
pub(crate) fn declare_datatype(
    alloc: Global,
    builder: &mut Builder,
    words: &mut Words,
    name: &Name,
    params: &[Name],
    cons: &[RawConDef],
) -> Result<(), Refusal>
    requires words { AreWordsOf words.old builder.old }
    requires named { AreNames (names_declared (datatype name.now params.now (map raw_constructor cons.now))) }
    ensures declared { OnOk result (IsDeclared builder.old builder.new words.new (datatype name.now params.now (map raw_constructor cons.now))) }
    ensures cause { IfErr result (IsFirst (checks_of builder.old (datatype name.now params.now (map raw_constructor cons.now)))) }
{
    let Some(def) = datatype_def(alloc, words, name, params, cons)? else {
        return Err(Refusal::Fault(Kind::Name));
    };
    if !is_datatype_made(builder.declarations(), &def) {
        return Err(Refusal::Fault(Kind::Typing));
    }
    if !are_distinct(alloc, params)? {
        return Err(Refusal::Fault(Kind::Shape));
    }
    match builder.add_data(def) {
        Ok(_) => Ok(()),
        Err(error) => Err(Refusal::from(error)),
    }
}

/// What a declaration of a datatype means, or `None` where a name in it is wrong. A datatype is declared in
/// its own arguments. Its names are added where it means something, and may be where it doesn't.
#[tactic(auto, using(crate::proofs::DatatypeLaws::meaning))]
fn datatype_def(
    alloc: Global,
    words: &mut Words,
    name: &Name,
    params: &[Name],
    cons: &[RawConDef],
) -> Result<Option<DataDef>, AllocError>
    ensures is { IfOk result (λ found. option_map view.datatype found ≡ datatype_in words.old.types (values_in words.old) name.now params.now (map raw_constructor cons.now)) }
    ensures words { IfOk result (λ found. IsSome found → HaveNames words.old words.new name.now (names_in (map raw_constructor cons.now))) }
{
    if words.types.contains(name) {
        return Ok(None);
    }
    words.add_type(name)?;
    if !words.add_constructors(cons)? {
        return Ok(None);
    }
    let Some(cons) = constructors(alloc, params, &words.types, cons)? else {
        return Ok(None);
    };
    let params = u32::try_from(params.len()).map_err(|_| AllocError)?;
    let name = name.clone()?;
    Ok(Some(DataDef { name, params, cons }))
}

/// What constructors mean, if each means something, where the datatypes have these names.
fn constructors(
    alloc: Global,
    params: &[Name],
    names: &Numbers,
    cons: &[RawConDef],
) -> Result<Option<Items<ConDef>>, AllocError>
    ensures { IfOk result (λ found. option_map (map constructor) found ≡ each_meant (constructor_meant params.now names.now) (map raw_constructor cons.now)) }
{
    let variables = numbered(alloc, params)?;
    let mut all = Items::new(alloc);
    for con in cons {
        match constructor_def(alloc, &variables, names, con)? {
            Some(con) => all.push(con)?,
            None => return Ok(None),
        }
    }
    Ok(Some(all))
}

#[tactic(auto, using(crate::proofs::DatatypeLaws::constructors))]
fn constructor_def(
    alloc: Global,
    params: &Params,
    names: &Numbers,
    con: &RawConDef,
) -> Result<Option<ConDef>, AllocError>
    ensures { IfOk result (λ found. option_map constructor found ≡ constructor_meant params.now names.now (raw_constructor con.now)) }
{
    let Some(args) = types_of_raw(alloc, params, names, con.args.as_slice())? else {
        return Ok(None);
    };
    let name = con.name.clone()?;
    Ok(Some(ConDef { name, args }))
}

/// Type variables with their numbers.
fn numbered(alloc: Global, names: &[Name]) -> Result<Params, AllocError>
    ensures { IfOk result (λ params. params ≡ names.now) }
{
    let mut params = Params::new(alloc);
    for x in names {
        params.add(x)?;
    }
    Ok(params)
}
