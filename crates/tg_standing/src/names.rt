//! The names of a theory, which texts use.
ghost use Rattle.std.specs.Prelude.{◌≡◌, ◌++◌, ◌∷◌, [], IfOk, OnOk, map};
ghost use Rattle.tg_model.specs.Accepted.{AreDistinct, constructor_names, type_names};
ghost use Rattle.tg_model.specs.Theory.{Function};
ghost use Rattle.tg_accept.specs.Standing.{declared_in};
ghost use Rattle.tg_declarations.specs.declared.definitions.ConDef.{ConDef};
ghost use Rattle.tg_infer.specs.Words.{AreWordsOf};

use std::alloc::{AllocError, Global};
use tg_declarations::ConDef;
use tg_infer::{Numbers, Words};
use tg_theory::Theory;
use tg_types::Name;

/// The names of a theory, found by hash; they serve for all texts of a certificate or of outcomes.
pub fn words_of(alloc: Global, th: &Theory) -> Result<Words, AllocError>
    ensures { IfOk result (λ words. AreWordsOf words (declared_in th.now)) }
{
    let types = names_of_types(alloc, th)?;
    let constructors = names_of_constructors(alloc, th)?;
    let functions = names_of_functions(alloc, th)?;
    let program = th.program().name.clone()?;
    Ok(Words {
        types,
        constructors,
        functions,
        program: Some(program),
    })
}

#[tactic(auto, using(crate::proofs::NameLaws::naming))]
fn names_of_types(alloc: Global, th: &Theory) -> Result<Numbers, AllocError>
    ensures { IfOk result (λ names. names ≡ type_names th.now) }
{
    th.accepted();
    let mut names = Numbers::new(alloc);
    for i in 0..th.data_count() {
        add_next(&mut names, &th.data_def(i + 1).name)?;
    }
    Ok(names)
}

#[tactic(auto, using(crate::proofs::NameLaws::naming))]
fn names_of_functions(alloc: Global, th: &Theory) -> Result<Numbers, AllocError>
    ensures { IfOk result (λ names. names ≡ map (λ (f : Function). f.name) th.now.functions) }
{
    th.accepted();
    let mut names = Numbers::new(alloc);
    for i in 0..th.fun_count() {
        add_next(&mut names, &th.fun(i + 1).name)?;
    }
    Ok(names)
}

#[tactic(auto, using(crate::proofs::NameLaws::naming))]
fn names_of_constructors(alloc: Global, th: &Theory) -> Result<Numbers, AllocError>
    ensures { IfOk result (λ names. names ≡ constructor_names th.now.datatypes) }
{
    th.accepted();
    let mut names = Numbers::new(alloc);
    for i in 0..th.data_count() {
        add_each(&mut names, th.data_def(i + 1).cons.as_slice())?;
    }
    Ok(names)
}

/// Adds the names of constructors, none of which stands twice.
#[tactic(auto, using(crate::proofs::NameLaws::naming))]
fn add_each(names: &mut Numbers, cons: &[ConDef]) -> Result<(), AllocError>
    requires { AreDistinct (names.old ++ map (λ (con : ConDef). con.name) cons.now) }
    ensures { OnOk result (names.new ≡ names.old ++ map (λ (con : ConDef). con.name) cons.now) }
{
    for con in cons {
        add_next(names, &con.name)?;
    }
    Ok(())
}

#[tactic(auto, using(crate::proofs::NameLaws::adding))]
fn add_next(names: &mut Numbers, x: &Name) -> Result<(), AllocError>
    requires { AreDistinct (names.old ++ x.now ∷ []) }
    ensures { OnOk result (names.new ≡ names.old ++ x.now ∷ []) }
{
    let _ = names.add(x)?;
    Ok(())
}
