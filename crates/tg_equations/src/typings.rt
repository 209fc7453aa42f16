//! How many typings an equation and a specification have.
ghost use Rattle.std.specs.Prelude.{◌≡◌, ◌∷◌, [], IfOk, map, option_map};
ghost use Rattle.tg_accept.specs.Declared.{theory};
ghost use Rattle.tg_accept.specs.Equations.{IsEquationTyping};
ghost use Rattle.tg_accept.specs.Functions.{self_of};
ghost use Rattle.tg_accept.specs.Kept.{IsKept};
ghost use Rattle.tg_accept.specs.Meant.{AreMade};
ghost use Rattle.tg_accept.specs.Programs.{IsSpecificationTyping};
ghost use Rattle.tg_declarations.specs.View.{function};
ghost use Rattle.tg_equations.specs.Told.{AreTypings};
ghost use Rattle.tg_equations.specs.View.{equation};
ghost use Rattle.tg_types.specs.Types.{ty};
ghost use Rattle.tg_typing.specs.View.{resolved};

use crate::equations::Equation;
use crate::left_sides::left_types;
use std::alloc::{AllocError, Global};
use tg_declarations::{Declarations, FunDef};
use tg_types::Ty;
use tg_typing::{Resolved, Typings, count_typings_at};

/// How many typings an equation of a function has, whose name and types `signature` gives: its left side has the
/// declared argument types and its right side the result type. It may use the function itself where that is
/// recursive.
pub fn count_equation_typings(
    alloc: Global,
    declared: &Declarations,
    is_recursive: bool,
    signature: &FunDef,
    e: &Equation,
) -> Result<Typings, AllocError>
    requires kept { IsKept declared.now }
    requires made { AreMade (theory [] declared.now) signature.now.params (ty signature.now.result ∷ map ty signature.now.args) }
    ensures { IfOk result (λ answer. AreTypings
        (IsEquationTyping (theory [] declared.now) (self_of is_recursive (function signature.now)) (function signature.now) (equation e.now)) answer) }
{
    let args = signature.args.as_slice();
    let Some(vars) = left_types(alloc, declared, e.patterns.as_slice(), args)? else {
        return Ok(Typings::None);
    };
    let own = own_of(is_recursive, signature);
    let typings = count_typings_at(
        alloc,
        declared,
        own,
        vars.as_slice(),
        &[],
        &e.body,
        &signature.result,
    )?;
    Ok(typings)
}

// The function where it may use itself.
fn own_of(is_recursive: bool, signature: &FunDef) -> Option<&FunDef>
    ensures { option_map (λ def. function def.now) result ≡ self_of is_recursive (function signature.now) }
{
    if is_recursive { Some(signature) } else { None }
}

/// How many typings a specification has at bool, where its free variables have the types of the program's
/// inputs. It has no variable where there is no program.
pub fn count_specification_typings(
    alloc: Global,
    declared: &Declarations,
    t: &Resolved,
) -> Result<Typings, AllocError>
    requires kept { IsKept declared.now }
    ensures { IfOk result (λ answer. AreTypings (IsSpecificationTyping declared.now (resolved t.now)) answer) }
{
    let inputs = inputs(declared);
    let typings = count_typings_at(alloc, declared, None, inputs, &[], t, &Ty::Bool)?;
    Ok(typings)
}

// The types of the program's inputs; there are none where there is no program.
fn inputs(declared: &Declarations) -> &[Ty]
    ensures { map ty result.now ≡ (theory [] declared.now).program.inputs }
{
    match declared.program() {
        Some(def) => def.inputs.as_slice(),
        None => &[],
    }
}
