//! The shape of a function's equations and of a specification.
ghost use Rattle.std.specs.Prelude.{◌≡◌, ◌↔◌, [], true, IfOk};
ghost use Rattle.tg_accept.specs.Checks.{Each};
ghost use Rattle.tg_accept.specs.Functions.{IsEquationShaped, IsPrimrecWritten, IsDefinitionShaped, Meant};
ghost use Rattle.tg_accept.specs.MeantLaws.{IsFunctionWritten};
ghost use Rattle.tg_accept.specs.Programs.{IsSpecificationShaped};
ghost use Rattle.tg_declarations.specs.View.{function};
ghost use Rattle.tg_equations.specs.View.{equation, equations};
ghost use Rattle.tg_equations.specs.Shaped.{meant, Covers, IsOnePlain};
ghost use Rattle.tg_typing.specs.View.{resolved};

use crate::cases::are_cases_shaped;
use crate::equations::Equation;
use crate::matching::{are_at, are_without, datatype_at, equation_places, has_one_each, place_in};
use crate::names::{are_distinct, are_left_names_different};
use std::alloc::{AllocError, Global};
use tg_declarations::{Declarations, FunDef};
use tg_types::Name;
use tg_typing::Resolved;

/// Whether the equations of a function, whose name and types `signature` gives, have their shape, but for the uses
/// that a recursive function makes of itself. Each begins with the function's name, has different variables on
/// its left side, and the branches that each `case` asks for. A definition is one equation without a
/// constructor pattern. A recursive function's equations have one each, all in the same place, and there is
/// exactly one for each constructor of the argument's type.
pub fn is_function_written(
    alloc: Global,
    declared: &Declarations,
    is_recursive: bool,
    signature: &FunDef,
    es: &[Equation],
) -> Result<bool, AllocError>
    ensures { IfOk result (λ yes. (yes ≡ true) ↔ IsFunctionWritten declared.now is_recursive (meant (function signature.now) (equations es.now))) }
{
    if !are_equations_shaped(alloc, declared, signature, es)? {
        return Ok(false);
    }
    if is_recursive {
        covers(alloc, declared, signature, es)
    } else {
        is_definition(alloc, es)
    }
}

fn are_equations_shaped(
    alloc: Global,
    declared: &Declarations,
    signature: &FunDef,
    es: &[Equation],
) -> Result<bool, AllocError>
    ensures { IfOk result (λ yes. (yes ≡ true) ↔ Each (IsEquationShaped declared.now (function signature.now)) (equations es.now)) }
{
    for e in es {
        if !is_equation_shaped(alloc, declared, signature, e)? {
            return Ok(false);
        }
    }
    Ok(true)
}

fn is_equation_shaped(
    alloc: Global,
    declared: &Declarations,
    signature: &FunDef,
    e: &Equation,
) -> Result<bool, AllocError>
    ensures { IfOk result (λ yes. (yes ≡ true) ↔ IsEquationShaped declared.now (function signature.now) (equation e.now)) }
{
    if e.head != signature.name {
        return Ok(false);
    }
    if !are_left_names_different(alloc, e.patterns.as_slice())? {
        return Ok(false);
    }
    let shaped = are_cases_shaped(alloc, declared, &e.body)?;
    Ok(shaped)
}

// Each equation has one constructor pattern, all in one place, and each constructor of the type there has one
// equation.
fn covers(
    alloc: Global,
    declared: &Declarations,
    signature: &FunDef,
    es: &[Equation],
) -> Result<bool, AllocError>
    ensures { IfOk result (λ yes. (yes ≡ true) ↔ Covers declared.now (function signature.now) (equations es.now)) }
{
    let place = place_in(alloc, es)?;
    if !are_at(alloc, es, place)? {
        return Ok(false);
    }
    let places = equation_places(alloc, es)?;
    let n = datatype_at(signature.args.as_slice(), place);
    let covered = has_one_each(alloc, declared, n, &places)?;
    Ok(covered)
}

fn is_definition(alloc: Global, es: &[Equation]) -> Result<bool, AllocError>
    ensures { IfOk result (λ yes. (yes ≡ true) ↔ IsOnePlain (equations es.now)) }
{
    if es.len() != 1 {
        return Ok(false);
    }
    let without = are_without(alloc, es)?;
    Ok(without)
}

/// Whether a specification has its shape: different variables, and the branches that each `case` asks for.
pub fn is_specification_shaped(
    alloc: Global,
    declared: &Declarations,
    xs: &[Name],
    t: &Resolved,
) -> Result<bool, AllocError>
    ensures { IfOk result (λ yes. (yes ≡ true) ↔ IsSpecificationShaped declared.now xs.now (resolved t.now)) }
{
    if !are_distinct(alloc, xs)? {
        return Ok(false);
    }
    let shaped = are_cases_shaped(alloc, declared, t)?;
    Ok(shaped)
}
