//! Shapes of declarations: the arguments of a datatype's constructors, and the cases of a primitive
//! recursive function.
ghost use Rattle.std.specs.Prelude.{◌≡◌, ◌+◌, true, [], ◌∷◌, ◌&&◌, not, IfOk, length, map};
ghost use Rattle.std.specs.List.{list_all, list_any};
ghost use Rattle.tg_accept.specs.Faults.{each_call, is_lower_use, is_argument, from_one_to_eight, has_parameter, is_datatype_shaped, is_body_shaped, are_cases_shaped};
ghost use Rattle.tg_declarations.specs.View.{constructor, datatype, function, body};
ghost use Rattle.tg_model.specs.Theory as model;
ghost use Rattle.tg_types.specs.Types.{ty};
ghost use Rattle.tg_theory.specs.Matched.{are_argued, has_base, recursive, recursive_of};

use crate::calls::{Arguments, OwnCase, item, uses_are_lower};
use crate::types::{has_parameter, is_argument, is_base};
use std::alloc::AllocError;
use tg_declarations::{Body, ConDef, DataDef, Declarations, FunDef, ProgDef};
use tg_term::{FunId, Term};
use tg_types::{DataId, Ty};

/// Whether a datatype of this number has its shape: each argument that has the datatype in it is the datatype
/// at its own parameters in order, and some constructor has no argument of the datatype.
pub fn is_datatype_shaped(d: DataId, def: &DataDef) -> bool
    ensures { result ≡ is_datatype_shaped d (datatype def.now) }
{
    are_argued(d, def.params, def.cons.as_slice()) && has_base(d, def.cons.as_slice())
}

fn are_argued(d: DataId, params: u32, cons: &[ConDef]) -> bool
    ensures { result ≡ are_argued d params (map constructor cons.now) }
{
    for con in cons {
        if !are_arguments(d, params, con.args.as_slice()) {
            return false;
        }
    }
    true
}

fn are_arguments(d: DataId, params: u32, ts: &[Ty]) -> bool
    ensures { result ≡ list_all (is_argument d params) (map ty ts.now) }
{
    for t in ts {
        if !is_argument(d, params, t) {
            return false;
        }
    }
    true
}

fn has_base(d: DataId, cons: &[ConDef]) -> bool
    ensures { result ≡ has_base d (map constructor cons.now) }
{
    for con in cons {
        if is_base(d, con.args.as_slice()) {
            return true;
        }
    }
    false
}

/// Whether a program has from one to eight inputs and no type parameter in its type.
pub fn is_program_fit(def: &ProgDef) -> bool
    ensures { result ≡ (from_one_to_eight (length def.now.inputs) && not (list_any has_parameter (ty def.now.answer ∷ map ty def.now.inputs))) }
{
    let count = def.inputs.len();
    0 < count && count < 9 && !has_parameter(&def.answer) && !some_parameter(def.inputs.as_slice())
}

fn some_parameter(ts: &[Ty]) -> bool
    ensures { result ≡ list_any has_parameter (map ty ts.now) }
{
    for t in ts {
        if has_parameter(t) {
            return true;
        }
    }
    false
}

/// Whether a function has its shape: that of a primitive recursive one has a case for each constructor of the
/// argument at its place, and uses itself at smaller arguments alone. Memory is wanting where the function's
/// number would be above 2^32 - 1.
pub fn is_body_shaped(declared: &Declarations, def: &FunDef) -> Result<bool, AllocError>
    ensures { IfOk result (λ yes. yes ≡ is_body_shaped declared.now (function def.now) (body def.now.body)) }
{
    match &def.body {
        Body::Plain(_) => Ok(true),
        Body::Rec { place, cases } => {
            let number = declared.next_function()?;
            Ok(is_recursion_shaped(declared, number, def, *place, cases.as_slice()))
        }
    }
}

#[tactic(auto, using(crate::proofs::Cases::recursion))]
fn is_recursion_shaped(
    declared: &Declarations,
    number: FunId,
    def: &FunDef,
    place: u32,
    cases: &[Term],
) -> bool
    ensures { number ≡ length declared.now.functions + 1 → result ≡ is_body_shaped declared.now (function def.now) (model.recursive place cases.now) }
{
    let Some(t) = item(def.args.as_slice(), place) else {
        return false;
    };
    let own = OwnCase {
        function: number,
        place,
        others: def.args.len() - 1,
        arguments: Arguments::OfZero,
    };
    match t {
        Ty::Nat => are_natural_cases(&own, cases),
        Ty::App(d, _) => match declared.data_def(*d) {
            Some(data) => are_cases_shaped(&own, *d, cases, data.cons.as_slice()),
            None => false,
        },
        Ty::Bool => false,
        Ty::Param(_) => false,
        Ty::Meta(_) => false,
    }
}

/// Whether there is a case for 0 and one for `Suc`, which use the function at smaller arguments alone.
#[tactic(auto, using(crate::proofs::Terms::cases))]
fn are_natural_cases(own: &OwnCase<'_>, cases: &[Term]) -> bool
    ensures { result ≡ are_cases_shaped own.now.function own.now.place own.now.others cases.now ([] ∷ (true ∷ []) ∷ []) }
{
    if cases.len() != 2 {
        return false;
    }
    match (cases.get(0), cases.get(1)) {
        (Some(zero), Some(successor)) => {
            if is_case_shaped(own, Arguments::OfZero, zero) {
                is_case_shaped(own, Arguments::OfSuc, successor)
            } else {
                false
            }
        }
        _ => false,
    }
}

/// Whether there is one case for each constructor of a datatype, which uses the function at smaller arguments
/// alone.
#[tactic(auto, using(crate::proofs::Terms::cases))]
pub(crate) fn are_cases_shaped(
    own: &OwnCase<'_>,
    d: DataId,
    cases: &[Term],
    cons: &[ConDef],
) -> bool
    ensures { result ≡ are_cases_shaped own.now.function own.now.place own.now.others cases.now (map (λ con. recursive_of d con) cons.now) }
{
    if cases.len() != cons.len() {
        return false;
    }
    for (at, t) in cases.iter().enumerate() {
        if !is_case_shaped(own, Arguments::Of(d, cons[at].args.as_slice()), t) {
            return false;
        }
    }
    true
}

fn is_case_shaped(own: &OwnCase<'_>, arguments: Arguments<'_>, t: &Term) -> bool
    ensures { result ≡ each_call (is_lower_use own.now.function own.now.place own.now.others (recursive arguments.entry)) t.now }
{
    let case = OwnCase { arguments, ..*own };
    uses_are_lower(t, &case)
}
