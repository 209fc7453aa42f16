//! Typings of declarations of functions.
ghost use Rattle.std.specs.Prelude.{◌≡◌, ◌↔◌, true, [], ◌∷◌, IfOk, map};
ghost use Rattle.tg_accept.specs.Declared.{theory};
ghost use Rattle.tg_accept.specs.Equations.{IsEquationTyping};
ghost use Rattle.tg_accept.specs.Functions.{self_of};
ghost use Rattle.tg_accept.specs.Kept.{IsKept};
ghost use Rattle.tg_accept.specs.Meant.{AreMade};
ghost use Rattle.tg_declarations.specs.View as view;
ghost use Rattle.tg_equations.specs.View.{equations};
ghost use Rattle.tg_infer.specs.Functions.{seen_meant, IsTypingFault, HaveTypings};
ghost use Rattle.tg_types.specs.Types.{ty};

use crate::functions::Meant;
use crate::made::{are_made, is_made};
use crate::refusals::Kind;
use std::alloc::{AllocError, Global};
use tg_declarations::{Declarations, FunDef};
use tg_equations::{Equation, count_equation_typings};
use tg_typing::Typings;

/// `Typing` where a datatype has another number of arguments than it takes or an equation has no typing, else
/// `Ambiguous` where one has several.
#[tactic(auto, using(crate::proofs::TypingLaws::faults))]
pub(crate) fn typing_fault(
    alloc: Global,
    declared: &Declarations,
    is_recursive: bool,
    function: &Meant,
) -> Result<Option<Kind>, AllocError>
    requires { IsKept declared.now }
    ensures { IfOk result (λ fault. IsTypingFault declared.now is_recursive (seen_meant function.now) fault) }
{
    let signature = &function.signature;
    if !is_function_made(declared, signature) {
        return Ok(Some(Kind::Typing));
    }
    let es = function.equations.as_slice();
    match count_typings(alloc, declared, is_recursive, signature, es)? {
        Typings::None => Ok(Some(Kind::Typing)),
        Typings::One => Ok(None),
        Typings::Several => Ok(Some(Kind::Ambiguous)),
    }
}

/// Whether the types of a function are made of what is declared and of its type parameters.
fn is_function_made(declared: &Declarations, f: &FunDef) -> bool
    ensures { (result ≡ true) ↔ AreMade (theory [] declared.now) f.now.params (ty f.now.result ∷ map ty f.now.args) }
{
    is_made(declared, None, f.params, &f.result)
        && are_made(declared, None, f.params, f.args.as_slice())
}

/// How many typings equations have together: none where one has none, and several where one has several.
#[tactic(auto, using(crate::proofs::TypingLaws::counting))]
fn count_typings(
    alloc: Global,
    declared: &Declarations,
    is_recursive: bool,
    signature: &FunDef,
    es: &[Equation],
) -> Result<Typings, AllocError>
    requires kept { IsKept declared.now }
    requires made { AreMade (theory [] declared.now) signature.now.params (ty signature.now.result ∷ map ty signature.now.args) }
    ensures { IfOk result (λ answer. HaveTypings
        (IsEquationTyping (theory [] declared.now) (self_of is_recursive (view.function signature.now)) (view.function signature.now)) (equations es.now) answer) }
{
    let mut several = false;
    for e in es {
        match count_equation_typings(alloc, declared, is_recursive, signature, e)? {
            Typings::None => return Ok(Typings::None),
            Typings::One => {}
            Typings::Several => several = true,
        }
    }
    if several {
        Ok(Typings::Several)
    } else {
        Ok(Typings::One)
    }
}
