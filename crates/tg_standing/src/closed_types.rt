//! The closed types that texts of certificates stand for.
ghost use Rattle.std.specs.Prelude.{IfOk, option_map};
ghost use Rattle.tg_accept.specs.Standing.{declared_in, IsAnswer, IsTypeOf};
ghost use Rattle.tg_infer.specs.View.{raw_type};
ghost use Rattle.tg_infer.specs.Words.{AreWordsOf};
ghost use Rattle.tg_types.specs.Types.{ty};

use crate::places::Place;
use std::alloc::{AllocError, Global};
use tg_grammar::RawTy;
use tg_infer::{Scope, Variables, Words};
use tg_theory::Theory;
use tg_types::Ty;

/// The closed type that the text stands for; `None` exactly where it stands for none: where a name in it isn't
/// declared or has another number of arguments, and where it has a type variable.
pub fn type_of(
    alloc: Global,
    words: &Words,
    th: &Theory,
    raw: &RawTy,
) -> Result<Option<Ty>, AllocError>
    requires { AreWordsOf words.now (declared_in th.now) }
    ensures { IfOk result (λ found. IsAnswer (IsTypeOf th.now (raw_type raw.now)) (option_map ty found)) }
{
    let variables = Variables::new(alloc);
    let scope = Scope::outside(alloc, th.declarations(), words, &variables, true);
    let place = Place {
        th,
        scope: &scope,
        vars: &[],
    };
    let t = place.closed_type(raw)?;
    Ok(t)
}
