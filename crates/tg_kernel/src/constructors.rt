//! The constructors of datatypes and their arguments' types.
ghost use Rattle.std.specs.Prelude.{◌≡◌, ◌∷◌, [], IfOk, map, option_copied};
ghost use Rattle.tg_calculus.specs.Chains.{arguments_at};
ghost use Rattle.tg_declarations.specs.View.{constructor};
ghost use Rattle.tg_kernel.specs.Arguments.{at_instance};
ghost use Rattle.tg_model.specs.TermTyping.{constructor_arguments};
ghost use Rattle.tg_model.specs.Theory.{first_constructor, instance, numbered};
ghost use Rattle.tg_model.specs.Types.{nat};
ghost use Rattle.tg_types.specs.Types.{ty};

use sqlite_items::Items;
use std::alloc::{AllocError, Global};
use tg_declarations::{ConDef, Declarations};
use tg_equations::instance;
use tg_term::ConId;
use tg_theory::Theory;
use tg_types::{DataId, Ty};

/// The types of a constructor's arguments where it makes a term of the type. There is none where it isn't
/// declared, or the type isn't that of a datatype.
#[tactic(auto, using(crate::proofs::ArgumentLaws::arguments))]
pub(crate) fn arguments_at(
    alloc: Global,
    th: &Theory,
    c: ConId,
    at: &Ty,
) -> Result<Items<Ty>, AllocError>
    ensures { IfOk result (λ ts. map ty ts ≡ arguments_at th.now c (ty at.now)) }
{
    match at {
        Ty::App(_, us) => match th.declarations().con_def(c) {
            Some((_, def)) => {
                let types = instances(alloc, us.as_slice(), def.args.as_slice())?;
                Ok(types)
            }
            None => Ok(Items::new(alloc)),
        },
        _ => Ok(Items::new(alloc)),
    }
}

/// The arguments' types of each constructor of a datatype, in order.
#[tactic(auto, using(crate::proofs::ArgumentLaws::cases))]
pub(crate) fn cases_of(
    alloc: Global,
    th: &Theory,
    d: DataId,
    us: &[Ty],
) -> Result<Vec<Items<Ty>>, AllocError>
    ensures { IfOk result (λ cs. map (map ty) cs.items ≡ constructor_arguments th.now d (map ty us.now)) }
{
    if d == 0 {
        let cases = cases_of_naturals(alloc)?;
        return Ok(cases);
    }
    match th.declarations().data_def(d) {
        Some(def) => {
            let cases = of_constructors(alloc, us, def.cons.as_slice())?;
            Ok(cases)
        }
        None => Ok(Vec::new(alloc)),
    }
}

/// Those of 0 and `Suc`.
fn cases_of_naturals(alloc: Global) -> Result<Vec<Items<Ty>>, AllocError>
    ensures { IfOk result (λ cs. map (map ty) cs.items ≡ [] ∷ (nat ∷ []) ∷ []) }
{
    let mut cases = Vec::new(alloc);
    cases.push(Items::new(alloc))?;
    let mut one = Items::new(alloc);
    one.push(Ty::Nat)?;
    cases.push(one)?;
    Ok(cases)
}

fn of_constructors(alloc: Global, us: &[Ty], cons: &[ConDef]) -> Result<Vec<Items<Ty>>, AllocError>
    ensures { IfOk result (λ cs. map (map ty) cs.items ≡ map (at_instance (map ty us.now)) (map constructor cons.now)) }
{
    let mut cases = Vec::new(alloc);
    for con in cons {
        cases.push(instances(alloc, us, con.args.as_slice())?)?;
    }
    Ok(cases)
}

fn instances(alloc: Global, us: &[Ty], ts: &[Ty]) -> Result<Items<Ty>, AllocError>
    ensures { IfOk result (λ vs. map ty vs ≡ map (instance (map ty us.now)) (map ty ts.now)) }
{
    let mut all = Items::new(alloc);
    for t in ts {
        all.push(instance(alloc, us, t)?)?;
    }
    Ok(all)
}

/// The number of the first constructor of a datatype. That of a datatype which isn't declared, or has no
/// constructor, is found by a count over those before it.
#[tactic(auto, using(crate::proofs::ArgumentLaws::firsts))]
pub(crate) fn first_constructor(declared: &Declarations, d: DataId) -> Result<u32, AllocError>
    ensures { IfOk result (λ n. n ≡ first_constructor declared.now.datatypes d) }
{
    match item(declared.constructors(d), 1) {
        Some(c) => Ok(*c),
        None => counted_first(declared, d),
    }
}

/// One more than the number of constructors of the datatypes before a number.
#[tactic(auto, using(crate::proofs::ArgumentLaws::firsts))]
fn counted_first(declared: &Declarations, d: DataId) -> Result<u32, AllocError>
    ensures { IfOk result (λ n. n ≡ first_constructor declared.now.datatypes d) }
{
    let mut first: u64 = 1;
    for number in 1..d {
        let Some(def) = declared.data_def(number) else {
            return within_range(first);
        };
        first = first.checked_add(def.cons.len() as u64).ok_or(AllocError)?;
    }
    within_range(first)
}

fn within_range(number: u64) -> Result<u32, AllocError>
    ensures { IfOk result (λ n. n ≡ number) }
{
    u32::try_from(number).map_err(|_| AllocError)
}

/// The item of a number, from 1.
pub(crate) fn item<T>(items: &[T], number: u64) -> Option<&T>
    ensures { option_copied result ≡ numbered items.now number }
{
    items.get((number as usize).checked_sub(1)?)
}
