//! The types of a left side's variables.
ghost use Rattle.std.specs.Prelude.{◌≡◌, ◌++◌, [], IfOk, OnOk, map, length, option_map};
ghost use Rattle.tg_accept.specs.Declared.{theory};
ghost use Rattle.tg_accept.specs.Equations.{left_types, opened, parts};
ghost use Rattle.tg_equations.specs.LeftSides.{Adds, AddsAll, seen_parts, together, of_variables, of_constructors};
ghost use Rattle.tg_equations.specs.View.{patterns};
ghost use Rattle.tg_model.specs.Theory.{instance};
ghost use Rattle.tg_types.specs.Types.{ty};
ghost use Rattle.tg_typing.specs.View.{head};

use crate::equations::Pattern;
use crate::instances::instance;
use sqlite_items::Items;
use std::alloc::{AllocError, Global};
use tg_declarations::Declarations;
use tg_types::{DataId, Ty, copy};
use tg_typing::Head;

/// The types of the variables of a left side whose arguments have the types `args`: of the arguments that are
/// variables, and behind them of those of constructors. `None` where there are more or fewer patterns than
/// arguments, and where a pattern is for a constructor of another type, or has another number of variables.
pub fn left_types(
    alloc: Global,
    declared: &Declarations,
    ps: &[Pattern],
    args: &[Ty],
) -> Result<Option<Items<Ty>>, AllocError>
    ensures { IfOk result (λ found. option_map (map ty) found ≡ together (left_types (theory [] declared.now) (patterns ps.now) (map ty args.now))) }
{
    if ps.len() != args.len() {
        return Ok(None);
    }
    let mut all = Items::new(alloc);
    push_variables(alloc, &mut all, ps, args)?;
    if !push_constructors(alloc, declared, &mut all, ps, args)? {
        return Ok(None);
    }
    Ok(Some(all))
}

// Adds the types of the arguments that are variables.
fn push_variables(
    alloc: Global,
    all: &mut Items<Ty>,
    ps: &[Pattern],
    args: &[Ty],
) -> Result<(), AllocError>
    requires { length ps.now ≡ length args.now }
    ensures { OnOk result (map ty all.new ≡ map ty all.old ++ of_variables (patterns ps.now) (map ty args.now)) }
{
    for (at, p) in ps.iter().enumerate() {
        let t = &args[at];
        match p {
            Pattern::Variable(_) => all.push(copy(alloc, t)?)?,
            Pattern::Matched(_, _) => {}
        }
    }
    Ok(())
}

// Adds the types of the variables for constructors' arguments. `false` where a pattern doesn't fit.
fn push_constructors(
    alloc: Global,
    declared: &Declarations,
    all: &mut Items<Ty>,
    ps: &[Pattern],
    args: &[Ty],
) -> Result<bool, AllocError>
    requires { length ps.now ≡ length args.now }
    ensures { IfOk result (λ ok. AddsAll (of_constructors (theory [] declared.now) (patterns ps.now) (map ty args.now)) (map ty all.old) (map ty all.new) ok) }
{
    for (at, p) in ps.iter().enumerate() {
        let t = &args[at];
        match p {
            Pattern::Variable(_) => {}
            Pattern::Matched(h, xs) => {
                if !push_opened(alloc, declared, all, *h, t, xs.len())? {
                    return Ok(false);
                }
            }
        }
    }
    Ok(true)
}

// Adds the types of a constructor's arguments where its result has type `t`. `false` where it can't have it,
// and where there are more or fewer than `count` arguments.
fn push_opened(
    alloc: Global,
    declared: &Declarations,
    all: &mut Items<Ty>,
    of: Head,
    t: &Ty,
    count: usize,
) -> Result<bool, AllocError>
    ensures { IfOk result (λ ok. Adds (opened (theory [] declared.now) (head of) (ty t.now)) count (map ty all.old) (map ty all.new) ok) }
{
    let Some((n, us)) = parts(t) else {
        return Ok(false);
    };
    match of {
        Head::Zero => Ok(n == 0 && count == 0),
        Head::Successor => {
            if n != 0 || count != 1 {
                return Ok(false);
            }
            all.push(Ty::Nat)?;
            Ok(true)
        }
        Head::Con(c) => {
            let Some((d, con)) = declared.con_def(c) else {
                return Ok(false);
            };
            if d != n || con.args.len() != count {
                return Ok(false);
            }
            push_instances(alloc, all, us, con.args.as_slice())?;
            Ok(true)
        }
    }
}

// The datatype of a type, 0 for nat, and the types that it is applied to.
#[tactic(auto, using(crate::proofs::LeftLaws::parting))]
fn parts(t: &Ty) -> Option<(DataId, &[Ty])>
    ensures { option_map (λ p. seen_parts p.0 p.1.now) result ≡ parts (ty t.now) }
{
    match t {
        Ty::Nat => Some((0, &[])),
        Ty::Bool => None,
        Ty::Param(_) => None,
        Ty::Meta(_) => None,
        Ty::App(d, ts) => {
            if *d == 0 {
                None
            } else {
                Some((*d, ts.as_slice()))
            }
        }
    }
}

fn push_instances(
    alloc: Global,
    all: &mut Items<Ty>,
    us: &[Ty],
    ts: &[Ty],
) -> Result<(), AllocError>
    ensures { OnOk result (map ty all.new ≡ map ty all.old ++ map (instance (map ty us.now)) (map ty ts.now)) }
{
    for t in ts {
        all.push(instance(alloc, us, t)?)?;
    }
    Ok(())
}
