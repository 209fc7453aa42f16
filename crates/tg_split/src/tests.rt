ghost use Rattle.std.specs.Prelude.{◌≡◌, ◌∷◌, [], IfOk};
ghost use Rattle.tg_types.specs.declared.types.Ty.TheVariants.{Nat, Bool};

use crate::counting::{count, count_of};
use crate::listing::{patterns, patterns_of};
use sqlite_items::Items;
use std::alloc::{AllocError, Global};
use std::test::Fail;
use tg_declarations::{ConDef, DataDef, Declarations, ProgDef};
use tg_term::{Node, Term};
use tg_theory::{BuildErr, Builder, Theory};
use tg_types::{DataId, Name, Ty};

/// The type of a datatype without parameters.
fn data(alloc: Global, d: DataId) -> Ty {
    Ty::App(d, Items::new(alloc))
}

fn add_constructor(
    alloc: Global,
    args: Items<Ty>,
    cons: &mut Items<ConDef>,
) -> Result<(), AllocError> {
    let name = Name::new(alloc, b"C")?;
    cons.push(ConDef { name, args })?;
    Ok(())
}

fn add_data(
    alloc: Global,
    params: u32,
    cons: Items<ConDef>,
    declared: &mut Declarations,
) -> Result<(), AllocError> {
    let name = Name::new(alloc, b"d")?;
    declared.add_datatype(DataDef { name, params, cons })?;
    Ok(())
}

/// The datatype at as many parameters.
fn at_parameters(alloc: Global, d: DataId, params: u32) -> Result<Ty, AllocError> {
    let mut ts = Items::new(alloc);
    for n in 0..params {
        ts.push(Ty::Param(n + 1))?;
    }
    Ok(Ty::App(d, ts))
}

/// `d nat d`
fn twice(alloc: Global, d: DataId, params: u32) -> Result<Items<Ty>, AllocError> {
    let mut args = Items::new(alloc);
    args.push(at_parameters(alloc, d, params)?)?;
    args.push(Ty::Nat)?;
    args.push(at_parameters(alloc, d, params)?)?;
    Ok(args)
}

/// `tree = Leaf | Node tree nat tree`, and `box = Box tree`.
fn trees(alloc: Global) -> Result<Declarations, AllocError> {
    let mut declared = Declarations::new(alloc);
    let mut cons = Items::new(alloc);
    add_constructor(alloc, Items::new(alloc), &mut cons)?;
    add_constructor(alloc, twice(alloc, 1, 0)?, &mut cons)?;
    add_data(alloc, 0, cons, &mut declared)?;
    let mut tree = Items::new(alloc);
    tree.push(data(alloc, 1))?;
    let mut cons = Items::new(alloc);
    add_constructor(alloc, tree, &mut cons)?;
    add_data(alloc, 0, cons, &mut declared)?;
    Ok(declared)
}

#[test]
fn trees_are_counted_up_to_the_limit(rt: HostRuntime) -> Result<(), Fail> {
    let alloc = rt.alloc();
    let declared = trees(alloc)?;
    let inputs = [data(alloc, 1)];
    for (depth, want) in [
        (0, 0),
        (1, 1),
        (2, 2),
        (3, 5),
        (4, 26),
        (5, 677),
        (6, 4097),
        (255, 4097),
    ] {
        assert!(rt;
            count_of(&declared, &inputs, depth) == want,
            "to depth {depth}"
        );
    }
    Ok(())
}

#[test]
fn patterns_are_as_many_as_counted(rt: HostRuntime) -> Result<(), Fail> {
    let alloc = rt.alloc();
    let declared = trees(alloc)?;
    let inputs = [data(alloc, 1), Ty::Bool];
    let ps = patterns_of(alloc, &declared, &inputs, 5)?;
    assert!(rt; ps.len() == 677);
    let first = ps.get(0).ok_or("none")?;
    assert!(rt; first.terms.len() == 2 && first.vars.len() == 1);
    let last = ps.get(676).ok_or("none")?;
    assert!(rt; last.terms.len() == 2 && last.vars.len() == 16);
    Ok(())
}

/// A box has no value of depth 1.
#[test]
fn an_input_without_a_value_has_no_pattern(rt: HostRuntime) -> Result<(), Fail> {
    let alloc = rt.alloc();
    let declared = trees(alloc)?;
    let inputs = [data(alloc, 1), data(alloc, 2)];
    assert!(rt; count_of(&declared, &inputs, 1) == 0);
    assert!(rt; patterns_of(alloc, &declared, &inputs, 1)?.is_empty());
    assert!(rt; count_of(&declared, &inputs, 2) == 2);
    assert!(rt; patterns_of(alloc, &declared, &inputs, 2)?.len() == 2);
    Ok(())
}

/// The first has a constructor without arguments, and each other names the one before it twice.
fn chain(alloc: Global, count: u32, params: u32) -> Result<Declarations, AllocError> {
    let mut declared = Declarations::new(alloc);
    for before in 0..count {
        let args = if before == 0 {
            Items::new(alloc)
        } else {
            twice(alloc, before, params)?
        };
        let mut cons = Items::new(alloc);
        add_constructor(alloc, args, &mut cons)?;
        add_data(alloc, params, cons, &mut declared)?;
    }
    Ok(declared)
}

const CHAIN_COUNTS: [(u32, u8, u64); 5] = [
    (16, 15, 0),
    (16, 16, 1),
    (17, 17, 4097),
    (120, 119, 0),
    (120, 120, 4097),
];

/// The terms double with each datatype, and so would the steps of a count that takes each argument by itself.
#[test]
fn a_datatype_is_counted_once_to_each_depth(rt: HostRuntime) -> Result<(), Fail> {
    let alloc = rt.alloc();
    let declared = chain(alloc, 120, 0)?;
    for (d, depth, want) in CHAIN_COUNTS {
        let inputs = [data(alloc, d)];
        assert!(rt;
            count_of(&declared, &inputs, depth) == want,
            "of {d} to depth {depth}"
        );
    }
    Ok(())
}

#[test]
fn a_datatype_at_a_type_is_counted_once_to_each_depth(rt: HostRuntime) -> Result<(), Fail> {
    let alloc = rt.alloc();
    let declared = chain(alloc, 120, 1)?;
    for (d, depth, want) in CHAIN_COUNTS {
        let mut ts = Items::new(alloc);
        ts.push(Ty::Bool)?;
        let inputs = [Ty::App(d, ts)];
        assert!(rt;
            count_of(&declared, &inputs, depth) == want,
            "of {d} to depth {depth}"
        );
    }
    Ok(())
}

/// A program of eight inputs.
fn program(alloc: Global) -> Result<ProgDef, AllocError>
    ensures name { IfOk result (λ def. def.name ≡ 112 ∷ 117 ∷ 116 ∷ []) }
    ensures inputs { IfOk result (λ def. def.inputs ≡ Nat ∷ Bool ∷ Nat ∷ Bool ∷ Nat ∷ Bool ∷ Nat ∷ Bool ∷ []) }
    ensures answer { IfOk result (λ def. def.answer ≡ Nat) }
{
    let name = Name::new(alloc, b"put")?;
    let mut inputs = Items::new(alloc);
    inputs.push(Ty::Nat)?;
    inputs.push(Ty::Bool)?;
    inputs.push(Ty::Nat)?;
    inputs.push(Ty::Bool)?;
    inputs.push(Ty::Nat)?;
    inputs.push(Ty::Bool)?;
    inputs.push(Ty::Nat)?;
    inputs.push(Ty::Bool)?;
    Ok(ProgDef {
        name,
        inputs,
        answer: Ty::Nat,
    })
}

fn theory(alloc: Global) -> Result<Theory, BuildErr> {
    let mut builder = Builder::new(alloc);
    builder.set_program(program(alloc)?)?;
    let spec = Term::new(alloc, Node::Truth(true))?;
    builder.set_spec(spec)?;
    builder.finish(Name::new(alloc, b"Eight")?)
}

#[test]
fn eight_inputs_have_a_variable_each(rt: HostRuntime) -> Result<(), Fail> {
    let alloc = rt.alloc();
    let th = theory(alloc)?;
    assert!(rt; count(&th, 0) == 1);
    let ps = patterns(alloc, &th, 0)?;
    assert!(rt; ps.len() == 1);
    let p = ps.get(0).ok_or("none")?;
    assert!(rt; p.vars.len() == 8 && p.terms.len() == 8);
    for (place, t) in p.terms.as_slice().iter().enumerate() {
        assert!(rt; matches!(t.node(), Node::Free(n) if *n as usize == place + 1));
    }
    Ok(())
}
