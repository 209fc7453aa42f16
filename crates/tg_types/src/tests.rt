//! Worked values of `unify`: what it agrees on, and the pairs that can't agree.
use super::{Subst, Ty, UnifyErr, unify};
use sqlite_items::Items;
use std::alloc::{AllocError, Global};
use std::test::Fail;

const LIST: u32 = 1;

const PAIR: u32 = 2;

fn list(alloc: Global, item: Ty) -> Result<Ty, AllocError> {
    Ok(Ty::App(LIST, Items::from_vec(vec![in alloc; item]?)))
}

fn pair(alloc: Global, first: Ty, second: Ty) -> Result<Ty, AllocError> {
    Ok(Ty::App(PAIR, Items::from_vec(vec![in alloc; first, second]?)))
}

// What `unify` answers from no agreements, as text.
fn answer(alloc: Global, a: Ty, b: Ty) -> Result<String, Fail> {
    let mut s = Subst::new(alloc);
    let result = unify(&mut s, &a, &b);
    Ok(format!(in alloc; "{result:?}")?)
}

#[test]
fn worked_values(rt: HostRuntime) -> Result<(), Fail> {
    let alloc = rt.alloc();
    let mut s = Subst::new(alloc);
    unify(&mut s, &Ty::Meta(1), &Ty::Nat)?;
    assert!(rt; matches!(s.apply(&Ty::Meta(1))?, Ty::Nat));
    assert!(rt;
        matches!(
            unify(&mut s, &Ty::Nat, &Ty::Bool),
            Err(UnifyErr::Clash { .. })
        )
    );
    assert!(rt;
        matches!(
            unify(&mut s, &Ty::Meta(2), &list(alloc, Ty::Meta(2))?),
            Err(UnifyErr::Occurs { var: 2, .. })
        )
    );
    assert!(rt; matches!(s.apply(&Ty::Meta(2))?, Ty::Meta(2)));
    Ok(())
}

#[test]
fn roots_that_differ(rt: HostRuntime) -> Result<(), Fail> {
    let alloc = rt.alloc();
    let clash = answer(alloc, Ty::Param(1), Ty::Param(2))?;
    assert_eq!(rt;
        clash.as_str(),
        "Err(Clash { left: Param(1), right: Param(2) })"
    );
    let clash = answer(
        alloc,
        list(alloc, Ty::Nat)?,
        Ty::App(LIST, Items::new(alloc)),
    )?;
    assert_eq!(rt;
        clash.as_str(),
        "Err(Clash { left: App(1, Items { items: [Nat] }), right: App(1, Items { items: [] }) })"
    );
    let clash = answer(alloc, list(alloc, Ty::Nat)?, Ty::Nat)?;
    assert_eq!(rt;
        clash.as_str(),
        "Err(Clash { left: App(1, Items { items: [Nat] }), right: Nat })"
    );
    let same = answer(
        alloc,
        list(alloc, Ty::Param(1))?,
        list(alloc, Ty::Param(1))?,
    )?;
    assert_eq!(rt; same.as_str(), "Ok(())");
    Ok(())
}

#[test]
fn pairs_inside(rt: HostRuntime) -> Result<(), Fail> {
    let alloc = rt.alloc();
    let first = answer(
        alloc,
        pair(alloc, Ty::Nat, Ty::Bool)?,
        pair(alloc, Ty::Bool, Ty::Nat)?,
    )?;
    assert_eq!(rt; first.as_str(), "Err(Clash { left: Nat, right: Bool })");
    let second = answer(
        alloc,
        pair(alloc, Ty::Meta(1), Ty::Meta(1))?,
        pair(alloc, Ty::Nat, Ty::Bool)?,
    )?;
    assert_eq!(rt; second.as_str(), "Err(Clash { left: Nat, right: Bool })");
    let right = answer(
        alloc,
        pair(alloc, Ty::Nat, Ty::Param(1))?,
        pair(alloc, Ty::Meta(1), Ty::Meta(1))?,
    )?;
    assert_eq!(rt; right.as_str(), "Err(Clash { left: Param(1), right: Nat })");
    let deep = answer(
        alloc,
        list(alloc, list(alloc, Ty::Bool)?)?,
        list(alloc, list(alloc, Ty::Nat)?)?,
    )?;
    assert_eq!(rt; deep.as_str(), "Err(Clash { left: Bool, right: Nat })");
    Ok(())
}

#[test]
fn loops(rt: HostRuntime) -> Result<(), Fail> {
    let alloc = rt.alloc();
    let left = pair(alloc, Ty::Meta(1), Ty::Meta(2))?;
    let looped = answer(
        alloc,
        left,
        pair(alloc, Ty::Meta(2), list(alloc, Ty::Meta(1))?)?,
    )?;
    assert_eq!(rt;
        looped.as_str(),
        "Err(Occurs { var: 2, ty: App(1, Items { items: [Meta(2)] }) })"
    );
    let right = answer(
        alloc,
        list(alloc, list(alloc, Ty::Meta(3))?)?,
        list(alloc, Ty::Meta(3))?,
    )?;
    assert_eq!(rt;
        right.as_str(),
        "Err(Occurs { var: 3, ty: App(1, Items { items: [Meta(3)] }) })"
    );
    let open = answer(
        alloc,
        pair(alloc, Ty::Meta(1), Ty::Meta(2))?,
        pair(alloc, Ty::Meta(2), Ty::Meta(1))?,
    )?;
    assert_eq!(rt; open.as_str(), "Ok(())");
    Ok(())
}
