use crate::{Held, Limited, limited_truth, limited_value};
use sqlite_items::Items;
use std::alloc::{AllocError, Global};
use std::test::Fail;
use tg_declarations::{Body, Declarations, FunDef};
use tg_term::{Node, Term, Value};
use tg_types::{Name, Ty};

fn single(alloc: Global, t: Term) -> Result<Items<Term>, AllocError> {
    let mut terms = Items::new(alloc);
    terms.push(t)?;
    Ok(terms)
}

fn pair(alloc: Global, left: Term, right: Term) -> Result<Items<Term>, AllocError> {
    let mut terms = single(alloc, left)?;
    terms.push(right)?;
    Ok(terms)
}

fn free(alloc: Global, number: u32) -> Result<Term, AllocError> {
    Term::new(alloc, Node::Free(number))
}

/// A function on naturals that recurses on its first argument, 0 at 0.
fn recursion(alloc: Global, arity: usize, step: Term) -> Result<FunDef, AllocError> {
    let mut args = Items::new(alloc);
    for _ in 0..arity {
        args.push(Ty::Nat)?;
    }
    let cases = pair(alloc, Term::new(alloc, Node::Lit(0))?, step)?;
    Ok(FunDef {
        name: Name::new(alloc, b"f")?,
        params: 0,
        args,
        result: Ty::Nat,
        body: Body::Rec { place: 1, cases },
    })
}

/// `row 0 = 0`, `row (Suc n) = row n`, `grid 0 m = 0`, `grid (Suc n) m = row m + grid n m`.
fn rows_and_grids(alloc: Global) -> Result<Declarations, AllocError> {
    let mut declared = Declarations::new(alloc);
    let row = Term::new(alloc, Node::Call(1, single(alloc, free(alloc, 1)?)?))?;
    declared.add_function(recursion(alloc, 1, row.share()?)?)?;
    let rest = pair(alloc, free(alloc, 2)?, free(alloc, 1)?)?;
    let grid = Term::new(alloc, Node::Call(2, rest))?;
    let sum = Term::new(alloc, Node::Op(9, pair(alloc, row, grid)?))?;
    declared.add_function(recursion(alloc, 2, sum)?)?;
    Ok(declared)
}

/// The value of `grid n m`, which unfolds `1 + n + n * (m + 1)` calls.
fn grid(alloc: Global, n: u64, m: u64) -> Result<Limited, AllocError> {
    let sides = pair(
        alloc,
        Term::new(alloc, Node::Lit(n))?,
        Term::new(alloc, Node::Lit(m))?,
    )?;
    let t = Term::new(alloc, Node::Call(2, sides))?;
    limited_value(alloc, &rows_and_grids(alloc)?, &[], None, &t)
}

#[test]
fn ten_thousand_calls_may_be_unfolded(rt: HostRuntime) -> Result<(), Fail> {
    let alloc = rt.alloc();
    assert!(rt; matches!(grid(alloc, 99, 99)?, Limited::Val(Value::Nat(0))));
    assert!(rt; matches!(grid(alloc, 100, 99)?, Limited::Over));
    assert!(rt; matches!(grid(alloc, 100, 100)?, Limited::Over));
    Ok(())
}

/// The value of so many `Suc` on a variable.
fn raised(alloc: Global, by: u64, n: u64) -> Result<Limited, AllocError> {
    let mut t = free(alloc, 1)?;
    for _ in 0..by {
        t = Term::new(alloc, Node::Op(1, single(alloc, t)?))?;
    }
    limited_value(alloc, &Declarations::new(alloc), &[Value::Nat(n)], None, &t)
}

#[test]
fn five_hundred_levels_may_stand(rt: HostRuntime) -> Result<(), Fail> {
    let alloc = rt.alloc();
    assert!(rt; matches!(raised(alloc, 499, 1)?, Limited::Val(Value::Nat(500))));
    assert!(rt; matches!(raised(alloc, 500, 1)?, Limited::Over));
    Ok(())
}

#[test]
fn numbers_end_below_two_to_the_sixty_fourth(rt: HostRuntime) -> Result<(), Fail> {
    let alloc = rt.alloc();
    assert!(rt;
        matches!(
            raised(alloc, 1, u64::MAX - 1)?,
            Limited::Val(Value::Nat(u64::MAX))
        )
    );
    assert!(rt; matches!(raised(alloc, 1, u64::MAX)?, Limited::Over));
    Ok(())
}

/// A value of so many nodes, of a constructor with a natural for each node but its own.
fn wide(alloc: Global, nodes: u64) -> Result<Value, AllocError> {
    let mut args = Items::new(alloc);
    for n in 1..nodes {
        args.push(Value::Nat(n))?;
    }
    Ok(Value::Con(1, args))
}

/// The value of a constructor above a value of so many nodes.
fn above(alloc: Global, nodes: u64) -> Result<Limited, AllocError> {
    let t = Term::new(alloc, Node::Con(2, single(alloc, free(alloc, 1)?)?))?;
    let vars = [wide(alloc, nodes)?];
    limited_value(alloc, &Declarations::new(alloc), &vars, None, &t)
}

#[test]
fn a_constructor_has_at_most_a_hundred_thousand_nodes(rt: HostRuntime) -> Result<(), Fail> {
    let alloc = rt.alloc();
    assert!(rt; matches!(above(alloc, 99_999)?, Limited::Val(Value::Con(2, _))));
    assert!(rt; matches!(above(alloc, 100_000)?, Limited::Over));
    Ok(())
}

#[test]
fn an_answer_may_have_more_nodes(rt: HostRuntime) -> Result<(), Fail> {
    let alloc = rt.alloc();
    let t = Term::new(alloc, Node::Put(Items::new(alloc)))?;
    let answer = wide(alloc, 100_001)?;
    let value = limited_value(alloc, &Declarations::new(alloc), &[], Some(&answer), &t)?;
    assert!(rt; matches!(&value, Limited::Val(Value::Con(1, args)) if args.len() == 100_000));
    Ok(())
}

#[test]
fn a_comparison_is_true_where_it_holds(rt: HostRuntime) -> Result<(), Fail> {
    let alloc = rt.alloc();
    let sides = pair(alloc, free(alloc, 1)?, free(alloc, 2)?)?;
    let t = Term::new(alloc, Node::Op(8, sides))?;
    let declared = Declarations::new(alloc);
    assert!(rt; limited_truth(alloc, &declared, &[Held::nat(3), Held::nat(3)], &t)?);
    assert!(rt; !limited_truth(alloc, &declared, &[Held::nat(4), Held::nat(3)], &t)?);
    Ok(())
}
