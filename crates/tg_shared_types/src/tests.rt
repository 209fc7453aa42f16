//! Types that are small when shared, and one table of each answer.
ghost use Rattle.std.specs.Prelude.{◌<◌, ◌≤◌, length, IfOk};

use super::{Node, Solutions, Table};
use sqlite_items::Items;
use std::alloc::{AllocError, Global};
use std::test::Fail;
use tg_types::Ty;

const LIST: u32 = 1;

const PAIR: u32 = 2;

const HEIGHT: usize = 150;

// Pairs of pairs on a base: 150 nodes, and 2^150 as a tree.
fn tower(alloc: Global, table: &mut Table, base: usize) -> Result<usize, AllocError>
    requires { base < length table.old }
    ensures inside { IfOk result (λ top. top < length table.new) }
    ensures longer { length table.old ≤ length table.new }
{
    let mut top = base;
    for _ in 0..HEIGHT {
        top = table.push(Node::App(PAIR, Items::from_vec(vec![in alloc; top, top]?)))?;
    }
    Ok(top)
}

#[test]
fn two_towers_become_one(rt: HostRuntime) -> Result<(), Fail> {
    let alloc = rt.alloc();
    let mut table = Table::new(alloc);
    let open = table.push(Node::Open)?;
    let left = tower(alloc, &mut table, open)?;
    let nat = table.push(Node::Nat)?;
    let right = tower(alloc, &mut table, nat)?;
    assert!(rt; table.settle()? == Solutions::Several);
    assert!(rt; table.unite(left, right)?);
    assert!(rt; table.settle()? == Solutions::One);
    assert_eq!(rt; table.len(), 302);
    Ok(())
}

#[test]
fn answers(rt: HostRuntime) -> Result<(), Fail> {
    let alloc = rt.alloc();
    let mut table = Table::new(alloc);
    let open = table.push(Node::Open)?;
    let list = table.push(Node::App(LIST, Items::from_vec(vec![in alloc; open]?)))?;
    assert!(rt; table.unite(open, list)?);
    assert!(rt; table.settle()? == Solutions::Zero);
    let mut other = Table::new(alloc);
    let nat = other.push(Node::Nat)?;
    let truth = other.push(Node::Bool)?;
    assert!(rt; !other.unite(nat, truth)?);
    Ok(())
}

#[test]
fn a_list_of_naturals(rt: HostRuntime) -> Result<(), Fail> {
    let alloc = rt.alloc();
    let mut table = Table::new(alloc);
    let item = table.push(Node::Open)?;
    let declared = Ty::App(LIST, Items::from_vec(vec![in alloc; Ty::Param(1)]?));
    let list = table.plant(&[item], &declared)?;
    let nats = table.plant(
        &[],
        &Ty::App(LIST, Items::from_vec(vec![in alloc; Ty::Nat]?)),
    )?;
    assert!(rt; table.unite(list, nats)?);
    let root = table.find(item);
    assert!(rt; matches!(table.node(root), Node::Nat));
    assert!(rt; table.settle()? == Solutions::One);
    Ok(())
}
