//! The types of the operators.
ghost use Rattle.std.specs.Prelude.{◌≡◌, ◌<◌, IfOk, length, if◌then◌else◌, [], ◌∷◌};
ghost use Rattle.tg_term.specs.Operators.{operator};
ghost use Rattle.tg_typing.specs.Nodes.{Stands};
ghost use Rattle.tg_typing.specs.Operators.{shape_of, kind_type, fixed, FixedUse};
ghost use Rattle.tg_typing.specs.Uses.{Frames, UsesOperator};
ghost use Rattle.tg_model.specs.Tree.{equality};

use crate::framing::close;
use sqlite_items::Items;
use std::alloc::{AllocError, Global};
use tg_shared_types::{Node, Table};
use tg_term::OpId;

/// What an operator takes and gives.
#[derive(Clone, Copy, Debug)]
pub(crate) enum Shape {
    /// Two operands of one type, whatever it is, and a truth value.
    Equality,
    /// Operands of a kind, two or one, and a value of a kind.
    Fixed(Fixed),
}

#[derive(Clone, Copy, Debug)]
pub(crate) struct Fixed {
    operands: Kind,
    is_binary: bool,
    answer: Kind,
}

/// The two types without arguments.
#[derive(Clone, Copy, Debug)]
pub(crate) enum Kind {
    Nat,
    Bool,
}

// By the operator's number, which is its place in `Suc ~ & | --> = < <= + - * div mod`.
fn shape_of(o: OpId) -> Option<Shape>
    ensures { result ≡ shape_of (operator o) }
{
    match o {
        1 => Some(fixed_types(Kind::Nat, false, Kind::Nat)),
        2 => Some(fixed_types(Kind::Bool, false, Kind::Bool)),
        3 | 4 | 5 => Some(fixed_types(Kind::Bool, true, Kind::Bool)),
        6 => Some(Shape::Equality),
        7 | 8 => Some(fixed_types(Kind::Nat, true, Kind::Bool)),
        9 | 10 | 11 | 12 | 13 => Some(fixed_types(Kind::Nat, true, Kind::Nat)),
        _ => None,
    }
}

fn fixed_types(operands: Kind, is_binary: bool, answer: Kind) -> Shape
    ensures { result ≡ fixed operands is_binary answer }
{
    Shape::Fixed(Fixed {
        operands,
        is_binary,
        answer,
    })
}

/// The nodes of the types of an operator's operands.
pub(crate) fn frame_operator(
    alloc: Global,
    table: &mut Table,
    o: OpId,
    expected: usize,
) -> Result<Option<Items<usize>>, AllocError>
    requires expected { expected < length table.old }
    ensures { IfOk result (λ found. Frames table.old table.new (λ ρ. UsesOperator (operator o)) expected found) }
{
    match shape_of(o) {
        None => Ok(None),
        Some(Shape::Equality) => frame_equality(alloc, table, expected),
        Some(Shape::Fixed(types)) => frame_fixed(alloc, table, types, expected),
    }
}

fn frame_equality(
    alloc: Global,
    table: &mut Table,
    expected: usize,
) -> Result<Option<Items<usize>>, AllocError>
    requires expected { expected < length table.old }
    ensures { IfOk result (λ found. Frames table.old table.new (λ ρ. UsesOperator equality) expected found) }
{
    let operand = table.push(Node::Open)?;
    let top = table.push(Node::Bool)?;
    let es = operands(alloc, operand, true)?;
    close(table, top, expected, es)
}

fn frame_fixed(
    alloc: Global,
    table: &mut Table,
    types: Fixed,
    expected: usize,
) -> Result<Option<Items<usize>>, AllocError>
    requires expected { expected < length table.old }
    ensures { IfOk result (λ found. Frames table.old table.new (λ ρ. FixedUse types) expected found) }
{
    let operand = push_kind(table, types.operands)?;
    let top = push_kind(table, types.answer)?;
    let es = operands(alloc, operand, types.is_binary)?;
    close(table, top, expected, es)
}

fn push_kind(table: &mut Table, kind: Kind) -> Result<usize, AllocError>
    ensures { IfOk result (λ at. Stands table.old (kind_type kind) table.new at) }
{
    match kind {
        Kind::Nat => table.push(Node::Nat),
        Kind::Bool => table.push(Node::Bool),
    }
}

// The node of each operand.
fn operands(alloc: Global, operand: usize, is_binary: bool) -> Result<Items<usize>, AllocError>
    ensures { IfOk result (λ es. es ≡ (if is_binary then operand ∷ operand ∷ [] else operand ∷ [])) }
{
    let mut es = Items::new(alloc);
    es.push(operand)?;
    if is_binary {
        es.push(operand)?;
    }
    Ok(es)
}
