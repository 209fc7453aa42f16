//! Which rows may apply to a term, by its root alone.
ghost use Rattle.tg_model.specs.Theory.{Theory};
ghost use Rattle.tg_model.specs.Tree.{Trees, op};
ghost use Rattle.tg_schema.specs.Spans.{IsSpan};
ghost use Rattle.tg_term.specs.Operators.{operator};

use crate::operators::{
    CONJUNCTION, DISJUNCTION, DIVIDE, EQUALITY, IMPLICATION, LESS, LESS_EQUAL, MINUS, MODULO,
    NEGATION, PLUS, SUCCESSOR, TIMES,
};
use tg_term::{Node, OpId, Term};

/// The number of the first row that may apply, and one more than that of the last.
#[tactic(auto, using(crate::proofs::SpanLaws::nodes))]
pub(crate) fn span(t: &Term) -> (u32, u32)
    ensures { (th : Theory) → IsSpan th t.now result.0 result.1 }
{
    match t.node() {
        Node::Op(o, _) => operator_span(*o),
        Node::If(_) => (19, 22),
        Node::Let(_, _) => (22, 23),
        Node::Case(_, _, _) => (23, 26),
        Node::Call(_, _) => (26, 30),
        _ => (1, 1),
    }
}

/// The same of an operator. All rows are tried for a number that names none.
#[tactic(auto, using(crate::proofs::SpanLaws::operators))]
fn operator_span(o: OpId) -> (u32, u32)
    ensures { (th : Theory) (ts : Trees) → IsSpan th (op (operator o) ts) result.0 result.1 }
{
    match o {
        NEGATION => (1, 4),
        CONJUNCTION => (4, 9),
        DISJUNCTION => (9, 14),
        IMPLICATION => (14, 19),
        EQUALITY => (30, 39),
        SUCCESSOR => (39, 40),
        PLUS => (40, 41),
        MINUS => (41, 42),
        TIMES => (42, 43),
        DIVIDE => (43, 44),
        MODULO => (44, 45),
        LESS => (45, 47),
        LESS_EQUAL => (47, 49),
        _ => (1, 49),
    }
}
