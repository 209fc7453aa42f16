use crate::{
    Branch, Formula, FormulaNode, Node, Pattern, Term, Value, abstract_formula, abstract_var,
    close_formula, depth, fill, instantiate, instantiate_formula, lift, matches, same, subst,
    subst_formula,
};
use sqlite_items::Items;
use std::alloc::{AllocError, Global};
use std::test::Fail;
use tg_types::Ty;

fn term(alloc: Global, node: Node) -> Result<Term, AllocError> {
    Term::new(alloc, node)
}

fn pair(alloc: Global, left: Term, right: Term) -> Result<Items<Term>, AllocError> {
    let mut terms = Items::new(alloc);
    terms.push(left)?;
    terms.push(right)?;
    Ok(terms)
}

fn single(alloc: Global, t: Term) -> Result<Items<Term>, AllocError> {
    let mut terms = Items::new(alloc);
    terms.push(t)?;
    Ok(terms)
}

/// A constructor at the sum of `inner` and the innermost variable but one, and at `outer`.
fn made(alloc: Global, inner: Node, outer: Node) -> Result<Term, AllocError> {
    let sum = pair(alloc, term(alloc, inner)?, term(alloc, Node::Bound(1))?)?;
    let arguments = pair(alloc, term(alloc, Node::Op(9, sum))?, term(alloc, outer)?)?;
    term(alloc, Node::Con(2, arguments))
}

/// The program at a function's value.
fn answered(alloc: Global, t: Term) -> Result<Term, AllocError> {
    let call = term(alloc, Node::Call(1, single(alloc, t)?))?;
    term(alloc, Node::Put(single(alloc, call)?))
}

fn chosen(alloc: Global, t: Term) -> Result<Term, AllocError> {
    let mut parts = pair(alloc, term(alloc, Node::Truth(true))?, t)?;
    parts.push(term(alloc, Node::Lit(7))?)?;
    term(alloc, Node::If(parts))
}

/// The cases of a number: 0 at 0, and else `body`, which has one variable more.
fn cases(alloc: Global, body: Term) -> Result<Items<Branch>, AllocError> {
    let mut branches = Items::new(alloc);
    branches.push(Branch {
        vars: 0,
        body: term(alloc, Node::Lit(0))?,
    })?;
    branches.push(Branch { vars: 1, body })?;
    Ok(branches)
}

/// A term with every kind of node, and within a branch of `case` within a `let` the variables `inner`,
/// the `let`'s own one, and `outer`.
fn every_node(alloc: Global, inner: Node, outer: Node) -> Result<Term, AllocError> {
    let body = chosen(alloc, answered(alloc, made(alloc, inner, outer)?)?)?;
    let branches = cases(alloc, body)?;
    let case = term(alloc, Node::Case(0, term(alloc, Node::Bound(0))?, branches))?;
    term(alloc, Node::Let(term(alloc, Node::Lit(5))?, case))
}

#[test]
fn substitution_lifts_under_a_branch_within_a_let(rt: HostRuntime) -> Result<(), Fail> {
    let alloc = rt.alloc();
    let t = every_node(alloc, Node::Free(2), Node::Free(1))?;
    let mut vars = Vec::new(alloc);
    vars.push(term(alloc, Node::Bound(0))?)?;
    vars.push(term(alloc, Node::Lit(3))?)?;
    let found = subst(alloc, &t, vars.as_slice())?;
    let wanted = every_node(alloc, Node::Lit(3), Node::Bound(2))?;
    assert!(rt; same(&found, &wanted));
    assert!(rt; !same(&found, &t));
    Ok(())
}

#[test]
fn instantiation_takes_the_last_argument_for_the_innermost_variable(
    rt: HostRuntime,
) -> Result<(), Fail> {
    let alloc = rt.alloc();
    let t = every_node(alloc, Node::Bound(2), Node::Bound(3))?;
    let mut args = Vec::new(alloc);
    args.push(term(alloc, Node::Lit(1))?)?;
    args.push(term(alloc, Node::Free(4))?)?;
    let found = instantiate(alloc, &t, args.as_slice())?;
    assert!(rt; same(&found, &every_node(alloc, Node::Free(4), Node::Lit(1))?));
    let beyond = every_node(alloc, Node::Bound(4), Node::Bound(5))?;
    let found = instantiate(alloc, &beyond, args.as_slice())?;
    assert!(rt; same(&found, &every_node(alloc, Node::Bound(2), Node::Bound(3))?));
    Ok(())
}

#[test]
fn abstraction_binds_one_variable_and_raises_the_loose_ones(rt: HostRuntime) -> Result<(), Fail> {
    let alloc = rt.alloc();
    let t = every_node(alloc, Node::Free(1), Node::Bound(2))?;
    let found = abstract_var(alloc, &t, 1)?;
    assert!(rt; same(&found, &every_node(alloc, Node::Bound(2), Node::Bound(3))?));
    let lifted = lift(alloc, &t, 4)?;
    assert!(rt; same(&lifted, &every_node(alloc, Node::Free(1), Node::Bound(6))?));
    Ok(())
}

/// The term, which is to be true.
fn atom(alloc: Global, node: Node) -> Result<Formula, AllocError> {
    Formula::new(alloc, FormulaNode::Atom(term(alloc, node)?))
}

/// For all truth values, the one term.
fn for_all(alloc: Global, node: Node) -> Result<Formula, AllocError> {
    Formula::new(alloc, FormulaNode::All(Ty::Bool, atom(alloc, node)?))
}

fn one(alloc: Global, node: Node) -> Result<Vec<Term>, AllocError> {
    let mut terms = Vec::new(alloc);
    terms.push(term(alloc, node)?)?;
    Ok(terms)
}

/// The node of the one term under the quantifier.
fn quantified(f: &Formula) -> Option<&Node> {
    match f.node() {
        FormulaNode::All(_, g) => match g.node() {
            FormulaNode::Atom(t) => Some(t.node()),
            _ => None,
        },
        _ => None,
    }
}

#[test]
fn a_quantifier_is_a_binder(rt: HostRuntime) -> Result<(), Fail> {
    let alloc = rt.alloc();
    let f = for_all(alloc, Node::Free(1))?;
    let vars = one(alloc, Node::Bound(0))?;
    let found = subst_formula(alloc, &f, vars.as_slice())?;
    assert!(rt; matches!(quantified(&found), Some(Node::Bound(1))));
    let bound = abstract_formula(alloc, &f, 1)?;
    assert!(rt; matches!(quantified(&bound), Some(Node::Bound(1))));
    Ok(())
}

#[test]
fn an_argument_goes_under_a_quantifier(rt: HostRuntime) -> Result<(), Fail> {
    let alloc = rt.alloc();
    let f = for_all(alloc, Node::Bound(1))?;
    let args = one(alloc, Node::Lit(9))?;
    let found = instantiate_formula(alloc, &f, args.as_slice())?;
    assert!(rt; matches!(quantified(&found), Some(Node::Lit(9))));
    Ok(())
}

#[test]
fn the_first_variable_is_bound_by_the_outermost_quantifier(rt: HostRuntime) -> Result<(), Fail> {
    let alloc = rt.alloc();
    for (number, index) in [(1, 3), (2, 2), (3, 1)] {
        let f = for_all(alloc, Node::Free(number))?;
        let closed = close_formula(alloc, &f, 3)?;
        assert!(rt; matches!(quantified(&closed), Some(Node::Bound(k)) if *k == index));
    }
    let f = for_all(alloc, Node::Free(4))?;
    assert!(rt;
        matches!(
            quantified(&close_formula(alloc, &f, 3)?),
            Some(Node::Free(4))
        )
    );
    let f = for_all(alloc, Node::Bound(1))?;
    assert!(rt;
        matches!(
            quantified(&close_formula(alloc, &f, 3)?),
            Some(Node::Bound(4))
        )
    );
    Ok(())
}

/// Whether the term has these measures: its nodes, its height and its loose range.
fn measures(t: &Term, nodes: u64, height: u64, loose_range: u64) -> bool {
    t.nodes() == nodes && t.height() == height && t.loose_range() == loose_range
}

fn applied(alloc: Global, left: Node, right: Node) -> Result<Term, AllocError> {
    let terms = pair(alloc, term(alloc, left)?, term(alloc, right)?)?;
    term(alloc, Node::Op(9, terms))
}

#[test]
fn a_term_knows_its_size_its_height_and_its_loose_range(rt: HostRuntime) -> Result<(), Fail> {
    let alloc = rt.alloc();
    assert!(rt; measures(&term(alloc, Node::Lit(7))?, 1, 0, 0));
    assert!(rt; measures(&term(alloc, Node::Truth(true))?, 1, 0, 0));
    assert!(rt; measures(&term(alloc, Node::Free(9))?, 1, 0, 0));
    assert!(rt; measures(&term(alloc, Node::Bound(0))?, 1, 0, 1));
    assert!(rt; measures(&term(alloc, Node::Bound(u32::MAX))?, 1, 0, 1 << 32));
    assert!(rt; measures(&term(alloc, Node::Con(1, Items::new(alloc)))?, 1, 0, 0));
    let sum = applied(alloc, Node::Bound(2), Node::Bound(5))?;
    assert!(rt; measures(&sum, 3, 1, 6));
    let call = term(alloc, Node::Call(1, single(alloc, sum.share()?)?))?;
    assert!(rt; measures(&call, 4, 2, 6));
    let put = term(
        alloc,
        Node::Put(pair(alloc, call, term(alloc, Node::Bound(7))?)?),
    )?;
    assert!(rt; measures(&put, 6, 3, 8));
    let bound = Node::Let(sum.share()?, term(alloc, Node::Bound(0))?);
    assert!(rt; measures(&term(alloc, bound)?, 5, 2, 6));
    let body = Node::Let(term(alloc, Node::Lit(1))?, sum.share()?);
    assert!(rt; measures(&term(alloc, body)?, 5, 2, 5));
    let closed = Node::Let(term(alloc, Node::Bound(0))?, term(alloc, Node::Bound(0))?);
    assert!(rt; measures(&term(alloc, closed)?, 3, 1, 1));
    let branches = cases(alloc, chosen(alloc, sum)?)?;
    let case = term(alloc, Node::Case(0, term(alloc, Node::Free(1))?, branches))?;
    assert!(rt; measures(&case, 9, 3, 5));
    assert!(rt; measures(&every_node(alloc, Node::Bound(3), Node::Free(1))?, 15, 7, 2));
    Ok(())
}

#[test]
fn a_formula_knows_its_size_its_height_and_its_loose_range(rt: HostRuntime) -> Result<(), Fail> {
    let alloc = rt.alloc();
    let f = for_all(alloc, Node::Bound(3))?;
    assert!(rt; f.nodes() == 3 && f.height() == 2 && f.loose_range() == 3);
    let tested = FormulaNode::Tested(single(alloc, term(alloc, Node::Bound(4))?)?);
    let tested = Formula::new(alloc, tested)?;
    assert!(rt; tested.nodes() == 2 && tested.height() == 1 && tested.loose_range() == 5);
    let implied = Formula::new(alloc, FormulaNode::Imp(tested, f.share()?))?;
    assert!(rt; implied.nodes() == 6 && implied.height() == 3 && implied.loose_range() == 5);
    Ok(())
}

/// The successor, as many times as `height` says, of 0.
fn chain(alloc: Global, height: u64) -> Result<Term, AllocError> {
    let mut t = term(alloc, Node::Lit(0))?;
    for _ in 0..height {
        t = term(alloc, Node::Op(1, single(alloc, t)?))?;
    }
    Ok(t)
}

#[test]
fn no_term_or_formula_is_higher_than_ten_thousand(rt: HostRuntime) -> Result<(), Fail> {
    let alloc = rt.alloc();
    let high = chain(alloc, 10_000)?;
    assert!(rt; measures(&high, 10_001, 10_000, 0));
    assert!(rt; same(&high, &chain(alloc, 10_000)?));
    assert!(rt; chain(alloc, 10_001).is_err());
    let atom = FormulaNode::Atom(chain(alloc, 9_999)?);
    let f = Formula::new(alloc, atom)?;
    assert!(rt; f.height() == 10_000);
    assert!(rt; Formula::new(alloc, FormulaNode::Thyp(f)).is_err());
    assert!(rt; Formula::new(alloc, FormulaNode::Atom(high)).is_err());
    Ok(())
}

#[test]
fn a_count_of_nodes_stops_at_its_end(rt: HostRuntime) -> Result<(), Fail> {
    let alloc = rt.alloc();
    let mut t = term(alloc, Node::Lit(0))?;
    for _ in 0..64 {
        let terms = pair(alloc, t.share()?, t)?;
        t = term(alloc, Node::Op(9, terms))?;
    }
    assert!(rt; measures(&t, u64::MAX, 64, 0));
    Ok(())
}

/// `(Cons 4 Nil)` and `Nil`, where these are the constructors 2 and 1.
fn list_of_four(alloc: Global) -> Result<Value, AllocError> {
    let mut values = Items::new(alloc);
    values.push(Value::Nat(4))?;
    values.push(empty_list(alloc))?;
    Ok(Value::Con(2, values))
}

fn empty_list(alloc: Global) -> Value {
    Value::Con(1, Items::new(alloc))
}

/// `(Cons ?1 Nil)`.
fn list_of_one(alloc: Global) -> Result<Pattern, AllocError> {
    let nil = term(alloc, Node::Con(1, Items::new(alloc)))?;
    let cons = Node::Con(2, pair(alloc, term(alloc, Node::Free(1))?, nil)?);
    let mut vars = Items::new(alloc);
    vars.push(Ty::Nat)?;
    Ok(Pattern {
        terms: single(alloc, term(alloc, cons)?)?,
        vars,
    })
}

#[test]
fn a_pattern_matches_what_it_is_filled_to(rt: HostRuntime) -> Result<(), Fail> {
    let alloc = rt.alloc();
    let pattern = list_of_one(alloc)?;
    let mut inputs = Vec::new(alloc);
    inputs.push(list_of_four(alloc)?)?;
    let found = matches(alloc, &pattern, inputs.as_slice())?;
    assert!(rt; matches!(&found, Some(vs) if matches!(vs.as_slice(), [Value::Nat(4)])));
    let mut values = Vec::new(alloc);
    values.push(Value::Nat(4))?;
    let filled = fill(alloc, &pattern, values.as_slice())?;
    assert!(rt; matches!(filled.as_slice(), [Value::Con(2, vs)] if vs.len() == 2));
    let mut inputs = Vec::new(alloc);
    inputs.push(empty_list(alloc))?;
    assert!(rt; matches(alloc, &pattern, inputs.as_slice())?.is_none());
    Ok(())
}

#[test]
fn depth_counts_constructors(rt: HostRuntime) -> Result<(), Fail> {
    let alloc = rt.alloc();
    assert_eq!(rt; depth(&Value::Nat(7)), 0);
    assert_eq!(rt; depth(&empty_list(alloc)), 1);
    assert_eq!(rt; depth(&list_of_four(alloc)?), 2);
    Ok(())
}
