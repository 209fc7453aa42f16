//! What is found, built.
ghost use Rattle.std.specs.Prelude.{◌≡◌, ◌++◌, IfOk, OnOk, unwrap_or, true};
ghost use Rattle.tg_model.specs.Tree.{conjunction, negation, op, one, two, truth};
ghost use Rattle.tg_model.specs.Walk.{instantiated, substituted};
ghost use Rattle.tg_rows.specs.Rows.{equal_parts, equation};
ghost use Rattle.tg_schema.specs.Found.{listed, piece, term_of};

use crate::found::{Arguments, Found, Piece};
use crate::operators::{CONJUNCTION, EQUALITY, NEGATION};
use sqlite_items::Items;
use std::alloc::{AllocError, Global};
use tg_term::{Node, Term, instantiate, subst};

/// The term that is found.
pub(crate) fn build(alloc: Global, found: &Found<'_>) -> Result<Term, AllocError>
    ensures { IfOk result (λ t. t ≡ term_of found.now) }
{
    match found {
        Found::Whole(p) => piece(alloc, p),
        Found::Truth(b) => Term::new(alloc, Node::Truth(*b)),
        Found::Negation(t) => negation(alloc, t),
        Found::Equation(p, q) => equation(alloc, piece(alloc, p)?, piece(alloc, q)?),
        Found::Equations(ts, us) => equations(alloc, ts, us),
        Found::Instantiated(us, t) => instantiated(alloc, us, t),
        Found::Substituted(us, t) => substituted(alloc, t, us),
        Found::Unfolded(ts, us, vs, t) => unfolded(alloc, ts, us, vs, t),
    }
}

fn piece(alloc: Global, p: &Piece<'_>) -> Result<Term, AllocError>
    ensures { IfOk result (λ t. t ≡ piece p.now) }
{
    match p {
        Piece::Part(t) => t.share(),
        Piece::Number(n) => Term::new(alloc, Node::Lit(*n)),
    }
}

fn negation(alloc: Global, t: &Term) -> Result<Term, AllocError>
    ensures { IfOk result (λ u. u ≡ op negation (one t.now)) }
{
    let mut items = Items::new(alloc);
    items.push(t.share()?)?;
    Term::new(alloc, Node::Op(NEGATION, items))
}

fn equation(alloc: Global, a: Term, b: Term) -> Result<Term, AllocError>
    ensures { IfOk result (λ t. t ≡ equation a b) }
{
    let mut items = Items::new(alloc);
    items.push(a)?;
    items.push(b)?;
    Term::new(alloc, Node::Op(EQUALITY, items))
}

fn conjunction(alloc: Global, a: Term, b: Term) -> Result<Term, AllocError>
    ensures { IfOk result (λ t. t ≡ op conjunction (two a b)) }
{
    let mut items = Items::new(alloc);
    items.push(a)?;
    items.push(b)?;
    Term::new(alloc, Node::Op(CONJUNCTION, items))
}

/// The equations between the terms of two lists, joined from the last. It is True where there are none.
#[tactic(auto, using(crate::proofs::BuildLaws::equations))]
fn equations(alloc: Global, ts: &[Term], us: &[Term]) -> Result<Term, AllocError>
    ensures { IfOk result (λ t. t ≡ unwrap_or (equal_parts ts.now us.now) (truth true)) }
{
    if ts.len() != us.len() || ts.len() == 0 {
        return Term::new(alloc, Node::Truth(true));
    }
    let mut at = ts.len() - 1;
    let mut joined = equation(alloc, ts[at].share()?, us[at].share()?)?;
    while at > 0 {
        at -= 1;
        let first = equation(alloc, ts[at].share()?, us[at].share()?)?;
        joined = conjunction(alloc, first, joined)?;
    }
    Ok(joined)
}

/// A term with arguments for its innermost loose bound variables.
#[tactic(auto, using(crate::proofs::BuildLaws::walked))]
fn instantiated(alloc: Global, us: &Arguments<'_>, t: &Term) -> Result<Term, AllocError>
    ensures { IfOk result (λ u. u ≡ instantiated (listed us.now) t.now) }
{
    match us {
        Arguments::These(ts) => {
            let made = instantiate(alloc, t, ts)?;
            Ok(made)
        }
        Arguments::Only(p) => {
            let mut args = Vec::new(alloc);
            args.push(piece(alloc, p)?)?;
            let made = instantiate(alloc, t, args.as_slice())?;
            Ok(made)
        }
    }
}

/// A term with arguments for its free variables.
#[tactic(auto, using(crate::proofs::BuildLaws::walked))]
fn substituted(alloc: Global, t: &Term, us: &[Term]) -> Result<Term, AllocError>
    ensures { IfOk result (λ u. u ≡ substituted us.now t.now) }
{
    let made = subst(alloc, t, us)?;
    Ok(made)
}

/// The same with the arguments in three lists.
fn unfolded(
    alloc: Global,
    ts: &[Term],
    us: &[Term],
    vs: &Arguments<'_>,
    t: &Term,
) -> Result<Term, AllocError>
    ensures { IfOk result (λ u. u ≡ substituted ((ts.now ++ us.now) ++ listed vs.now) t.now) }
{
    let mut args = Vec::new(alloc);
    add_shared(&mut args, ts)?;
    add_shared(&mut args, us)?;
    add_arguments(alloc, &mut args, vs)?;
    let made = substituted(alloc, t, args.as_slice())?;
    Ok(made)
}

/// Adds the terms.
fn add_shared(out: &mut Vec<Term>, ts: &[Term]) -> Result<(), AllocError>
    ensures { OnOk result (out.new.items ≡ out.old.items ++ ts.now) }
{
    for t in ts {
        out.push(t.share()?)?;
    }
    Ok(())
}

/// Adds the arguments.
fn add_arguments(alloc: Global, out: &mut Vec<Term>, us: &Arguments<'_>) -> Result<(), AllocError>
    ensures { OnOk result (out.new.items ≡ out.old.items ++ listed us.now) }
{
    match us {
        Arguments::These(ts) => add_shared(out, ts),
        Arguments::Only(p) => {
            out.push(piece(alloc, p)?)?;
            Ok(())
        }
    }
}
