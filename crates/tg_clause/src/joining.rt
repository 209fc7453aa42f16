//! Clauses and lists of clauses put together.
ghost use Rattle.std.specs.Prelude.{◌≡◌, ◌++◌, ◌∷◌, [], ◌+◌, ◌*◌, ◌<◌, IfOk, OnOk, not, map, length};
ghost use Rattle.std.specs.List.{filter};
ghost use Rattle.tg_model.specs.Equality.{same_tree};
ghost use Rattle.tg_clause.specs.Answers.{literals};
ghost use Rattle.tg_clause.specs.Clauses.{said, has, joined, product, same_literal};

use crate::literals::{Clause, Literal};
use sqlite_items::Items;
use std::alloc::{AllocError, Global};
use tg_term::{Term, same};

/// Whether two literals are equal.
#[tactic(auto, using(crate::proofs::LiteralLaws::comparing))]
pub(crate) fn is_same(l: &Literal, m: &Literal) -> bool
    ensures { result ≡ same_literal l.now m.now }
{
    l.positive == m.positive && is_same_term(&l.atom, &m.atom)
}

#[tactic(auto, using(crate::proofs::LiteralLaws::equal))]
pub(crate) fn is_same_term(t: &Term, u: &Term) -> bool
    ensures { result ≡ same_tree t.now u.now }
{
    same(t, u)
}

/// Whether the literal stands among these.
pub(crate) fn has(c: &[Literal], l: &Literal) -> bool
    ensures { result ≡ has c.now l.now }
{
    c.iter().any(|m| is_same(l, m))
}

/// A literal of the sign and the atom.
pub(crate) fn literal(positive: bool, atom: &Term) -> Result<Literal, AllocError>
    ensures { IfOk result (λ l. l ≡ said positive atom.now) }
{
    Ok(Literal {
        positive,
        atom: atom.share()?,
    })
}

/// Appends the literals.
#[tactic(auto, using(crate::proofs::ListLaws::appending))]
fn append(all: &mut Items<Literal>, ls: &[Literal]) -> Result<(), AllocError>
    ensures { OnOk result (all.new ≡ all.old ++ ls.now) }
{
    for m in ls {
        all.push(literal(m.positive, &m.atom)?)?;
    }
    Ok(())
}

/// Appends the literals that don't stand in the clause.
#[tactic(auto, using(crate::proofs::ListLaws::appending))]
fn append_new(all: &mut Items<Literal>, c: &[Literal], ls: &[Literal]) -> Result<(), AllocError>
    ensures { OnOk result (all.new ≡ all.old ++ filter (λ l. not (has c.now l)) ls.now) }
{
    for m in ls {
        if !has(c, m) {
            all.push(literal(m.positive, &m.atom)?)?;
        }
    }
    Ok(())
}

/// An equal clause, which shares its atoms.
pub(crate) fn copied(alloc: Global, c: &Clause) -> Result<Clause, AllocError>
    ensures { IfOk result (λ d. literals d ≡ literals c.now) }
{
    let mut all = Items::new(alloc);
    append(&mut all, c.literals.as_slice())?;
    Ok(Clause { literals: all })
}

/// Both clauses as one.
fn join(alloc: Global, c: &Clause, d: &Clause) -> Result<Clause, AllocError>
    ensures { IfOk result (λ e. literals e ≡ joined (literals c.now) (literals d.now)) }
{
    let mut all = Items::new(alloc);
    append(&mut all, c.literals.as_slice())?;
    append_new(&mut all, c.literals.as_slice(), d.literals.as_slice())?;
    Ok(Clause { literals: all })
}

/// Appends a clause joined with each of a list.
#[tactic(auto, using(crate::proofs::ListLaws::appending))]
fn append_joined(
    alloc: Global,
    all: &mut Vec<Clause>,
    c: &Clause,
    ds: &[Clause],
) -> Result<(), AllocError>
    ensures { OnOk result (map literals all.new.items ≡ map literals all.old.items ++ map (joined (literals c.now)) (map literals ds.now)) }
{
    for d in ds {
        all.push(join(alloc, c, d)?)?;
    }
    Ok(())
}

/// Each clause of the first list joined with each of the second, the first slowest.
#[tactic(auto, using(crate::proofs::ListLaws::appending))]
pub(crate) fn product(
    alloc: Global,
    cs: &[Clause],
    ds: &[Clause],
) -> Result<Vec<Clause>, AllocError>
    ensures { IfOk result (λ all. map literals all.items ≡ product (map literals cs.now) (map literals ds.now)) }
{
    let mut all = Vec::new(alloc);
    for c in cs {
        append_joined(alloc, &mut all, c, ds)?;
    }
    Ok(all)
}
