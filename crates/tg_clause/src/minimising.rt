//! Minimising a list of clauses: literals are numbered once, so that clauses are compared by numbers.
ghost use Rattle.std.specs.Prelude.{◌≡◌, ◌++◌, ◌∷◌, [], ◌&&◌, ◌||◌, ◌≤◌, length, Some, IfOk, OnOk, true, false, map, nat_eq, if◌then◌else◌};
ghost use Rattle.std.specs.List.{list_any, list_all};
ghost use Rattle.tg_clause.specs.Answers.{literals};
ghost use Rattle.tg_clause.specs.Clauses.{has};
ghost use Rattle.tg_clause.specs.Minimal.{minimised};
ghost use Rattle.tg_clause.specs.Numbers.{first_at, row_of, rows_of, is_part, is_proper_part, is_same_set, is_superfluous, superfluous_by, AreAllKnown, HasAdded, row_items};

use crate::joining::{copied, has, is_same, literal};
use crate::literals::{Clause, Literal};
use std::alloc::{AllocError, Global};

/// The clauses that no other one makes superfluous, in their order: a clause goes where another is a proper part of it, as
/// a set of literals, or an earlier one is the same set.
pub fn minimise(alloc: Global, list: Vec<Clause>) -> Result<Vec<Clause>, AllocError>
    ensures { IfOk result (λ kept. map literals kept.items ≡ minimised (map literals list.items)) }
{
    let table = literals_in(alloc, list.as_slice())?;
    let rows = rows_of(alloc, table.as_slice(), list.as_slice())?;
    let kept = needed(alloc, table.as_slice(), rows.as_slice(), list.as_slice())?;
    Ok(kept)
}

/// The clauses that aren't superfluous, where the rows have the numbers of their literals.
#[tactic(auto, using(crate::proofs::MinimalLaws::staying))]
fn needed(
    alloc: Global,
    table: &[Literal],
    rows: &[Vec<usize>],
    list: &[Clause],
) -> Result<Vec<Clause>, AllocError>
    requires known { AreAllKnown table.now (map literals list.now) }
    requires rows { map row_items rows.now ≡ rows_of table.now (map literals list.now) }
    ensures { IfOk result (λ kept. map literals kept.items ≡ minimised (map literals list.now)) }
{
    let mut kept = Vec::new(alloc);
    for (at, c) in list.iter().enumerate() {
        add_needed(alloc, &mut kept, rows, at, c)?;
    }
    Ok(kept)
}

/// Adds the clause, whose row stands at the place, unless it is superfluous.
#[tactic(auto, using(crate::proofs::MinimalLaws::one_needed))]
fn add_needed(
    alloc: Global,
    kept: &mut Vec<Clause>,
    rows: &[Vec<usize>],
    at: usize,
    c: &Clause,
) -> Result<(), AllocError>
    ensures { OnOk result (map literals kept.new.items
        ≡ map literals kept.old.items ++ (if is_superfluous (map row_items rows.now) at then [] else literals c.now ∷ [])) }
{
    if is_superfluous(rows, at) {
        return Ok(());
    }
    kept.push(copied(alloc, c)?)?;
    Ok(())
}

/// Each literal of the clauses, once.
#[tactic(auto, using(crate::proofs::NumberLaws::knowing))]
fn literals_in(alloc: Global, cs: &[Clause]) -> Result<Vec<Literal>, AllocError>
    ensures { IfOk result (λ table. AreAllKnown table.items (map literals cs.now)) }
{
    let mut table = Vec::new(alloc);
    for c in cs {
        add_literals(&mut table, c.literals.as_slice())?;
    }
    Ok(table)
}

/// Adds the literals that aren't in the table.
#[tactic(auto, using(crate::proofs::NumberLaws::adding))]
fn add_literals(table: &mut Vec<Literal>, c: &[Literal]) -> Result<(), AllocError>
    ensures { OnOk result (HasAdded table.old.items table.new.items c.now) }
{
    for m in c {
        add_literal(table, m)?;
    }
    Ok(())
}

/// Adds the literal if it isn't in the table.
#[tactic(auto, using(crate::proofs::NumberLaws::one_added))]
fn add_literal(table: &mut Vec<Literal>, m: &Literal) -> Result<(), AllocError>
    ensures { OnOk result (HasAdded table.old.items table.new.items (m.now ∷ [])) }
{
    if has(table.as_slice(), m) {
        return Ok(());
    }
    table.push(literal(m.positive, &m.atom)?)?;
    Ok(())
}

/// The place of the first such literal in the table.
#[tactic(auto, using(crate::proofs::NumberLaws::finding))]
fn first_at(table: &[Literal], l: &Literal) -> usize
    ensures { result ≡ first_at table.now l.now }
{
    for (at, m) in table.iter().enumerate() {
        if is_same(l, m) {
            return at;
        }
    }
    table.len()
}

/// The numbers of a clause's literals.
#[tactic(auto, using(crate::proofs::NumberLaws::numbering))]
fn row_of(alloc: Global, table: &[Literal], c: &[Literal]) -> Result<Vec<usize>, AllocError>
    ensures { IfOk result (λ row. row.items ≡ row_of table.now c.now) }
{
    let mut row = Vec::new(alloc);
    for m in c {
        row.push(first_at(table, m))?;
    }
    Ok(row)
}

#[tactic(auto, using(crate::proofs::NumberLaws::numbering))]
fn rows_of(alloc: Global, table: &[Literal], cs: &[Clause]) -> Result<Vec<Vec<usize>>, AllocError>
    ensures { IfOk result (λ rows. map row_items rows.items ≡ rows_of table.now (map literals cs.now)) }
{
    let mut rows = Vec::new(alloc);
    for c in cs {
        rows.push(row_of(alloc, table, c.literals.as_slice())?)?;
    }
    Ok(rows)
}

/// Whether the number stands in the row.
fn holds(c: &[usize], n: usize) -> bool
    ensures { result ≡ list_any (nat_eq n) c.now }
{
    c.iter().any(|m| n == *m)
}

/// Whether each number of the first row stands in the second.
fn is_part(d: &[usize], c: &[usize]) -> bool
    ensures { result ≡ is_part d.now c.now }
{
    d.iter().all(|n| holds(c, *n))
}

fn is_proper_part(d: &[usize], c: &[usize]) -> bool
    ensures { result ≡ is_proper_part d.now c.now }
{
    is_part(d, c) && !is_part(c, d)
}

fn is_same_set(d: &[usize], c: &[usize]) -> bool
    ensures { result ≡ is_same_set d.now c.now }
{
    is_part(d, c) && is_part(c, d)
}

/// Whether the row at a place is superfluous among the others.
#[tactic(auto, using(crate::proofs::NumberLaws::placing))]
fn is_superfluous(rows: &[Vec<usize>], at: usize) -> bool
    ensures { result ≡ is_superfluous (map row_items rows.now) at }
{
    if at < rows.len() {
        is_superfluous_row(rows, at, rows[at].as_slice())
    } else {
        false
    }
}

/// Whether the row, which stands at the place, is superfluous.
#[tactic(auto, using(crate::proofs::NumberLaws::placing))]
fn is_superfluous_row(rows: &[Vec<usize>], at: usize, c: &[usize]) -> bool
    requires { at ≤ length rows.now }
    ensures { result ≡ superfluous_by (map row_items rows.now) at (Some c.now) }
{
    if some_proper_part(rows, c) {
        return true;
    }
    some_same_set(&rows[..at], c)
}

#[tactic(auto, using(crate::proofs::NumberLaws::comparing))]
fn some_proper_part(rows: &[Vec<usize>], c: &[usize]) -> bool
    ensures { result ≡ list_any (λ d. is_proper_part d c.now) (map row_items rows.now) }
{
    for d in rows {
        if is_proper_part(d.as_slice(), c) {
            return true;
        }
    }
    false
}

#[tactic(auto, using(crate::proofs::NumberLaws::comparing))]
fn some_same_set(rows: &[Vec<usize>], c: &[usize]) -> bool
    ensures { result ≡ list_any (λ d. is_same_set d c.now) (map row_items rows.now) }
{
    for d in rows {
        if is_same_set(d.as_slice(), c) {
            return true;
        }
    }
    false
}
