//! Names that repeat.
ghost use Rattle.std.specs.Prelude.{◌≡◌, ◌↔◌, ◌∷◌, [], true, IfOk};
ghost use Rattle.std.specs.Str.{bytes_eq};
ghost use Rattle.tg_accept.specs.Equations.{left_names};
ghost use Rattle.tg_equations.specs.Checked.{are_different, names_in, Takes};
ghost use Rattle.tg_equations.specs.View.{pattern, patterns};
ghost use Rattle.tg_model.specs.Accepted.{AreDistinct};

use crate::equations::Pattern;
use indexmap::IndexSet;
use std::alloc::{AllocError, Global};
use tg_types::Name;

/// Whether no name stands twice in the list.
#[tactic(auto, using(crate::proofs::DifferentLaws::names_distinct))]
pub fn are_distinct(alloc: Global, names: &[Name]) -> Result<bool, AllocError>
    ensures { IfOk result (λ yes. (yes ≡ true) ↔ AreDistinct names.now) }
{
    let different = are_different(alloc, names)?;
    Ok(different)
}

/// Whether no name stands twice in the list.
#[tactic(auto, using(crate::proofs::DifferentLaws::taking))]
pub(crate) fn are_different(alloc: Global, names: &[Name]) -> Result<bool, AllocError>
    ensures { IfOk result (λ yes. yes ≡ are_different bytes_eq names.now) }
{
    let mut seen = IndexSet::new(alloc);
    let different = take_all(&mut seen, names)?;
    Ok(different)
}

/// Whether no variable stands twice on a left side.
#[tactic(auto, using(crate::proofs::DifferentLaws::taking))]
pub(crate) fn are_left_names_different(alloc: Global, ps: &[Pattern]) -> Result<bool, AllocError>
    ensures { IfOk result (λ yes. yes ≡ are_different bytes_eq (left_names (patterns ps.now))) }
{
    let mut seen = IndexSet::new(alloc);
    for p in ps {
        if !take_pattern(&mut seen, p)? {
            return Ok(false);
        }
    }
    Ok(true)
}

fn take_pattern(seen: &mut IndexSet<Name>, p: &Pattern) -> Result<bool, AllocError>
    ensures { IfOk result (λ free. Takes seen.old.keys seen.new.keys (names_in (pattern p.now)) free) }
{
    match p {
        Pattern::Variable(x) => take(seen, x),
        Pattern::Matched(_, xs) => take_all(seen, xs.as_slice()),
    }
}

// Takes names, and answers whether no name was taken and no two are one.
#[tactic(auto, using(crate::proofs::DifferentLaws::taking))]
fn take_all(seen: &mut IndexSet<Name>, names: &[Name]) -> Result<bool, AllocError>
    ensures { IfOk result (λ free. Takes seen.old.keys seen.new.keys names.now free) }
{
    for x in names {
        if !take(seen, x)? {
            return Ok(false);
        }
    }
    Ok(true)
}

#[tactic(auto, using(crate::proofs::DifferentLaws::taking))]
fn take(seen: &mut IndexSet<Name>, x: &Name) -> Result<bool, AllocError>
    ensures { IfOk result (λ free. Takes seen.old.keys seen.new.keys (x.now ∷ []) free) }
{
    if seen.contains(x) {
        return Ok(false);
    }
    match seen.insert(x.clone()?) {
        Ok(_) => Ok(true),
        Err(_) => Err(AllocError),
    }
}
