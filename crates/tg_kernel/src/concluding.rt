//! The sequent that a line gives.
ghost use Rattle.std.specs.Prelude.{◌≡◌, IfOk, map, option_copied, option_map};
ghost use Rattle.tg_calculus.specs.Book.{IsBook, premises_at, sequents};
ghost use Rattle.tg_kernel.specs.Entries.{entry, Concludes};
ghost use Rattle.tg_kernel.specs.Rules.{as_line};
ghost use Rattle.tg_kernel.specs.Sequents.{sequent};
ghost use Rattle.tg_model.specs.Theory.{numbered};

use crate::drafting::draft;
use crate::needs::are_met;
use crate::rules::RuleLine;
use crate::sequents::Sequent;
use std::alloc::{AllocError, Global};
use tg_theory::Theory;

/// A line of a book, with its sequent.
#[derive(Debug, Drop)]
pub(crate) struct Entry {
    pub(crate) line: RuleLine,
    pub(crate) sequent: Sequent,
}

/// What the line gives after the lines of a book, or `None` exactly where it is no instance of its rule.
pub(crate) fn conclude(
    alloc: Global,
    th: &Theory,
    entries: &[Entry],
    line: &RuleLine,
) -> Result<Option<Sequent>, AllocError>
    requires { IsBook th.now (map entry entries.now) }
    ensures { IfOk result (λ o. Concludes th.now (map entry entries.now) (as_line line.now) (option_map sequent o)) }
{
    let Some(ps) = premises(alloc, entries, line.premises.as_slice())? else {
        return Ok(None);
    };
    let Some(draft) = draft(alloc, th, &line.rule, ps.as_slice())? else {
        return Ok(None);
    };
    if !are_met(alloc, th, &draft)? {
        return Ok(None);
    }
    Ok(Some(draft.conclusion))
}

/// The sequents of the lines at the numbers, if each of these is a line's.
fn premises(
    alloc: Global,
    entries: &[Entry],
    numbers: &[u64],
) -> Result<Option<Vec<Sequent>>, AllocError>
    ensures { IfOk result (λ o. option_map (λ ps. map sequent ps.items) o ≡ premises_at (sequents (map entry entries.now)) numbers.now) }
{
    let mut ps = Vec::with_capacity(alloc, numbers.len())?;
    for number in numbers {
        let Some(p) = earlier(entries, *number) else {
            return Ok(None);
        };
        ps.push(p.share()?)?;
    }
    Ok(Some(ps))
}

/// The sequent of the line of a number.
#[tactic(auto, using(crate::proofs::BookLaws::finding))]
fn earlier(entries: &[Entry], number: u64) -> Option<&Sequent>
    ensures { option_map (λ s. sequent s.now) result ≡ numbered (sequents (map entry entries.now)) number }
{
    Some(&numbered_entry(entries, number)?.sequent)
}

/// The line of a number, from 1.
pub(crate) fn numbered_entry(entries: &[Entry], number: u64) -> Option<&Entry>
    ensures { option_copied result ≡ numbered entries.now number }
{
    entries.get((number as usize).checked_sub(1)?)
}
