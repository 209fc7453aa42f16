//! Where the constructor of a number is declared.
ghost use Rattle.std.specs.Prelude.{◌≡◌, ◌<◌, ◌+◌, ◌++◌, OnOk, OnErr, IfOk};
ghost use Rattle.tg_declarations.specs.Owners.{places_from, numbers_from};

use sqlite_items::Items;
use std::alloc::{AllocError, Global};
use tg_term::ConId;
use tg_types::DataId;

/// The datatype of a constructor, by number, and the constructor's place in it, from 0.
#[derive(Clone, Copy, Debug)]
pub(crate) struct Owner {
    pub datatype: DataId,
    pub place: usize,
}

/// Adds the places of the constructors of a datatype, or nothing.
#[tactic(auto, using(crate::proofs::OwnerLaws::placing))]
pub(crate) fn add_places(
    owners: &mut Vec<Owner>,
    datatype: DataId,
    count: usize,
) -> Result<(), AllocError>
    ensures added { OnOk result (owners.new.items ≡ owners.old.items ++ places_from datatype 0 count) }
    ensures unchanged { OnErr result (owners.new.items ≡ owners.old.items) }
{
    let before = owners.len();
    for place in 0..count {
        if let Err(error) = owners.push(Owner { datatype, place }) {
            owners.truncate(before);
            return Err(AllocError::from(error));
        }
    }
    Ok(())
}

/// As many numbers of constructors, from the one that follows `before` of them. Numbers are below 2^32, and more
/// of them are answered as want of memory.
#[tactic(auto, using(crate::proofs::OwnerLaws::placing))]
pub(crate) fn numbers_after(
    alloc: Global,
    before: usize,
    count: usize,
) -> Result<Items<ConId>, AllocError>
    ensures { IfOk result (λ numbers. numbers ≡ numbers_from (before + 1) count) }
{
    let mut numbers = Items::new(alloc);
    for place in 0..count {
        numbers.push(number_after(before.checked_add(place).ok_or(AllocError)?)?)?;
    }
    Ok(numbers)
}

/// The number that follows `before` numbers from 1, below 2^32; else want of memory.
pub(crate) fn number_after(before: usize) -> Result<u32, AllocError>
    ensures next { IfOk result (λ number. number ≡ before + 1) }
    ensures fits { IfOk result (λ number. number < 4294967296) }
{
    let number = before.checked_add(1).ok_or(AllocError)?;
    u32::try_from(number).map_err(|_| AllocError)
}
