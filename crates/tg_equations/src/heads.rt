//! What the branches of a datatype are for.
ghost use Rattle.std.specs.Prelude.{◌≡◌, [], IfOk, map};
ghost use Rattle.tg_accept.specs.Core.{heads_of};
ghost use Rattle.tg_accept.specs.Declared.{theory};
ghost use Rattle.tg_typing.specs.View.{head};

use sqlite_items::Items;
use std::alloc::{AllocError, Global};
use tg_declarations::Declarations;
use tg_types::DataId;
use tg_typing::Head;

/// What there is to be a branch for in a `case` on a datatype, 0 for the naturals: each constructor, in order.
#[tactic(auto, using(crate::proofs::HeadLaws::heads_declared))]
pub(crate) fn heads(
    alloc: Global,
    declared: &Declarations,
    n: DataId,
) -> Result<Items<Head>, AllocError>
    ensures { IfOk result (λ hs. map head hs ≡ heads_of (theory [] declared.now) n) }
{
    let mut all = Items::new(alloc);
    if n == 0 {
        all.push(Head::Zero)?;
        all.push(Head::Successor)?;
        return Ok(all);
    }
    for c in declared.constructors(n) {
        all.push(Head::Con(*c))?;
    }
    Ok(all)
}
