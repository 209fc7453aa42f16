//! Sizes that were counted before.
ghost use Rattle.std.specs.Prelude.{◌≡◌, ◌<◌, List, IfSome};
ghost use Rattle.tg_model.specs.Theory.{Datatype};
ghost use Rattle.tg_types.specs.Types.{types};
ghost use Rattle.tg_split.specs.Known.{size_of_data, AreRight};

use crate::recursion::same_types;
use crate::sizes::Size;
use tg_types::{DataId, Ty};

/// How many sizes there is room for: those of 128 datatypes to each depth.
pub(crate) const KNOWN: usize = 32_768;

/// How many depths there are.
const DEPTHS: usize = 256;

/// The size of the shapes of a datatype at closed types to a depth.
#[derive(Clone, Copy, Debug)]
pub(crate) struct Known<'t> {
    pub(crate) data: DataId,
    pub(crate) types: &'t [Ty],
    pub(crate) depth: u8,
    pub(crate) size: Size,
}

impl<'t> Known<'t> {
    /// A type of no datatype has no shape: no datatype has the number 0.
    pub(crate) fn nothing() -> Known<'t>
        ensures { (ds : List Datatype) → result.size ≡ size_of_data ds result.data (types result.types.now) result.depth }
    {
        Known {
            data: 0,
            types: &[],
            depth: 0,
            size: Size::none(),
        }
    }
}

/// The size of the shapes of a datatype at closed types, where it is still known.
#[tactic(auto, using(crate::proofs::CountLaws::knowing))]
pub(crate) fn recall(known: &[Known], d: DataId, ts: &[Ty], depth: u8) -> Option<Size>
    ensures { (ds : List Datatype) → AreRight ds known.now → IfSome result (λ size. size ≡ size_of_data ds d (types ts.now) depth) }
{
    let found = known.get(place_of(known.len(), d, depth)?)?;
    if found.data == d && found.depth == depth && same_types(found.types, ts) {
        Some(found.size)
    } else {
        None
    }
}

/// Puts the size of the shapes of a datatype at closed types in place of what was known at its place.
pub(crate) fn remember<'t>(known: &mut [Known<'t>], d: DataId, ts: &'t [Ty], depth: u8, size: Size)
    ensures { (ds : List Datatype) → AreRight ds known.old → size ≡ size_of_data ds d (types ts.now) depth → AreRight ds known.new }
{
    if let Some(place) = place_of(known.len(), d, depth) {
        known[place] = Known {
            data: d,
            types: ts,
            depth,
            size,
        };
    }
}

/// The place of a datatype and a depth among so many.
fn place_of(count: usize, d: DataId, depth: u8) -> Option<usize>
    ensures { IfSome result (λ place. place < count) }
{
    (d as usize * DEPTHS + depth as usize).checked_rem(count)
}
