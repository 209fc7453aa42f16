//! Terms taken apart by a `case` or a primitive recursive function.
ghost use Rattle.std.specs.Prelude.{◌≡◌, ◌-◌, nat_le, option_map, option_copied, slice_get};
ghost use Rattle.tg_accept.specs.Declared.{theory};
ghost use Rattle.std.specs.Prelude.{[]};
ghost use Rattle.tg_model.specs.Theory.{first_constructor, numbered};
ghost use Rattle.tg_rows.specs.Parts.{only_if};
ghost use Rattle.tg_rows.specs.Rows.{from_constructor, from_successor, from_literal, place_of_literal};
ghost use Rattle.tg_schema.specs.Found.{opened, opener};

use crate::found::{Arguments, Opened, Piece, Writing};
use crate::operators::SUCCESSOR;
use crate::parts::{made_of, number_of, unary};
use tg_declarations::Declarations;
use tg_term::{ConId, Term};
use tg_types::DataId;

/// A term of a datatype, 0 being nat, taken apart where it is written so.
pub(crate) fn opened<'a>(
    declared: &Declarations,
    writing: Writing,
    d: DataId,
    t: &'a Term,
) -> Option<Opened<'a>>
    ensures { option_map opened result ≡ opener (theory [] declared.now) writing d t.now }
{
    match writing {
        Writing::Constructor => from_constructor(declared, d, t),
        Writing::Successor => from_successor(t),
        Writing::Literal => from_literal(t),
    }
}

#[tactic(auto, using(crate::proofs::OpeningLaws::constructors))]
fn from_constructor<'a>(declared: &Declarations, d: DataId, t: &'a Term) -> Option<Opened<'a>>
    ensures { option_map opened result ≡ from_constructor (theory [] declared.now) d t.now }
{
    let (c, ts) = made_of(t)?;
    let place = place_of(declared, d, c)?;
    Some(Opened {
        place,
        arguments: Arguments::These(ts),
    })
}

fn from_successor(t: &Term) -> Option<Opened<'_>>
    ensures { option_map opened result ≡ from_successor 0 t.now }
{
    let a = unary(t, SUCCESSOR)?;
    Some(Opened {
        place: 1,
        arguments: Arguments::Only(Piece::Part(a)),
    })
}

fn from_literal<'a>(t: &Term) -> Option<Opened<'a>>
    ensures { option_map opened result ≡ from_literal 0 t.now }
{
    let n = number_of(t)?;
    Some(literal(n))
}

/// 0, or the successor of the number before.
#[tactic(auto, using(crate::proofs::OpeningLaws::literals))]
fn literal<'a>(n: u64) -> Opened<'a>
    ensures { opened result ≡ place_of_literal n }
{
    match n.checked_sub(1) {
        Some(before) => Opened {
            place: 1,
            arguments: Arguments::Only(Piece::Number(before)),
        },
        None => Opened {
            place: 0,
            arguments: Arguments::These(&[]),
        },
    }
}

/// The place, from 0, of a constructor after the first one of a datatype.
#[tactic(auto, using(crate::proofs::OpeningLaws::places))]
fn place_of(declared: &Declarations, d: DataId, c: ConId) -> Option<usize>
    ensures { result ≡ only_if (nat_le (first_constructor declared.now.datatypes d) c) (c - first_constructor declared.now.datatypes d) }
{
    match item(declared.constructors(d), 1) {
        Some(first) => place_after(*first, c),
        None => place_past(declared, d, c),
    }
}

#[tactic(auto, using(crate::proofs::OpeningLaws::places))]
fn place_after(first: ConId, c: ConId) -> Option<usize>
    ensures { result ≡ only_if (nat_le first c) (c - first) }
{
    (c as usize).checked_sub(first as usize)
}

/// The place after the constructors of all datatypes before a number: of a datatype that has no constructors, or that
/// isn't declared.
#[tactic(auto, using(crate::proofs::OpeningLaws::left))]
fn place_past(declared: &Declarations, d: DataId, c: ConId) -> Option<usize>
    ensures { result ≡ only_if (nat_le (first_constructor declared.now.datatypes d) c) (c - first_constructor declared.now.datatypes d) }
{
    let mut place = (c as usize).checked_sub(1)?;
    for number in 1..d {
        let Some(def) = declared.data_def(number) else {
            return Some(place);
        };
        place = place.checked_sub(def.cons.len())?;
    }
    Some(place)
}

/// The item of a number, from 1.
pub(crate) fn item<T>(items: &[T], number: u32) -> Option<&T>
    ensures { option_copied result ≡ numbered items.now number }
{
    items.get((number as usize).checked_sub(1)?)
}
