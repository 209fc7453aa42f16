//! The patterns of a theory, one by one.
ghost use Rattle.std.specs.Prelude.{◌≡◌, ◌+◌, ◌∷◌, [], ◌++◌, IfOk, OnOk, List, map, length};
ghost use Rattle.tg_declarations.specs.View.{constructor, datatype};
ghost use Rattle.tg_model.specs.Theory.{instance, numbered};
ghost use Rattle.tg_model.specs.Tree.{free};
ghost use Rattle.tg_model.specs.Types.{applied, tys};
ghost use Rattle.tg_split.specs.Known.{AreRight};
ghost use Rattle.tg_split.specs.Listing.{pattern, part, part_of, added, extended, on_top, AreShapes};
ghost use Rattle.tg_split.specs.Patterns.{patterns, pattern_of, term_from};
ghost use Rattle.tg_split.specs.Scopes.{arguments, within};
ghost use Rattle.tg_split.specs.Shapes.{Shape, of_type, products};
ghost use Rattle.tg_split.specs.declared.scopes.Scope.TheVariants.{Closed};
ghost use Rattle.tg_types.specs.Types.{ty};

use crate::counting::size_of_arguments;
use crate::known::{KNOWN, Known};
use crate::numbering::{Part, place_behind};
use crate::scopes::{Root, Scope, root_of};
use sqlite_items::{Items, at};
use std::alloc::{AllocError, Global};
use tg_declarations::{ConDef, Declarations};
use tg_term::{ConId, Node, Pattern, Term};
use tg_theory::Theory;
use tg_types::{DataId, Ty, copy};

/// The patterns of the inputs of the theory's program to a depth, in their order. Where there are many more than the
/// limit, it wants memory. Equal terms with the same variables that patterns have at one place are shared: of the
/// shapes of an argument only those are made anew that stand behind another number of variables.
pub fn patterns(alloc: Global, th: &Theory, depth: u8) -> Result<Vec<Pattern>, AllocError>
    ensures { IfOk result (λ ps. map pattern ps.items ≡ patterns th.now depth) }
{
    th.accepted();
    let inputs = th.program().inputs.as_slice();
    let ps = patterns_of(alloc, th.declarations(), inputs, depth)?;
    Ok(ps)
}

/// The products of the shapes of closed types, as patterns.
pub(crate) fn patterns_of(
    alloc: Global,
    declared: &Declarations,
    inputs: &[Ty],
    depth: u8,
) -> Result<Vec<Pattern>, AllocError>
    ensures { IfOk result (λ ps. map pattern ps.items ≡ map pattern_of (products (of_type declared.now.datatypes depth) (map (instance (arguments Closed)) (map ty inputs.now)))) }
{
    let mut known = [Known::nothing(); KNOWN];
    let rows = rows_of(alloc, declared, inputs, &Scope::Closed, depth, &mut known)?;
    Ok(rows)
}

/// The shapes of a type to a depth.
#[cycle(shapes)]
#[tactic(auto, using(crate::proofs::ListLaws::listing))]
fn shapes_of<'t>(
    alloc: Global,
    declared: &'t Declarations,
    t: &'t Ty,
    scope: &Scope<'t, '_>,
    depth: u8,
    known: &mut [Known<'t>],
) -> Result<Vec<Part>, AllocError>
    requires { AreRight declared.now.datatypes known.old }
    ensures shapes { IfOk result (λ ss. map part ss.items ≡ map part_of (of_type declared.now.datatypes depth (instance (arguments scope.now) (ty t.now)))) }
    ensures right { AreRight declared.now.datatypes known.new }
{
    match root_of(&*t, &*scope) {
        Root::Nat => hole(alloc, Ty::Nat),
        Root::Bool => hole(alloc, Ty::Bool),
        Root::Meta(_) => Ok(Vec::new(alloc)),
        Root::Data(d, ts, scope) => {
            let shapes = shapes_of_data(alloc, declared, d, ts, scope, depth, known)?;
            Ok(shapes)
        }
    }
}

/// The one shape that stands for each value of the type.
#[tactic(auto, using(crate::proofs::ListLaws::listing))]
fn hole(alloc: Global, t: Ty) -> Result<Vec<Part>, AllocError>
    ensures { IfOk result (λ ss. map part ss.items ≡ (free 1, ty t ∷ []) ∷ []) }
{
    let mut vars = Items::new(alloc);
    vars.push(t)?;
    let mut shapes = Vec::new(alloc);
    shapes.push(Part {
        term: Term::new(alloc, Node::Free(1))?,
        vars,
    })?;
    Ok(shapes)
}

#[cycle(shapes)]
#[tactic(auto, using(crate::proofs::ListLaws::listing))]
fn shapes_of_data<'t>(
    alloc: Global,
    declared: &'t Declarations,
    d: DataId,
    ts: &'t [Ty],
    outer: &Scope<'t, '_>,
    depth: u8,
    known: &mut [Known<'t>],
) -> Result<Vec<Part>, AllocError>
    requires { AreRight declared.now.datatypes known.old }
    ensures shapes { IfOk result (λ ss. map part ss.items ≡ map part_of (of_type declared.now.datatypes depth (applied d (tys (within ts.now outer.now))))) }
    ensures right { AreRight declared.now.datatypes known.new }
{
    let Some(below) = depth.checked_sub(1) else {
        return Ok(Vec::new(alloc));
    };
    let Some(def) = declared.data_def(d) else {
        return Ok(Vec::new(alloc));
    };
    let scope = Scope::Within(&*ts, &*outer);
    let numbers = declared.constructors(d);
    let shapes = shapes_of_constructors(
        alloc,
        declared,
        numbers,
        def.cons.as_slice(),
        &scope,
        below,
        known,
    )?;
    Ok(shapes)
}

/// The shapes that constructors of these numbers make.
#[cycle(shapes)]
#[tactic(auto, using(crate::proofs::ListLaws::listing))]
fn shapes_of_constructors<'t>(
    alloc: Global,
    declared: &'t Declarations,
    numbers: &[ConId],
    cons: &'t [ConDef],
    scope: &Scope<'t, '_>,
    depth: u8,
    known: &mut [Known<'t>],
) -> Result<Vec<Part>, AllocError>
    requires { AreRight declared.now.datatypes known.old }
    ensures shapes { IfOk result (λ ss. AreShapes declared.now.datatypes depth (arguments scope.now) numbers.now (map constructor cons.now) (map part ss.items)) }
    ensures right { AreRight declared.now.datatypes known.new }
{
    let mut shapes = Vec::new(alloc);
    for (place, con) in cons.iter().enumerate() {
        let Some(number) = at(numbers, place) else {
            return Err(AllocError);
        };
        let rows = rows_of(alloc, declared, con.args.as_slice(), scope, depth, known)?;
        add_shapes(alloc, *number, rows, &mut shapes)?;
    }
    Ok(shapes)
}

/// Adds a shape of the constructor for each row of arguments.
#[tactic(auto, using(crate::proofs::ListLaws::mapping))]
fn add_shapes(
    alloc: Global,
    number: ConId,
    rows: Vec<Pattern>,
    shapes: &mut Vec<Part>,
) -> Result<(), AllocError>
    ensures { OnOk result (map part shapes.new.items ≡ map part shapes.old.items ++ map (on_top number) (map pattern rows.items)) }
{
    for row in rows {
        let Pattern { terms, vars } = row;
        shapes.push(Part {
            term: Term::new(alloc, Node::Con(number, terms))?,
            vars,
        })?;
    }
    Ok(())
}

/// The rows of shapes of types, one of each, the first type slowest, as patterns.
#[cycle(shapes)]
#[tactic(auto, using(crate::proofs::ListLaws::listing))]
fn rows_of<'t>(
    alloc: Global,
    declared: &'t Declarations,
    ts: &'t [Ty],
    scope: &Scope<'t, '_>,
    depth: u8,
    known: &mut [Known<'t>],
) -> Result<Vec<Pattern>, AllocError>
    requires { AreRight declared.now.datatypes known.old }
    ensures rows { IfOk result (λ rows. map pattern rows.items ≡ map pattern_of (products (of_type declared.now.datatypes depth) (map (instance (arguments scope.now)) (map ty ts.now)))) }
    ensures right { AreRight declared.now.datatypes known.new }
{
    let mut rows = Vec::new(alloc);
    if size_of_arguments(declared, 0, None, ts, scope, depth, known).is_empty() {
        return Ok(rows);
    }
    rows.push(Pattern {
        terms: Items::new(alloc),
        vars: Items::new(alloc),
    })?;
    for t in ts {
        let shapes = shapes_of(alloc, declared, t, scope, depth, known)?;
        rows = extend(alloc, rows, shapes.as_slice())?;
    }
    Ok(rows)
}

/// Each row with each of the shapes behind it.
fn extend(alloc: Global, rows: Vec<Pattern>, parts: &[Part]) -> Result<Vec<Pattern>, AllocError>
    ensures { IfOk result (λ out. (shapes : List Shape) → map part parts.now ≡ map part_of shapes → map pattern out.items ≡ extended (map pattern rows.items) shapes) }
{
    let mut out = Vec::new(alloc);
    let mut made = Vec::new(alloc);
    for row in rows {
        let place = place_behind(alloc, parts, row.vars.len(), &mut made)?;
        let Some(behind) = made.get(place) else {
            return Err(AllocError);
        };
        add_rows(alloc, &row, parts, behind.terms.as_slice(), &mut out)?;
    }
    Ok(out)
}

/// Adds the row with each of the shapes behind it, whose terms are numbered on.
fn add_rows(
    alloc: Global,
    row: &Pattern,
    parts: &[Part],
    terms: &[Term],
    out: &mut Vec<Pattern>,
) -> Result<(), AllocError>
    ensures { OnOk result ((shapes : List Shape) → map part parts.now ≡ map part_of shapes → terms.now ≡ map (term_from (1 + length row.now.vars)) shapes
        → map pattern out.new.items ≡ map pattern out.old.items ++ map (added (pattern row.now)) shapes) }
{
    for (place, part) in parts.iter().enumerate() {
        let Some(term) = at(terms, place) else {
            return Err(AllocError);
        };
        out.push(with_part(alloc, row, term, part.vars.as_slice())?)?;
    }
    Ok(())
}

/// The row with one more term, and its variables.
fn with_part(alloc: Global, row: &Pattern, term: &Term, more: &[Ty]) -> Result<Pattern, AllocError>
    ensures terms { IfOk result (λ p. p.terms ≡ row.now.terms ++ term.now ∷ []) }
    ensures vars { IfOk result (λ p. p.vars ≡ row.now.vars ++ more.now) }
{
    let mut terms = share_all(alloc, row.terms.as_slice())?;
    terms.push(term.share()?)?;
    let mut vars = Items::new(alloc);
    copy_types(alloc, row.vars.as_slice(), &mut vars)?;
    copy_types(alloc, more, &mut vars)?;
    Ok(Pattern { terms, vars })
}

fn copy_types(alloc: Global, from: &[Ty], to: &mut Items<Ty>) -> Result<(), AllocError>
    ensures { OnOk result (to.new ≡ to.old ++ from.now) }
{
    for t in from {
        to.push(copy(alloc, t)?)?;
    }
    Ok(())
}

fn share_all(alloc: Global, row: &[Term]) -> Result<Items<Term>, AllocError>
    ensures { IfOk result (λ copy. copy ≡ row.now) }
{
    let mut copy = Items::new(alloc);
    for t in row {
        copy.push(t.share()?)?;
    }
    Ok(copy)
}
