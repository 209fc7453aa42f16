//! How many patterns there are.
ghost use Rattle.std.specs.Prelude.{◌≡◌, ◌&&◌, nat_eq, IfSome, map, length};
ghost use Rattle.tg_accept.specs.Faults.{is_parameter, are_parameters, is_itself};
ghost use Rattle.tg_declarations.specs.View.{constructor};
ghost use Rattle.tg_model.specs.Theory.{instance};
ghost use Rattle.tg_model.specs.Types.{applied, tys, elements};
ghost use Rattle.tg_split.specs.Known.{AreRight};
ghost use Rattle.tg_split.specs.Patterns.{patterns};
ghost use Rattle.tg_split.specs.Scopes.{arguments, within};
ghost use Rattle.tg_split.specs.Shapes.{of_type, products};
ghost use Rattle.tg_split.specs.declared.scopes.Scope.TheVariants.{Closed};
ghost use Rattle.tg_split.specs.Sizes.{counted, counted_shapes, size_of, size_of_lists, AreMade};
ghost use Rattle.tg_types.specs.Types.{ty, types};

use crate::known::{KNOWN, Known, recall, remember};
use crate::recursion::{are_closed, is_itself, is_recursive, same_type};
use crate::scopes::{Root, Scope, root_of};
use crate::sizes::Size;
use sqlite_items::at;
use tg_declarations::{ConDef, Declarations};
use tg_theory::Theory;
use tg_types::{DataId, Ty};

/// How many patterns the inputs of the theory's program have to a depth, or 4,097 where the limit is passed: where
/// they are more than 4,096, or the terms of one of them have together more than 100,000 nodes. It takes no memory
/// but a part of the stack, in which the sizes of closed types are kept: each is counted once for each depth, where
/// no two whose datatypes have numbers that are equal modulo 128 are met at one depth in turn. What is at types with
/// parameters other than the parameters in order is counted where it stands, but equal arguments side by side once,
/// and a recursive datatype once for each depth, up to that at which it passes the limit.
pub fn count(th: &Theory, depth: u8) -> u64
    ensures { result ≡ counted (patterns th.now depth) }
{
    th.accepted();
    count_of(th.declarations(), th.program().inputs.as_slice(), depth)
}

/// The number of the products of the shapes of closed types.
pub(crate) fn count_of(declared: &Declarations, inputs: &[Ty], depth: u8) -> u64
    ensures { result ≡ counted_shapes (products (of_type declared.now.datatypes depth) (map (instance (arguments Closed)) (map ty inputs.now))) }
{
    let mut known = [Known::nothing(); KNOWN];
    let size = size_of_arguments(declared, 0, None, inputs, &Scope::Closed, depth, &mut known);
    size.count()
}

/// The size of a type's shapes to a depth.
#[cycle(size)]
#[tactic(auto, using(crate::proofs::CountLaws::counting))]
fn size_at<'t>(
    declared: &'t Declarations,
    t: &'t Ty,
    scope: &Scope<'t, '_>,
    depth: u8,
    known: &mut [Known<'t>],
) -> Size
    requires { AreRight declared.now.datatypes known.old }
    ensures size { result ≡ size_of (of_type declared.now.datatypes depth (instance (arguments scope.now) (ty t.now))) }
    ensures right { AreRight declared.now.datatypes known.new }
{
    match root_of(&*t, &*scope) {
        Root::Nat | Root::Bool => Size::Within(1, 1),
        Root::Meta(_) => Size::none(),
        Root::Data(d, ts, scope) => size_of_data(declared, d, ts, scope, depth, known),
    }
}

/// The size of the shapes of a datatype at arguments, which is counted only where it isn't known.
#[cycle(size)]
#[tactic(auto, using(crate::proofs::CountLaws::counting))]
fn size_of_data<'t>(
    declared: &'t Declarations,
    d: DataId,
    ts: &'t [Ty],
    outer: &Scope<'t, '_>,
    depth: u8,
    known: &mut [Known<'t>],
) -> Size
    requires { AreRight declared.now.datatypes known.old }
    ensures size { result ≡ size_of (of_type declared.now.datatypes depth (applied d (tys (within ts.now outer.now)))) }
    ensures right { AreRight declared.now.datatypes known.new }
{
    if !are_closed(ts) {
        return counted_data(declared, d, ts, outer, depth, known);
    }
    if let Some(size) = recall(&*known, d, ts, depth) {
        return size;
    }
    let size = counted_data(declared, d, ts, outer, depth, known);
    remember(known, d, ts, depth, size);
    size
}

/// The size of the shapes of a datatype at arguments. Where the shapes to a depth pass the limit, so do those to
/// each greater depth: a recursive datatype is counted from the least depth on, and no further.
#[cycle(size)]
#[tactic(auto, using(crate::proofs::CountLaws::counting))]
fn counted_data<'t>(
    declared: &'t Declarations,
    d: DataId,
    ts: &'t [Ty],
    outer: &Scope<'t, '_>,
    depth: u8,
    known: &mut [Known<'t>],
) -> Size
    requires { AreRight declared.now.datatypes known.old }
    ensures size { result ≡ size_of (of_type declared.now.datatypes depth (applied d (tys (within ts.now outer.now)))) }
    ensures right { AreRight declared.now.datatypes known.new }
{
    let Some(below) = depth.checked_sub(1) else {
        return Size::none();
    };
    let Some(def) = declared.data_def(d) else {
        return Size::none();
    };
    let own = if is_recursive(d, ts.len(), def.cons.as_slice()) {
        let own = size_of_data(declared, d, ts, outer, below, known);
        if own.is_passed() {
            return Size::Passed;
        }
        Some(own)
    } else {
        None
    };
    let scope = Scope::Within(&*ts, &*outer);
    size_of_constructors(declared, d, own, def.cons.as_slice(), &scope, below, known)
}

/// The size of the shapes that constructors make.
#[cycle(size)]
#[tactic(auto, using(crate::proofs::CountLaws::counting))]
fn size_of_constructors<'t>(
    declared: &'t Declarations,
    d: DataId,
    own: Option<Size>,
    cons: &'t [ConDef],
    scope: &Scope<'t, '_>,
    depth: u8,
    known: &mut [Known<'t>],
) -> Size
    requires own { IfSome own (λ size. size ≡ size_of (of_type declared.now.datatypes depth (applied d (tys (arguments scope.now))))) }
    requires right { AreRight declared.now.datatypes known.old }
    ensures size { AreMade declared.now.datatypes depth (arguments scope.now) (map constructor cons.now) result }
    ensures right { AreRight declared.now.datatypes known.new }
{
    let mut total = Size::none();
    for con in cons {
        let size = size_of_arguments(declared, d, own, con.args.as_slice(), scope, depth, known);
        total = total.either(size.under());
    }
    total
}

/// The size of the products of the shapes of a constructor's arguments. The size `own` is that of the constructor's
/// datatype `d`, where it is known.
#[cycle(size)]
#[tactic(auto, using(crate::proofs::CountLaws::counting))]
pub(crate) fn size_of_arguments<'t>(
    declared: &'t Declarations,
    d: DataId,
    own: Option<Size>,
    ts: &'t [Ty],
    scope: &Scope<'t, '_>,
    depth: u8,
    known: &mut [Known<'t>],
) -> Size
    requires own { IfSome own (λ size. size ≡ size_of (of_type declared.now.datatypes depth (applied d (tys (arguments scope.now))))) }
    requires right { AreRight declared.now.datatypes known.old }
    ensures size { result ≡ size_of_lists (products (of_type declared.now.datatypes depth) (map (instance (arguments scope.now)) (map ty ts.now))) }
    ensures right { AreRight declared.now.datatypes known.new }
{
    let mut size = Size::Within(1, 0);
    let mut part = size;
    let mut left = ts.len();
    while left > 0 {
        left -= 1;
        if left + 1 == ts.len() || !same_type(&ts[left], &ts[left + 1]) {
            part = size_of_argument(declared, d, own, &ts[left], scope, depth, known);
        }
        size = part.both(size);
    }
    size
}

#[cycle(size)]
#[tactic(auto, using(crate::proofs::CountLaws::counting))]
fn size_of_argument<'t>(
    declared: &'t Declarations,
    d: DataId,
    own: Option<Size>,
    t: &'t Ty,
    scope: &Scope<'t, '_>,
    depth: u8,
    known: &mut [Known<'t>],
) -> Size
    requires own { IfSome own (λ size. size ≡ size_of (of_type declared.now.datatypes depth (applied d (tys (arguments scope.now))))) }
    requires right { AreRight declared.now.datatypes known.old }
    ensures size { result ≡ size_of (of_type declared.now.datatypes depth (instance (arguments scope.now) (ty t.now))) }
    ensures right { AreRight declared.now.datatypes known.new }
{
    match own {
        Some(size) if is_itself(d, scope.len(), t) => size,
        _ => size_at(declared, t, scope, depth, known),
    }
}
