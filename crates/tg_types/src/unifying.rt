//! Unification: the most general substitution under which two types are one.
ghost use Rattle.std.specs.Prelude.{◌≡◌, length, OnOk, OnErr, IfErr};
ghost use Rattle.tg_types.specs.Refusals.{meeting, EndsIn, Refuses};
ghost use Rattle.tg_types.specs.Substitutions.{Continues};
ghost use Rattle.tg_types.specs.Types.{ty, types};
ghost use Rattle.tg_types.specs.Unifiers.{IsMostGeneral};
ghost use Rattle.tg_types.specs.Walks.{meet, beside, meet_applied, Walk, Walks};

use super::copying::holds;
use super::substitutions::Subst;
use super::types::{DataId, Ty};
use sqlite_items::Items;
use std::alloc::AllocError;
use thiserror::Error;

/// Why two types have no unifier that extends a substitution.
#[derive(Debug, Drop, Error)]
pub enum UnifyErr {
    /// Two types whose roots differ, of which none is an open type.
    #[error("two types differ at their roots")]
    Clash {
        /// The type on the left side.
        left: Ty,
        /// The type on the right side.
        right: Ty,
    },
    /// An open type beside another type that holds it.
    #[error("a type holds the open type that it would stand for")]
    Occurs {
        /// The number of the open type.
        var: u32,
        /// The type that holds it.
        ty: Ty,
    },
    /// Memory ran out.
    #[error("out of memory")]
    Memory,
}

impl From<AllocError> for UnifyErr {
    ghost use Rattle.std.specs.Prelude.{◌≡◌};
    ghost use Rattle.tg_types.specs.declared.unifying.UnifyErr.TheVariants.{Memory};

    ghost from_gives = { λ _ e. e ≡ Memory };

    fn from(_refused: AllocError) -> UnifyErr {
        UnifyErr::Memory
    }
}

/// What two types say at their roots.
enum Meeting<'a> {
    Agree,
    Binds(u32, &'a Ty),
    Loops(u32, &'a Ty),
    Inside(&'a [Ty], &'a [Ty]),
    Differ,
}

/// Makes two types one by agreements on open types, in the most general way (Robinson's unification).
///
/// Both types are walked together from the root, arguments from the left, each side with the old
/// substitution and all agreements made so far put in. An open type beside a type that doesn't hold it
/// is an agreement; of two different open types the left one becomes the right one.
///
/// `Clash` and `Occurs` come exactly where no unifier extends the substitution, and carry the first
/// pair that can't agree. `Memory` comes where memory ran out. After an error `s` is as before.
///
/// The types are trees, so where one open type stands for many copies of a large type the work grows
/// with the tree and not with what could be shared.
#[tactic(auto, using(crate::proofs::Steps::unified, crate::proofs::Steps::refused))]
pub fn unify(s: &mut Subst, a: &Ty, b: &Ty) -> Result<(), UnifyErr>
    ensures ok { OnOk result (IsMostGeneral s.old (ty a.now) (ty b.now) s.new) }
    ensures err { IfErr result (λ e. Refuses e s.old (ty a.now) (ty b.now)) }
    ensures walked { EndsIn (Walk s.old (ty a.now) (ty b.now)) s.new result }
    ensures unchanged { OnErr result (s.new ≡ s.old) }
{
    let count = s.count();
    let result = walk(s, a, b, u64::MAX);
    if result.is_err() {
        s.keep(count);
    }
    result
}

// No type is nested 2^64 deep in memory: where `room` for a deeper one ends, memory has.
#[cycle(walk)]
fn walk(s: &mut Subst, a: &Ty, b: &Ty, room: u64) -> Result<(), UnifyErr>
    ensures walked { EndsIn (Walk s.old (ty a.now) (ty b.now)) s.new result }
    ensures kept { Continues s.old s.new }
{
    if room == 0 {
        return Err(UnifyErr::Memory);
    }
    if let Some((ts, us)) = s.arguments(a, b) {
        return walk_all(s, ts, us, room - 1);
    }
    let left = s.apply(a)?;
    let right = s.apply(b)?;
    match roots(&left, &right) {
        Meeting::Agree => Ok(()),
        Meeting::Binds(var, meaning) => {
            s.agree(var, meaning)?;
            Ok(())
        }
        Meeting::Loops(var, holder) => {
            let ty = s.copy(holder)?;
            Err(UnifyErr::Occurs { var, ty })
        }
        Meeting::Inside(ts, us) => walk_all(s, ts, us, room - 1),
        Meeting::Differ => Err(UnifyErr::Clash { left, right }),
    }
}

#[cycle(walk)]
fn walk_all(s: &mut Subst, ts: &[Ty], us: &[Ty], room: u64) -> Result<(), UnifyErr>
    requires { length ts.now ≡ length us.now }
    ensures walked { EndsIn (Walks s.old (types ts.now) (types us.now)) s.new result }
    ensures kept { Continues s.old s.new }
{
    for i in 0..ts.len() {
        walk(s, &ts[i], &us[i], room)?;
    }
    Ok(())
}

fn roots<'a>(left: &'a Ty, right: &'a Ty) -> Meeting<'a>
    ensures { meeting result ≡ meet (ty left.now) (ty right.now) }
{
    match (left, right) {
        (Ty::Meta(v), Ty::Meta(w)) => {
            if *v == *w {
                Meeting::Agree
            } else {
                Meeting::Binds(*v, right)
            }
        }
        (Ty::Meta(v), _) => beside(*v, right),
        (_, Ty::Meta(w)) => beside(*w, left),
        (Ty::Nat, Ty::Nat) => Meeting::Agree,
        (Ty::Bool, Ty::Bool) => Meeting::Agree,
        (Ty::Param(m), Ty::Param(n)) => {
            if *m == *n {
                Meeting::Agree
            } else {
                Meeting::Differ
            }
        }
        (Ty::App(d, ts), Ty::App(e, us)) => applied(*d, ts, *e, us),
        _ => Meeting::Differ,
    }
}

// An open type beside another type that is no open one.
fn beside<'a>(var: u32, t: &'a Ty) -> Meeting<'a>
    ensures { meeting result ≡ beside var (ty t.now) }
{
    if holds(var, t) {
        Meeting::Loops(var, t)
    } else {
        Meeting::Binds(var, t)
    }
}

#[tactic(auto, using(crate::proofs::Arguments::met_arguments))]
fn applied<'a>(d: DataId, ts: &'a Items<Ty>, e: DataId, us: &'a Items<Ty>) -> Meeting<'a>
    ensures { meeting result ≡ meet_applied d (types ts.now) e (types us.now) }
{
    if d == e && ts.len() == us.len() {
        Meeting::Inside(ts.as_slice(), us.as_slice())
    } else {
        Meeting::Differ
    }
}
