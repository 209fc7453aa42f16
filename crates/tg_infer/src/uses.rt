//! What words are.
ghost use Rattle.std.specs.Prelude.{◌≡◌, IfOk, map};
ghost use Rattle.tg_accept.specs.Meaning.{variable_on, datatype_of_first, datatype_of_head, name_of};
ghost use Rattle.tg_accept.specs.Resolved.{bound, free};
ghost use Rattle.tg_infer.specs.Binders.{binders, AreRight};
ghost use Rattle.tg_infer.specs.Scopes.{scope_of};
ghost use Rattle.tg_infer.specs.Uses.{use_on, IsMeaning};
ghost use Rattle.tg_infer.specs.View.{binder};
ghost use Rattle.tg_infer.specs.Words.{AreWordsOf};
ghost use Rattle.tg_typing.specs.View as typing;
ghost use Rattle.tg_typing.specs.View.{resolved, all_resolved, branches};

use crate::binders::Binders;
use crate::scopes::Scope;
use crate::words::Word;
use sqlite_items::Items;
use std::alloc::{AllocError, Global};
use tg_declarations::Declarations;
use tg_grammar::Binder;
use tg_types::{DataId, Name};
use tg_typing::{Branch, Head, Resolved};

/// What a word is.
#[derive(Clone, Copy)]
pub(crate) enum Use {
    /// The variable of a binder.
    Bound(u32),
    /// A free variable.
    Free(u32),
    /// The function that is being declared.
    Own,
    /// What is declared before.
    Declared(Word),
}

/// What a word is. An inner variable hides an outer one.
#[tactic(auto, using(crate::proofs::UseLaws::meanings))]
pub(crate) fn meaning(
    scope: &Scope<'_>,
    outer: &Binders,
    x: &Name,
) -> Result<Option<Use>, AllocError>
    requires words { AreWordsOf scope.now.words.now scope.now.declared.now }
    requires right { AreRight outer.now }
    ensures { IfOk result (λ found. IsMeaning (scope_of scope.now) (binders outer.now) x.now found) }
{
    if let Some(k) = outer.place(x) {
        return match u32::try_from(k) {
            Ok(k) => Ok(Some(Use::Bound(k))),
            Err(_) => Err(AllocError),
        };
    }
    if let Some(n) = scope.variables.number(x) {
        return Ok(Some(Use::Free(n)));
    }
    if scope.is_recursive && scope.is_own(x) {
        return Ok(Some(Use::Own));
    }
    match scope.words.word(x) {
        Some(word) => Ok(Some(Use::Declared(word))),
        None => Ok(None),
    }
}

/// A word on its arguments.
pub(crate) fn used(word: Use, us: Items<Resolved>) -> Resolved
    ensures { resolved result ≡ use_on word (all_resolved us) }
{
    match word {
        Use::Bound(k) => bound_on(k, us),
        Use::Free(n) => free_on(n, us),
        Use::Own => Resolved::Own(us),
        Use::Declared(Word::Con(c)) => Resolved::Con(c, us),
        Use::Declared(Word::Fun(f)) => Resolved::Call(f, us),
        Use::Declared(Word::Program) => Resolved::Put(us),
    }
}

#[tactic(auto, using(crate::proofs::UseLaws::variables))]
fn bound_on(k: u32, us: Items<Resolved>) -> Resolved
    ensures { resolved result ≡ variable_on (bound k) (all_resolved us) }
{
    if us.len() == 0 {
        Resolved::Bound(k)
    } else {
        Resolved::Misused(us)
    }
}

#[tactic(auto, using(crate::proofs::UseLaws::variables))]
fn free_on(n: u32, us: Items<Resolved>) -> Resolved
    ensures { resolved result ≡ variable_on (free n) (all_resolved us) }
{
    if us.len() == 0 {
        Resolved::Free(u64::from(n))
    } else {
        Resolved::Misused(us)
    }
}

/// The datatype that the first branch belongs to, 0 for nat.
pub(crate) fn datatype_of_first(declared: &Declarations, bs: &[Branch]) -> DataId
    ensures { result ≡ datatype_of_first declared.now (branches bs.now) }
{
    match bs.get(0) {
        Some(b) => datatype_of(declared, b.head),
        None => 0,
    }
}

fn datatype_of(declared: &Declarations, head: Head) -> DataId
    ensures { result ≡ datatype_of_head declared.now (typing.head head) }
{
    match head {
        Head::Zero => 0,
        Head::Successor => 0,
        Head::Con(c) => match declared.con_def(c) {
            Some((d, _)) => d,
            None => 0,
        },
    }
}

/// The names of the variables that a branch binds; those of a certificate have none.
pub(crate) fn names_of(alloc: Global, xs: &[Binder]) -> Result<Items<Name>, AllocError>
    ensures { IfOk result (λ names. names ≡ map name_of (map binder xs.now)) }
{
    let mut names = Items::new(alloc);
    for x in xs {
        match x {
            Binder::Named(x) => names.push(x.clone()?)?,
            Binder::Level(_) => names.push(Name::new(alloc, &[])?)?,
        }
    }
    Ok(names)
}
