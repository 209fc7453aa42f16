//! Left sides of equations, whose words are looked up.
ghost use Rattle.std.specs.Prelude.{◌≡◌, IfOk, map, option_map};
ghost use Rattle.std.specs.List.{list_any};
ghost use Rattle.tg_accept.specs.Faults.{is_taken};
ghost use Rattle.tg_accept.specs.Equations.{pattern_meant};
ghost use Rattle.tg_accept.specs.Meaning.{each_meant, taken_names};
ghost use Rattle.tg_accept.specs.Raw.{bare};
ghost use Rattle.tg_equations.specs.View.{pattern, patterns};
ghost use Rattle.tg_infer.specs.Scopes.{scope_of};
ghost use Rattle.tg_infer.specs.View.{raw_pattern};
ghost use Rattle.tg_infer.specs.Words.{AreWordsOf};

use crate::scopes::Scope;
use sqlite_items::Items;
use std::alloc::{AllocError, Global};
use tg_equations::Pattern;
use tg_grammar::RawPat;
use tg_types::Name;
use tg_typing::Head;

/// What patterns mean, if each means something.
pub(crate) fn patterns(
    scope: &Scope<'_>,
    ps: &[RawPat],
) -> Result<Option<Items<Pattern>>, AllocError>
    requires { AreWordsOf scope.now.words.now scope.now.declared.now }
    ensures { IfOk result (λ found. option_map patterns found ≡ each_meant (pattern_meant (scope_of scope.now)) (map raw_pattern ps.now)) }
{
    let mut all = Items::new(scope.alloc);
    for p in ps {
        match pattern(scope, p)? {
            Some(p) => all.push(p)?,
            None => return Ok(None),
        }
    }
    Ok(Some(all))
}

/// What a pattern means, or `None` where a name in it is wrong.
#[tactic(auto, using(crate::proofs::PatternLaws::patterns))]
fn pattern(scope: &Scope<'_>, p: &RawPat) -> Result<Option<Pattern>, AllocError>
    requires { AreWordsOf scope.now.words.now scope.now.declared.now }
    ensures { IfOk result (λ found. option_map pattern found ≡ pattern_meant (scope_of scope.now) (raw_pattern p.now)) }
{
    match p {
        RawPat::Word(x) => bare(scope, x),
        RawPat::Zero => Ok(Some(Pattern::Matched(Head::Zero, Items::new(scope.alloc)))),
        RawPat::Con(con, xs) => {
            if some_taken(scope, xs.as_slice()) {
                return Ok(None);
            }
            let Some(head) = scope.head(con) else {
                return Ok(None);
            };
            let names = copies(scope.alloc, xs.as_slice())?;
            Ok(Some(Pattern::Matched(head, names)))
        }
    }
}

/// A bare word is a constructor where it is declared as one, and a variable otherwise, which may have no
/// declared name.
#[tactic(auto, using(crate::proofs::PatternLaws::patterns))]
fn bare(scope: &Scope<'_>, x: &Name) -> Result<Option<Pattern>, AllocError>
    requires { AreWordsOf scope.now.words.now scope.now.declared.now }
    ensures { IfOk result (λ found. option_map pattern found ≡ pattern_meant (scope_of scope.now) (bare x.now)) }
{
    if let Some(c) = scope.words.constructors.number(x) {
        let none = Items::new(scope.alloc);
        return Ok(Some(Pattern::Matched(Head::Con(c), none)));
    }
    if scope.is_taken(x) {
        return Ok(None);
    }
    Ok(Some(Pattern::Variable(x.clone()?)))
}

/// Whether no variable may have one of these names.
fn some_taken(scope: &Scope<'_>, xs: &[Name]) -> bool
    requires { AreWordsOf scope.now.words.now scope.now.declared.now }
    ensures { result ≡ list_any (λ x. is_taken x (taken_names (scope_of scope.now))) xs.now }
{
    for x in xs {
        if scope.is_taken(x) {
            return true;
        }
    }
    false
}

/// The same names.
pub(crate) fn copies(alloc: Global, xs: &[Name]) -> Result<Items<Name>, AllocError>
    ensures { IfOk result (λ names. names ≡ xs.now) }
{
    let mut names = Items::new(alloc);
    for x in xs {
        names.push(x.clone()?)?;
    }
    Ok(names)
}
