//! Equations whose words are looked up.
ghost use Rattle.std.specs.Prelude.{◌≡◌, IfOk, map, option_map};
ghost use Rattle.tg_accept.specs.Equations.{equation_meant};
ghost use Rattle.tg_accept.specs.Meaning.{each_meant};
ghost use Rattle.tg_equations.specs.View.{equation, equations};
ghost use Rattle.tg_infer.specs.Scopes.{scope_of};
ghost use Rattle.tg_infer.specs.View.{raw_equation};
ghost use Rattle.tg_infer.specs.Words.{AreWordsOf};

use crate::binders::Binders;
use crate::lefts::left_variables;
use crate::patterns::patterns;
use crate::resolving::resolve;
use crate::scopes::Scope;
use sqlite_items::Items;
use std::alloc::AllocError;
use tg_equations::Equation;
use tg_grammar::RawEq;

/// What equations mean, if each means something.
pub(crate) fn equations(
    scope: &Scope<'_>,
    es: &[RawEq],
) -> Result<Option<Items<Equation>>, AllocError>
    requires { AreWordsOf scope.now.words.now scope.now.declared.now }
    ensures { IfOk result (λ found. option_map equations found ≡ each_meant (equation_meant (scope_of scope.now)) (map raw_equation es.now)) }
{
    let mut all = Items::new(scope.alloc);
    for e in es {
        match equation(scope, e)? {
            Some(e) => all.push(e)?,
            None => return Ok(None),
        }
    }
    Ok(Some(all))
}

/// What an equation means, or `None` where a name in it is wrong.
#[tactic(auto, using(crate::proofs::EquationLaws::equations))]
fn equation(scope: &Scope<'_>, e: &RawEq) -> Result<Option<Equation>, AllocError>
    requires { AreWordsOf scope.now.words.now scope.now.declared.now }
    ensures { IfOk result (λ found. option_map equation found ≡ equation_meant (scope_of scope.now) (raw_equation e.now)) }
{
    let Some(patterns) = patterns(scope, e.pats.as_slice())? else {
        return Ok(None);
    };
    let variables = left_variables(scope.alloc, patterns.as_slice())?;
    let inner = Scope {
        alloc: scope.alloc,
        declared: scope.declared,
        words: scope.words,
        own: scope.own,
        is_recursive: scope.is_recursive,
        variables: &variables,
        in_certificate: scope.in_certificate,
    };
    let mut outer = Binders::new(scope.alloc);
    let Some(body) = resolve(&inner, &mut outer, &e.body)? else {
        return Ok(None);
    };
    let head = e.head.clone()?;
    Ok(Some(Equation {
        head,
        patterns,
        body,
    }))
}
