//! What the lines of a certificate say.
ghost use Rattle.std.specs.Prelude.{◌≡◌, IfOk, IfSome, map, option_map};
ghost use Rattle.tg_accept.specs.Standing.{declared_in, IsAnswer, IsFormulaOf};
ghost use Rattle.tg_calculus.specs.Book.{sequents};
ghost use Rattle.tg_calculus.specs.Step.{IsContext};
ghost use Rattle.tg_cert.specs.Arguments.{numbers_apart};
ghost use Rattle.tg_cert.specs.Code.{arguments};
ghost use Rattle.tg_cert.specs.Lines.{AreTermsOf, AreTypesOf, IsRowOf, Optional, Says, Stand, context_at};
ghost use Rattle.tg_infer.specs.Words.{AreWordsOf};
ghost use Rattle.tg_kernel.specs.Rules.{as_line};
ghost use Rattle.tg_standing.specs.Formulas.{raw_formula};
ghost use Rattle.tg_types.specs.Types.{ty};

use crate::arguments::{Arguments, numbers_apart, rule_of};
use sqlite_items::{Boxed, Items};
use std::alloc::{AllocError, Global};
use tg_grammar::{RawFormula, RawLine, RawTerm, RawTy};
use tg_infer::Words;
use tg_kernel::{Book, Context, RuleLine, Thm};
use tg_schema::SchemaId;
use tg_standing::{formula_of, term_of, type_of};
use tg_tables::schemas;
use tg_term::{Formula, Term};
use tg_theory::Theory;
use tg_types::{Name, Ty};

/// The line that a text says behind the lines of a book, or `None` exactly where it says none.
#[tactic(auto, using(crate::proofs::LineLaws::saying))]
pub(crate) fn line_of(
    alloc: Global,
    words: &Words,
    book: &Book<'_>,
    raw: &RawLine,
) -> Result<Option<RuleLine>, AllocError>
    requires { AreWordsOf words.now (declared_in book.now.theory) }
    ensures { IfOk result (λ o. IsAnswer (Says book.now.theory (sequents book.now.entries) raw.now) (option_map as_line o)) }
{
    let Some(types) = types_of(alloc, words, book.theory(), raw.vars.as_slice())? else {
        return Ok(None);
    };
    let types = Context::new(alloc, types)?;
    let (number, premises) = numbers_apart(raw.rule, raw.nums.as_slice());
    let Some(context) = context_at(book, premises, &types)? else {
        return Ok(None);
    };
    let Some(given) = arguments_of(alloc, words, book.theory(), &context, types, number, raw)?
    else {
        return Ok(None);
    };
    let Some(rule) = rule_of(raw.rule, given)? else {
        return Ok(None);
    };
    let premises = Items::from_slice(alloc, premises)?;
    Ok(Some(RuleLine { rule, premises }))
}

/// The closed types that texts stand for.
#[tactic(auto, using(crate::proofs::PairLaws::typing))]
fn types_of(
    alloc: Global,
    words: &Words,
    th: &Theory,
    raw: &[RawTy],
) -> Result<Option<Items<Ty>>, AllocError>
    requires { AreWordsOf words.now (declared_in th.now) }
    ensures { IfOk result (λ o. IsAnswer (AreTypesOf th.now raw.now) (option_map (map ty) o)) }
{
    let mut types = Items::new(alloc);
    for r in raw {
        let Some(t) = type_of(alloc, words, th, r)? else {
            return Ok(None);
        };
        types.push(t)?;
    }
    Ok(Some(types))
}

/// The context of the first premise, or the types where there is no premise. `None` where there is no line of its number.
#[tactic(auto, using(crate::proofs::LineLaws::placing))]
fn context_at(
    book: &Book<'_>,
    premises: &[u64],
    types: &Context,
) -> Result<Option<Context>, AllocError>
    requires { IsContext book.now.theory types.now }
    ensures is { IfOk result (λ o. o ≡ context_at (sequents book.now.entries) premises.now types.now) }
    ensures closed { IfOk result (λ o. IfSome o (IsContext book.now.theory)) }
{
    let Some(n) = premises.first() else {
        return Ok(Some(types.share()?));
    };
    if *n == 0 || *n > book.len() {
        return Ok(None);
    }
    let context = book.sequent(Thm(*n)).vars.share()?;
    Ok(Some(context))
}

/// The arguments that a line has, read in a context, where the types and the number are read already.
#[tactic(auto, using(crate::proofs::LineLaws::standing))]
fn arguments_of(
    alloc: Global,
    words: &Words,
    th: &Theory,
    context: &Context,
    types: Context,
    number: u64,
    raw: &RawLine,
) -> Result<Option<Arguments>, AllocError>
    requires words { AreWordsOf words.now (declared_in th.now) }
    requires closed { IsContext th.now context.now }
    requires types { AreTypesOf th.now raw.now.vars types }
    requires number { number ≡ (numbers_apart raw.now.rule raw.now.nums).0 }
    ensures { IfOk result (λ o. IsAnswer (Stand th.now context.now raw.now) (option_map arguments o)) }
{
    let Some(row) = row_of(&raw.word) else {
        return Ok(None);
    };
    let Some(formula) = formula_in(alloc, words, th, context, &raw.formula)? else {
        return Ok(None);
    };
    let Some(terms) = terms_in(alloc, words, th, context, raw.terms.as_slice())? else {
        return Ok(None);
    };
    Ok(Some(Arguments {
        types,
        row,
        formula,
        terms,
        number,
    }))
}

/// The number of the row that is named, if one is named; `None` where the name is no row's.
#[tactic(auto, using(crate::proofs::RowLaws::naming))]
fn row_of(word: &Option<Name>) -> Option<Option<SchemaId>>
    ensures { IsAnswer (Optional IsRowOf word.now) result }
{
    let Some(name) = word else {
        return Some(None);
    };
    let rows = schemas();
    let place = rows.find(name.bytes())?;
    Some(Some(rows.get(place).code))
}

/// The formula that a text stands for in a context, if there is a text; `None` where it stands for none.
#[tactic(auto, using(crate::proofs::PairLaws::in_context))]
fn formula_in(
    alloc: Global,
    words: &Words,
    th: &Theory,
    context: &Context,
    raw: &Option<Boxed<RawFormula>>,
) -> Result<Option<Option<Formula>>, AllocError>
    requires words { AreWordsOf words.now (declared_in th.now) }
    requires closed { IsContext th.now context.now }
    ensures { IfOk result (IsAnswer (Optional (λ f. IsFormulaOf th.now context.now (raw_formula f)) raw.now)) }
{
    let Some(text) = raw else {
        return Ok(Some(None));
    };
    match formula_of(alloc, words, th, context.types(), text.get())? {
        Some(f) => Ok(Some(Some(f))),
        None => Ok(None),
    }
}

/// The terms that texts stand for in a context.
#[tactic(auto, using(crate::proofs::PairLaws::terms))]
fn terms_in(
    alloc: Global,
    words: &Words,
    th: &Theory,
    context: &Context,
    raw: &[RawTerm],
) -> Result<Option<Items<Term>>, AllocError>
    requires words { AreWordsOf words.now (declared_in th.now) }
    requires closed { IsContext th.now context.now }
    ensures { IfOk result (λ o. IsAnswer (AreTermsOf th.now context.now raw.now) o) }
{
    let mut terms = Items::new(alloc);
    for r in raw {
        let Some(t) = term_of(alloc, words, th, context.types(), r)? else {
            return Ok(None);
        };
        terms.push(t)?;
    }
    Ok(Some(terms))
}
