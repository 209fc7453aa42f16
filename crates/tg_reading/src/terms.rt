//! Terms.
ghost use Rattle.std.specs.Prelude.{◌≡◌, ◌<◌, ◌≤◌, length, OnOk};
ghost use Rattle.tg_rules.specs.Reader.{mapped};
ghost use Rattle.tg_rules.specs.Repetition.{fold_from};
ghost use Rattle.tg_grammar.specs.Making.{chained};
ghost use Rattle.tg_grammar.specs.Page.{conditional, binding, cases, branches, arguments, enclosed, last_atom};
ghost use Rattle.tg_grammar.specs.Parts.{Term, Branch, Implication, Disjunction, Conjunction, Negation, Comparison, Sum, MoreSummands, Product, MoreFactors, Application, Atom, Atoms, PlainAtom};
ghost use Rattle.tg_grammar.specs.Reading.{reads};
ghost use Rattle.tg_reading.specs.Answers.{Adds, Gives, by_rule};
ghost use Rattle.tg_reading.specs.Modes.{mode_view};
ghost use Rattle.tg_reading.specs.Pieces.{term_added};

use crate::binders::{branch_head, numbered_variable, variable};
use crate::lists::{Growing, one, two, with_room};
use crate::modes::{Mode, is_atom_next, is_plain_atom_next};
use crate::operators::{comparison_operator, product_operator, sum_operator};
use crate::reader::{Reader, Stop};
use sqlite_items::Items;
use std::alloc::Global;
use tg_grammar::{RawBranch, RawTerm, kinds, operators};

/// A term, or why none is read.
type ReadTerm = Result<RawTerm, Stop>;

/// A conditional, a binding, a case distinction or an implication.
#[cycle(terms)]
#[tactic(auto, using(crate::proofs::TermRules::term_is))]
pub fn term(alloc: Global, mode: Mode, reader: &mut Reader) -> ReadTerm
    ensures exact { Gives result reader.new (reads (Term (mode_view mode)) reader.old) }
    ensures less { OnOk result (length reader.new < length reader.old) }
{
    if reader.is_next(&[kinds::IF_WORD]) {
        return conditional(alloc, mode, reader);
    }
    if reader.is_next(&[kinds::LET_WORD]) {
        return binding(alloc, mode, reader);
    }
    if reader.is_next(&[kinds::CASE_WORD]) {
        return cases(alloc, mode, reader);
    }
    implication(alloc, mode, reader)
}

/// `if` condition `then` term `else` term.
#[cycle(terms)]
#[tactic(auto, using(crate::proofs::TermLists::conditional_by))]
fn conditional(alloc: Global, mode: Mode, reader: &mut Reader) -> ReadTerm
    ensures exact { Gives result reader.new (by_rule (conditional (mode_view mode)) reader.old) }
    ensures less { OnOk result (length reader.new < length reader.old) }
{
    let mut parts = with_room(alloc, 3)?;
    add_term(alloc, mode, reader, kinds::IF_WORD, &mut parts)?;
    add_term(alloc, mode, reader, kinds::THEN_WORD, &mut parts)?;
    add_term(alloc, mode, reader, kinds::ELSE_WORD, &mut parts)?;
    Ok(RawTerm::If(parts))
}

/// `let` variable `=` term `in` term.
#[cycle(terms)]
#[tactic(auto, using(crate::proofs::TermLists::binding_by))]
fn binding(alloc: Global, mode: Mode, reader: &mut Reader) -> ReadTerm
    ensures exact { Gives result reader.new (by_rule (binding (mode_view mode)) reader.old) }
    ensures less { OnOk result (length reader.new < length reader.old) }
{
    reader.take(kinds::LET_WORD)?;
    let binder = variable(alloc, mode, reader)?;
    let mut parts = with_room(alloc, 2)?;
    add_term(alloc, mode, reader, kinds::EQUAL, &mut parts)?;
    add_term(alloc, mode, reader, kinds::IN_WORD, &mut parts)?;
    Ok(RawTerm::Let(binder, parts))
}

/// `case` term `of` `{` branches, with commas between them `}`.
#[cycle(terms)]
#[tactic(auto, using(crate::proofs::TermLists::cases_by))]
fn cases(alloc: Global, mode: Mode, reader: &mut Reader) -> ReadTerm
    ensures exact { Gives result reader.new (by_rule (cases (mode_view mode)) reader.old) }
    ensures less { OnOk result (length reader.new < length reader.old) }
{
    let mut subject = with_room(alloc, 1)?;
    add_term(alloc, mode, reader, kinds::CASE_WORD, &mut subject)?;
    reader.take(kinds::OF_WORD)?;
    reader.take(kinds::OPEN_BRACE)?;
    let branches = branches(alloc, mode, reader)?;
    reader.take(kinds::CLOSE_BRACE)?;
    Ok(RawTerm::Case(subject, branches))
}

/// A token and a term, which is added to the list.
#[cycle(terms)]
#[tactic(auto, unfolding(crate::specs::Pieces::term_added))]
fn add_term(
    alloc: Global,
    mode: Mode,
    reader: &mut Reader,
    token: u32,
    terms: &mut Items<RawTerm>,
) -> Result<(), Stop>
    ensures exact { Adds result terms.new reader.new (term_added (mode_view mode) token terms.old reader.old) }
    ensures less { OnOk result (length reader.new < length reader.old) }
{
    reader.take(token)?;
    let term = term(alloc, mode, reader)?;
    terms.push(term)?;
    Ok(())
}

/// A constructor and its variables `=>` term.
#[cycle(terms)]
#[tactic(auto, using(crate::proofs::TermRules::branch_is))]
fn branch(alloc: Global, mode: Mode, reader: &mut Reader) -> Result<RawBranch, Stop>
    ensures exact { Gives result reader.new (reads (Branch (mode_view mode)) reader.old) }
    ensures less { OnOk result (length reader.new < length reader.old) }
{
    let (con, vars) = branch_head(alloc, mode, reader)?;
    reader.take(kinds::DOUBLE_ARROW)?;
    let body = term(alloc, mode, reader)?;
    Ok(RawBranch { con, vars, body })
}

/// Branches with commas between them.
#[cycle(terms)]
#[tactic(auto, using(crate::proofs::TermRepetitions::branches_by))]
fn branches(alloc: Global, mode: Mode, reader: &mut Reader) -> Result<Items<RawBranch>, Stop>
    ensures exact { Gives result reader.new (by_rule (branches (mode_view mode)) reader.old) }
    ensures less { OnOk result (length reader.new < length reader.old) }
{
    let mut branches = Growing::new(alloc);
    loop {
        branches.push(branch(alloc, mode, reader)?)?;
        if !reader.skips(kinds::COMMA) {
            return Ok(branches.done());
        }
    }
}

/// A disjunction, or a disjunction `-->` implication.
#[cycle(terms)]
#[tactic(auto, using(crate::proofs::TermRules::implication_is))]
fn implication(alloc: Global, mode: Mode, reader: &mut Reader) -> ReadTerm
    ensures exact { Gives result reader.new (reads (Implication (mode_view mode)) reader.old) }
    ensures less { OnOk result (length reader.new < length reader.old) }
{
    let left = disjunction(alloc, mode, reader)?;
    if !reader.skips(kinds::ARROW) {
        return Ok(left);
    }
    let right = implication(alloc, mode, reader)?;
    Ok(RawTerm::Op(operators::IMPLIES, two(alloc, left, right)?))
}

/// A conjunction, or a conjunction `|` disjunction.
#[cycle(terms)]
#[tactic(auto, using(crate::proofs::TermRules::disjunction_is))]
#[inline(always)]
fn disjunction(alloc: Global, mode: Mode, reader: &mut Reader) -> ReadTerm
    ensures exact { Gives result reader.new (reads (Disjunction (mode_view mode)) reader.old) }
    ensures less { OnOk result (length reader.new < length reader.old) }
{
    let left = conjunction(alloc, mode, reader)?;
    if !reader.skips(kinds::OR) {
        return Ok(left);
    }
    let right = disjunction(alloc, mode, reader)?;
    Ok(RawTerm::Op(operators::OR, two(alloc, left, right)?))
}

/// A negation, or a negation `&` conjunction.
#[cycle(terms)]
#[tactic(auto, using(crate::proofs::TermRules::conjunction_is))]
#[inline(always)]
fn conjunction(alloc: Global, mode: Mode, reader: &mut Reader) -> ReadTerm
    ensures exact { Gives result reader.new (reads (Conjunction (mode_view mode)) reader.old) }
    ensures less { OnOk result (length reader.new < length reader.old) }
{
    let left = negation(alloc, mode, reader)?;
    if !reader.skips(kinds::AND) {
        return Ok(left);
    }
    let right = conjunction(alloc, mode, reader)?;
    Ok(RawTerm::Op(operators::AND, two(alloc, left, right)?))
}

/// `~` negation, or a comparison.
#[cycle(terms)]
#[tactic(auto, using(crate::proofs::TermRules::negation_is))]
#[inline(always)]
fn negation(alloc: Global, mode: Mode, reader: &mut Reader) -> ReadTerm
    ensures exact { Gives result reader.new (reads (Negation (mode_view mode)) reader.old) }
    ensures less { OnOk result (length reader.new < length reader.old) }
{
    if reader.skips(kinds::NOT) {
        let operand = negation(alloc, mode, reader)?;
        return Ok(RawTerm::Op(operators::NOT, one(alloc, operand)?));
    }
    comparison(alloc, mode, reader)
}

/// A sum, or a sum, `=`, `<` or `<=`, and a sum.
#[cycle(terms)]
#[tactic(auto, using(crate::proofs::TermRules::comparison_is))]
#[inline(always)]
fn comparison(alloc: Global, mode: Mode, reader: &mut Reader) -> ReadTerm
    ensures exact { Gives result reader.new (reads (Comparison (mode_view mode)) reader.old) }
    ensures less { OnOk result (length reader.new < length reader.old) }
{
    let left = sum(alloc, mode, reader)?;
    match comparison_operator(reader) {
        Some(operator) => {
            let right = sum(alloc, mode, reader)?;
            Ok(RawTerm::Op(operator, two(alloc, left, right)?))
        }
        None => Ok(left),
    }
}

/// Products with `+` or `-` between them, grouped to the left.
#[cycle(terms)]
#[tactic(auto, using(crate::proofs::TermRepetitions::sum_by))]
#[inline(always)]
fn sum(alloc: Global, mode: Mode, reader: &mut Reader) -> ReadTerm
    ensures exact { Gives result reader.new (reads (Sum (mode_view mode)) reader.old) }
    ensures less { OnOk result (length reader.new < length reader.old) }
{
    let first = product(alloc, mode, reader)?;
    more_summands(alloc, mode, reader, first)
}

/// The further summands of a sum that begins with `first`.
#[cycle(terms)]
#[tactic(auto, using(crate::proofs::TermRepetitions::more_summands_by))]
fn more_summands(alloc: Global, mode: Mode, reader: &mut Reader, first: RawTerm) -> ReadTerm
    ensures exact { Gives result reader.new (fold_from chained first (reads (MoreSummands (mode_view mode)) reader.old)) }
    ensures less { OnOk result (length reader.new ≤ length reader.old) }
{
    let mut sum = first;
    while let Some(operator) = sum_operator(reader) {
        sum = summand(alloc, mode, reader, operator, sum)?;
    }
    Ok(sum)
}

/// A product, which is joined to a sum by an operator.
#[cycle(terms)]
fn summand(alloc: Global, mode: Mode, reader: &mut Reader, operator: u32, left: RawTerm) -> ReadTerm
    ensures exact { Gives result reader.new (mapped (λ right. chained left (operator, right)) (reads (Product (mode_view mode)) reader.old)) }
    ensures less { OnOk result (length reader.new < length reader.old) }
{
    let right = product(alloc, mode, reader)?;
    Ok(RawTerm::Op(operator, two(alloc, left, right)?))
}

/// Applications with `*`, `div` or `mod` between them, grouped to the left.
#[cycle(terms)]
#[tactic(auto, using(crate::proofs::TermRepetitions::product_by))]
#[inline(always)]
fn product(alloc: Global, mode: Mode, reader: &mut Reader) -> ReadTerm
    ensures exact { Gives result reader.new (reads (Product (mode_view mode)) reader.old) }
    ensures less { OnOk result (length reader.new < length reader.old) }
{
    let first = application(alloc, mode, reader)?;
    more_factors(alloc, mode, reader, first)
}

/// The further factors of a product that begins with `first`.
#[cycle(terms)]
#[tactic(auto, using(crate::proofs::TermRepetitions::more_factors_by))]
fn more_factors(alloc: Global, mode: Mode, reader: &mut Reader, first: RawTerm) -> ReadTerm
    ensures exact { Gives result reader.new (fold_from chained first (reads (MoreFactors (mode_view mode)) reader.old)) }
    ensures less { OnOk result (length reader.new ≤ length reader.old) }
{
    let mut product = first;
    while let Some(operator) = product_operator(reader) {
        product = factor(alloc, mode, reader, operator, product)?;
    }
    Ok(product)
}

/// An application, which is joined to a product by an operator.
#[cycle(terms)]
fn factor(alloc: Global, mode: Mode, reader: &mut Reader, operator: u32, left: RawTerm) -> ReadTerm
    ensures exact { Gives result reader.new (mapped (λ right. chained left (operator, right)) (reads (Application (mode_view mode)) reader.old)) }
    ensures less { OnOk result (length reader.new < length reader.old) }
{
    let right = application(alloc, mode, reader)?;
    Ok(RawTerm::Op(operator, two(alloc, left, right)?))
}

/// `Suc` or a word and the atoms that it is applied to, or an atom that isn't a word.
#[cycle(terms)]
#[tactic(auto, using(crate::proofs::TermRules::application_is))]
fn application(alloc: Global, mode: Mode, reader: &mut Reader) -> ReadTerm
    ensures exact { Gives result reader.new (reads (Application (mode_view mode)) reader.old) }
    ensures less { OnOk result (length reader.new < length reader.old) }
{
    if reader.skips(kinds::SUC_WORD) {
        return Ok(RawTerm::Op(operators::SUC, arguments(alloc, mode, reader)?));
    }
    if is_plain_atom_next(mode, reader) {
        return plain_atom(alloc, mode, reader);
    }
    let name = reader.word(alloc)?;
    Ok(RawTerm::Use(name, atoms(alloc, mode, reader)?))
}

/// A word, or another atom.
#[cycle(terms)]
#[tactic(auto, using(crate::proofs::TermRules::atom_is))]
pub fn atom(alloc: Global, mode: Mode, reader: &mut Reader) -> ReadTerm
    ensures exact { Gives result reader.new (reads (Atom (mode_view mode)) reader.old) }
    ensures less { OnOk result (length reader.new < length reader.old) }
{
    if is_plain_atom_next(mode, reader) {
        return plain_atom(alloc, mode, reader);
    }
    Ok(RawTerm::Use(reader.word(alloc)?, Items::new(alloc)))
}

/// Atoms, one after another.
#[cycle(terms)]
#[tactic(auto, using(crate::proofs::TermRepetitions::atoms_by))]
pub fn atoms(alloc: Global, mode: Mode, reader: &mut Reader) -> Result<Items<RawTerm>, Stop>
    ensures exact { Gives result reader.new (reads (Atoms (mode_view mode)) reader.old) }
    ensures less { OnOk result (length reader.new ≤ length reader.old) }
{
    if !is_atom_next(mode, reader) {
        return Ok(Items::new(alloc));
    }
    arguments(alloc, mode, reader)
}

/// One atom or more.
#[cycle(terms)]
#[tactic(auto, using(crate::proofs::TermRepetitions::arguments_by))]
pub(crate) fn arguments(
    alloc: Global,
    mode: Mode,
    reader: &mut Reader,
) -> Result<Items<RawTerm>, Stop>
    ensures exact { Gives result reader.new (by_rule (arguments (mode_view mode)) reader.old) }
    ensures less { OnOk result (length reader.new < length reader.old) }
{
    let mut arguments = Growing::new(alloc);
    loop {
        arguments.push(atom(alloc, mode, reader)?)?;
        if !is_atom_next(mode, reader) {
            return Ok(arguments.done());
        }
    }
}

/// A number, `True`, `False`, a term in brackets, or in a certificate a numbered variable.
#[cycle(terms)]
#[tactic(auto, using(crate::proofs::TermRules::plain_atom_is))]
fn plain_atom(alloc: Global, mode: Mode, reader: &mut Reader) -> ReadTerm
    ensures exact { Gives result reader.new (reads (PlainAtom (mode_view mode)) reader.old) }
    ensures less { OnOk result (length reader.new < length reader.old) }
{
    if let Some(number) = reader.next_number() {
        return Ok(RawTerm::Num(number));
    }
    if reader.skips(kinds::TRUE_WORD) {
        return Ok(RawTerm::Truth(true));
    }
    if reader.skips(kinds::FALSE_WORD) {
        return Ok(RawTerm::Truth(false));
    }
    last_atom(alloc, mode, reader)
}

/// A term in brackets, or in a certificate `?` or `!` and a number.
#[cycle(terms)]
fn last_atom(alloc: Global, mode: Mode, reader: &mut Reader) -> ReadTerm
    ensures exact { Gives result reader.new (by_rule (last_atom (mode_view mode)) reader.old) }
    ensures less { OnOk result (length reader.new < length reader.old) }
{
    match mode {
        Mode::Theory => enclosed(alloc, mode, reader),
        Mode::Certificate => {
            if reader.is_next(&[kinds::OPEN_PAREN]) {
                return enclosed(alloc, mode, reader);
            }
            numbered_variable(reader)
        }
    }
}

/// `(` term `)`.
#[cycle(terms)]
fn enclosed(alloc: Global, mode: Mode, reader: &mut Reader) -> ReadTerm
    ensures exact { Gives result reader.new (by_rule (enclosed (mode_view mode)) reader.old) }
    ensures less { OnOk result (length reader.new < length reader.old) }
{
    reader.take(kinds::OPEN_PAREN)?;
    let inner = term(alloc, mode, reader)?;
    reader.take(kinds::CLOSE_PAREN)?;
    Ok(inner)
}
