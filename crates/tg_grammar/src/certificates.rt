use crate::formulas::RawFormula;
use crate::terms::RawTerm;
use crate::types::RawTy;
use sqlite_items::{Boxed, Items};
use tg_types::Name;

/// A certificate as it is written.
#[derive(Drop)]
pub struct RawCert {
    /// Its lines in their order.
    pub lines: Items<RawLine>,
}

/// A line of a certificate: a rule of the calculus and its arguments. Those that the rule doesn't have
/// are empty.
#[derive(Drop)]
pub struct RawLine {
    /// The number that is written before the rule.
    pub number: u64,
    /// The rule by its place, from 1, among the 26 rules.
    pub rule: u32,
    /// The numbers, which are those of earlier lines, of a variable or a depth, in their order.
    pub nums: Items<u64>,
    /// The types of the context.
    pub vars: Items<RawTy>,
    /// The name of a schema.
    pub word: Option<Name>,
    /// The formula.
    pub formula: Option<Boxed<RawFormula>>,
    /// The terms.
    pub terms: Items<RawTerm>,
}

/// What a rule has for an argument.
#[derive(Clone, Copy)]
pub enum Argument {
    /// A context.
    Context,
    /// A formula.
    Formula,
    /// A term, which is an atom.
    Atom,
    /// Any number of terms, which are atoms.
    Atoms,
    /// A number.
    Number,
    /// Any number of numbers.
    Numbers,
    /// A name.
    Word,
}
