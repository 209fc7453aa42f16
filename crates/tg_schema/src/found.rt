//! What a row makes of a term, in parts of the term: what is found takes no memory.

use tg_term::Term;

/// A term: one that stands in the term at hand, or a natural.
#[derive(Clone, Copy, Debug)]
pub(crate) enum Piece<'a> {
    /// A term that stands there.
    Part(&'a Term),
    /// A natural.
    Number(u64),
}

/// The terms that stand for the variables of a branch.
#[derive(Clone, Copy, Debug)]
pub(crate) enum Arguments<'a> {
    /// These.
    These(&'a [Term]),
    /// One alone.
    Only(Piece<'a>),
}

/// What a row makes of a term.
#[derive(Clone, Copy, Debug)]
pub(crate) enum Found<'a> {
    /// A term that stands there, or a natural.
    Whole(Piece<'a>),
    /// A truth value.
    Truth(bool),
    /// The negation of a term.
    Negation(&'a Term),
    /// An equation between two terms.
    Equation(Piece<'a>, Piece<'a>),
    /// The equations between the terms of two lists, joined. It is True where there are none.
    Equations(&'a [Term], &'a [Term]),
    /// A term with arguments for its innermost loose bound variables.
    Instantiated(Arguments<'a>, &'a Term),
    /// A term with arguments for its free variables.
    Substituted(&'a [Term], &'a Term),
    /// A term with arguments for its free variables, in three lists.
    Unfolded(&'a [Term], &'a [Term], Arguments<'a>, &'a Term),
}

/// What becomes of one side of an operator.
#[derive(Clone, Copy, Debug)]
pub(crate) enum Other {
    /// The side itself.
    Itself,
    /// A truth value, whatever the side is.
    Always(bool),
    /// Its negation.
    Denied,
}

/// What is made of two literals.
#[derive(Clone, Copy, Debug)]
pub(crate) enum Calculation {
    /// False where they differ.
    Different,
    /// Whether the first is less.
    Less,
    /// Whether the first is less or equal.
    LessEqual,
    /// The sum, below 2^64.
    Sum,
    /// The difference, 0 where the first isn't greater.
    Difference,
    /// The product, below 2^64.
    Product,
    /// The quotient, 0 where the second is 0.
    Quotient,
    /// The remainder, the first where the second is 0.
    Remainder,
}

/// How the constructor at the root of a term is written.
#[derive(Clone, Copy, Debug)]
pub(crate) enum Writing {
    /// A constructor of a datatype at its arguments.
    Constructor,
    /// `Suc` at a term.
    Successor,
    /// A natural, which stands for 0, or for `Suc` at the natural before it.
    Literal,
}

/// A term that is taken apart.
#[derive(Clone, Copy, Debug)]
pub(crate) struct Opened<'a> {
    /// The place of its constructor in the datatype, from 0.
    pub place: usize,
    /// The constructor's arguments.
    pub arguments: Arguments<'a>,
}
