//! Literals and clauses.
use sqlite_items::Items;
use tg_term::Term;

/// A boolean term that isn't taken apart, or its negation.
#[derive(Debug, Drop)]
pub struct Literal {
    /// Whether the literal is the term itself, and not its negation.
    pub positive: bool,
    /// The term.
    pub atom: Term,
}

/// A clause: it is true where one of its literals is. The empty clause is false.
#[derive(Debug, Drop)]
pub struct Clause {
    /// The literals, none of them twice.
    pub literals: Items<Literal>,
}
