use sqlite_items::Items;
use tg_types::Name;
use tg_typing::{Head, Resolved};

/// A pattern of a left side whose words are looked up.
#[derive(Debug, Drop)]
pub enum Pattern {
    /// A variable.
    Variable(Name),
    /// A constructor with the variables for its arguments.
    Matched(Head, Items<Name>),
}

/// An equation whose words are looked up.
#[derive(Debug, Drop)]
pub struct Equation {
    /// The name with which the left side begins.
    pub head: Name,
    /// The patterns of the left side.
    pub patterns: Items<Pattern>,
    /// The right side. Its free variables are the variables of the left side: first the arguments that are
    /// variables, and then those of constructors.
    pub body: Resolved,
}
