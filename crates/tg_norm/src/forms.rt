//! What normalising gives.
use tg_schema::SchemaId;
use tg_term::Term;

/// A step of a walk: a schema, a term at whose root it applies, and what it makes of it.
#[derive(Debug, Drop)]
pub struct Step {
    /// The number of the schema.
    pub schema: SchemaId,
    /// The term before the step. Its arguments are normal forms.
    pub before: Term,
    /// The term after the step.
    pub after: Term,
}

/// The normal form of a term, and how it was come to.
#[derive(Debug, Drop)]
pub struct NormalForm {
    /// The normal form.
    pub term: Term,
    /// How many calls the walk made.
    pub cost: u64,
    /// The steps, in the order in which the walk took them.
    pub steps: Vec<Step>,
}
