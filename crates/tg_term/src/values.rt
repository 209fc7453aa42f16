use crate::ConId;
use sqlite_items::Items;

/// A value of a type of the language.
#[derive(Debug, Drop)]
pub enum Value {
    /// A natural.
    Nat(u64),
    /// A truth value.
    Bool(bool),
    /// A constructor at its arguments.
    Con(ConId, Items<Value>),
}
