use sqlite_items::Items;
use tg_types::Name;

/// A type as it is written.
#[derive(Drop)]
pub enum RawTy {
    /// A datatype's name and the types that it is applied to.
    Word(Name, Items<RawTy>),
    /// A type variable, its `'` included.
    Var(Name),
    /// `nat`.
    Nat,
    /// `bool`.
    Bool,
}
