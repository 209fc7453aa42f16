use sqlite_items::Items;

/// The number of a datatype, from 1, in the order of declaration.
pub type DataId = u32;

/// A type of the language.
#[derive(Debug, Drop)]
pub enum Ty {
    /// The naturals.
    Nat,
    /// The truth values.
    Bool,
    /// A type parameter of a declaration, from 1.
    Param(u32),
    /// A type that is still to be found.
    Meta(u32),
    /// A datatype at its arguments, one for each of its parameters.
    App(DataId, Items<Ty>),
}
