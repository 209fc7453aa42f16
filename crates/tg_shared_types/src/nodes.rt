//! What a table says of the types of its nodes.
use sqlite_items::Items;
use tg_types::DataId;

/// What a table says of the type of one of its nodes. Nodes are named by their place, from 0.
#[derive(Debug, Drop)]
pub enum Node {
    /// Nothing: any type fits.
    Open,
    /// It is the type of that node, which is an earlier one.
    Link(usize),
    /// It is the naturals.
    Nat,
    /// It is the truth values.
    Bool,
    /// It is a type parameter of a declaration, from 1.
    Param(u32),
    /// It is a datatype at the types of these nodes.
    App(DataId, Items<usize>),
}
