use sqlite_items::Items;
use tg_types::Name;

/// A term as it is written.
#[cycle(term)]
#[derive(Drop)]
pub enum RawTerm {
    /// A number.
    Num(u64),
    /// `True` or `False`.
    Truth(bool),
    /// A name and its arguments: a variable, a constructor or a function.
    Use(Name, Items<RawTerm>),
    /// `?n` of a certificate.
    Free(u64),
    /// `!n` of a certificate.
    Bound(u64),
    /// An operator, by the kind of its token ([`kinds`](crate::kinds)), and its operands.
    Op(u32, Items<RawTerm>),
    /// Condition, `then` and `else`.
    If(Items<RawTerm>),
    /// The variable; the bound term and the body.
    Let(Binder, Items<RawTerm>),
    /// The one term that is looked at, and the branches as they are written.
    Case(Items<RawTerm>, Items<RawBranch>),
}

/// A variable where it is bound.
#[derive(Drop)]
pub enum Binder {
    /// A name.
    Named(Name),
    /// `!n` of a certificate, the number of the binder from the outside.
    Level(u64),
}

/// A branch of a `case`.
#[cycle(term)]
#[derive(Drop)]
pub struct RawBranch {
    /// The constructor.
    pub con: RawCon,
    /// The variables that stand for its arguments.
    pub vars: Items<Binder>,
    /// The term.
    pub body: RawTerm,
}

/// A constructor in a pattern or a branch.
#[derive(Drop)]
pub enum RawCon {
    /// `0`.
    Zero,
    /// `Suc`.
    Suc,
    /// A constructor of a datatype.
    Named(Name),
}
