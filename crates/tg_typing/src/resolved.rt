use sqlite_items::{Boxed, Items};
use tg_term::{ConId, FunId, OpId};
use tg_types::{DataId, Name};

/// A term as it is written, each word looked up. Nothing else is asked of it: whether it has a type is what
/// [`count_typings`](crate::count_typings) tells.
#[cycle(resolved)]
#[derive(Debug, Drop)]
pub enum Resolved {
    /// The variable of the binder that is this number of binders further out, from 0.
    Bound(u32),
    /// The free variable of this number, from 1.
    Free(u64),
    /// A natural.
    Lit(u64),
    /// A truth value.
    Truth(bool),
    /// A constructor and its arguments.
    Con(ConId, Items<Resolved>),
    /// A function and its arguments.
    Call(FunId, Items<Resolved>),
    /// The function that is being declared and its arguments.
    Own(Items<Resolved>),
    /// A variable with arguments.
    Misused(Items<Resolved>),
    /// The program under test and its inputs.
    Put(Items<Resolved>),
    /// Condition, `then` and `else`.
    If(Items<Resolved>),
    /// A `case` on a datatype, 0 for the naturals, with its branches as they are written.
    Case(DataId, Boxed<Resolved>, Items<Branch>),
    /// A term, and the body in which it has a name.
    Let(Boxed<Resolved>, Boxed<Resolved>),
    /// An operator and its operands.
    Op(OpId, Items<Resolved>),
}

/// A branch of a `case`.
#[cycle(resolved)]
#[derive(Debug, Drop)]
pub struct Branch {
    /// The constructor.
    pub head: Head,
    /// The names of the variables that stand for its arguments.
    pub names: Items<Name>,
    /// The term.
    pub body: Resolved,
}

/// What a branch is for.
#[derive(Clone, Copy, Debug)]
pub enum Head {
    /// `0`.
    Zero,
    /// `Suc`.
    Successor,
    /// A constructor of a datatype.
    Con(ConId),
}
