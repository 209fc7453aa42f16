use sqlite_items::Items;
use tg_term::Term;
use tg_types::{Name, Ty};

/// A datatype.
#[derive(Debug, Drop)]
pub struct DataDef {
    /// The name of the type.
    pub name: Name,
    /// How many type parameters it has.
    pub params: u32,
    /// Its constructors, in order.
    pub cons: Items<ConDef>,
}

/// A constructor of a datatype.
#[derive(Debug, Drop)]
pub struct ConDef {
    /// The name of the constructor.
    pub name: Name,
    /// The types of its arguments, in which `Ty::Param` stands for the datatype's parameters.
    pub args: Items<Ty>,
}

/// A function.
#[derive(Debug, Drop)]
pub struct FunDef {
    /// The name of the function.
    pub name: Name,
    /// How many type parameters it has.
    pub params: u32,
    /// The types of its arguments.
    pub args: Items<Ty>,
    /// The type of its value.
    pub result: Ty,
    /// What it means.
    pub body: Body,
}

/// What a function means.
#[derive(Debug, Drop)]
pub enum Body {
    /// The value of a term, whose free variables are the arguments.
    Plain(Term),
    /// The value of the term of the constructor that the argument at a place has.
    Rec {
        /// The place of the argument, from 1.
        place: u32,
        /// A term for each constructor of the argument's type, in order; on nat for 0 and for `Suc`. Its
        /// free variables are the other arguments in order, and then the constructor's arguments.
        cases: Items<Term>,
    },
}

/// The program under test.
#[derive(Debug, Drop)]
pub struct ProgDef {
    /// The name of the program.
    pub name: Name,
    /// The types of its inputs.
    pub inputs: Items<Ty>,
    /// The type of its answer.
    pub answer: Ty,
}
