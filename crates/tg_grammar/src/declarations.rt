use crate::terms::{RawCon, RawTerm};
use crate::types::RawTy;
use sqlite_items::Items;
use tg_types::Name;

/// A theory as it is written.
#[derive(Drop)]
pub struct RawTheory {
    /// Its name.
    pub name: Name,
    /// The version of the language, which is 1.
    pub version: u64,
    /// The declarations in their order.
    pub decls: Items<RawDecl>,
}

/// A declaration.
#[derive(Drop)]
pub enum RawDecl {
    /// A datatype.
    Datatype {
        /// Its name.
        name: Name,
        /// Its type variables.
        params: Items<Name>,
        /// Its constructors.
        cons: Items<RawConDef>,
    },
    /// A function by recursion on one argument.
    Primrec {
        /// Its name.
        name: Name,
        /// The types of its arguments, and last that of its result.
        tys: Items<RawTy>,
        /// Its equations.
        eqs: Items<RawEq>,
    },
    /// A function by one equation.
    Definition {
        /// Its name.
        name: Name,
        /// The types of its arguments, and last that of its result.
        tys: Items<RawTy>,
        /// Its equations.
        eqs: Items<RawEq>,
    },
    /// The program under test.
    Program {
        /// Its name.
        name: Name,
        /// The types of its inputs, and last that of its answer.
        tys: Items<RawTy>,
    },
    /// The specification of the program.
    Spec {
        /// The variables that stand for the inputs.
        vars: Items<Name>,
        /// What holds of them.
        body: RawTerm,
    },
}

/// A constructor of a datatype.
#[derive(Drop)]
pub struct RawConDef {
    /// Its name.
    pub name: Name,
    /// The types of its arguments.
    pub args: Items<RawTy>,
}

/// An equation of a function.
#[derive(Drop)]
pub struct RawEq {
    /// The name that it begins with.
    pub head: Name,
    /// The patterns of the arguments.
    pub pats: Items<RawPat>,
    /// The right side.
    pub body: RawTerm,
}

/// A pattern of an argument.
#[derive(Drop)]
pub enum RawPat {
    /// A bare name, a constructor or a variable.
    Word(Name),
    /// `0`.
    Zero,
    /// A bracketed pattern: a constructor and the names after it. The constructor is never `0`.
    Con(RawCon, Items<Name>),
}
