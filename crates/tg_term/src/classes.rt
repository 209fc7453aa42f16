use crate::{Term, Value};
use sqlite_items::Items;
use tg_types::Ty;

/// The inputs of a class: terms of constructors and of variables `Free(1)`, `Free(2)` and so on.
#[derive(Debug, Drop)]
pub struct Pattern {
    /// One term for each input of the program.
    pub terms: Items<Term>,
    /// The types of the variables. That of `Free(n)` is at place `n`, from 1.
    pub vars: Items<Ty>,
}

/// A class of inputs: those of the pattern's shape at which the constraints are true. The specification
/// says of them that one of the checks is true, so of a class with no check that it has no input.
#[derive(Debug, Drop)]
pub struct Class {
    /// The shape of the inputs.
    pub pattern: Pattern,
    /// Terms of type bool over the pattern's variables. They don't name the program.
    pub constraints: Items<Term>,
    /// Terms of type bool over the pattern's variables. They name the program.
    pub checks: Items<Term>,
}

/// A test: inputs of a class on which the program is to be run.
#[derive(Debug, Drop)]
pub struct Test {
    /// The number of the class, from 1. It is the number of the test too.
    pub class: u32,
    /// One value for each input of the program.
    pub datum: Items<Value>,
}

/// What is recorded of a run of the program on a test.
#[derive(Debug, Drop)]
pub struct Outcome {
    /// The number of the test, from 1.
    pub test: u32,
    /// The answer, or `None` where the program raised an error.
    pub answer: Option<Value>,
}
