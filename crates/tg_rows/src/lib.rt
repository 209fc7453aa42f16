//! The 48 rewrite schemas, each a row: a function that makes a term of each term that it applies to. They
//! stand in `specs/Rows.antt`; the functions here have no code, and their contracts are the laws.
#![tactic(auto)]

ghost use Rattle.tg_rows.specs.Laws.{RowsKeep, RowsKeepInputs, AreFortyEight, SomeForLet, NoneForMade};

/// In a well-typed theory each row keeps values, on every table and at all values of the context's types,
/// and every type. (Isabelle's simplifier rests on the like of each of its rules.)
pub fn rows_keep()
    ensures { RowsKeep }
{}

/// In an accepted theory each row keeps that all program calls of a term have the same inputs, where their
/// arguments are made of constructors, variables and truth values alone.
pub fn rows_keep_inputs()
    ensures { RowsKeepInputs }
{}

/// There are 48 rows. One applies to every `let`, and none to a term that is made of constructors,
/// variables and truth values alone.
pub fn where_rows_apply()
    ensures count { AreFortyEight }
    ensures lets { SomeForLet }
    ensures made { NoneForMade }
{}
