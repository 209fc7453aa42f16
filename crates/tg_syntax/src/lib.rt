//! Reads theories, outcomes and certificates from their tokens, exactly as the grammar of `tg_grammar` has
//! them, one reader a part of the grammar. Types, terms and formulas are read by `tg_reading`.
#![tactic(auto)]

mod certificates;
mod datatypes;
mod declarations;
mod entries;
mod equations;
mod outcomes;
mod parsing;
mod steps;

pub use parsing::{FormErr, parse_check, parse_judge, parse_theory};
pub use tg_grammar::{
    Binder, RawBranch, RawCert, RawCon, RawConDef, RawDecl, RawEq, RawFormula, RawItem, RawLine,
    RawOutcomes, RawPat, RawTerm, RawTheory, RawTy, place,
};
