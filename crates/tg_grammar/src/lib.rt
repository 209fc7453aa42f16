//! The grammar of the language as data: the raw theories, outcomes and certificates that texts are read
//! as, what the grammar sees of a token, and the rule of each part. Nothing is read here; a reader is
//! held against these rules. `specs/Page.antt` has them in the form that people read, `specs/Table.antt`
//! in the form that is read with one token of foresight, and the functions `tables`, `texts` and
//! `reading` have no code: their contracts are the laws.
#![tactic(auto)]

mod certificates;
mod declarations;
mod formulas;
pub mod kinds;
mod language;
mod laws;
pub mod operators;
mod outcomes;
mod seeing;
mod terms;
mod types;
mod words;

pub use certificates::{Argument, RawCert, RawLine};
pub use declarations::{RawConDef, RawDecl, RawEq, RawPat, RawTheory};
pub use formulas::RawFormula;
pub use language::Language;
pub use laws::{reading, tables, texts};
pub use outcomes::{RawItem, RawOutcomes};
pub use seeing::{kind_of, place, text_of, value_of};
pub use terms::{Binder, RawBranch, RawCon, RawTerm};
pub use types::RawTy;
pub use words::Vocabulary;
