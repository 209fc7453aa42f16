use crate::terms::RawTerm;
use crate::types::RawTy;
use sqlite_items::{Boxed, Items};

/// A formula as it is written.
#[derive(Drop)]
pub enum RawFormula {
    /// `[t]`: the term is true.
    Atom(RawTerm),
    /// `(F & G)`.
    And(Boxed<RawFormula>, Boxed<RawFormula>),
    /// `(F --> G)`.
    Imp(Boxed<RawFormula>, Boxed<RawFormula>),
    /// `(ALL T. F)`.
    All(RawTy, Boxed<RawFormula>),
    /// `(EX T. F)`.
    Ex(RawTy, Boxed<RawFormula>),
    /// `(THYP F)`: a test hypothesis.
    Thyp(Boxed<RawFormula>),
    /// `(tested t1 .. tn)`: these inputs were tested.
    Tested(Items<RawTerm>),
    /// `(deep k t1 .. tn)`: one of the inputs is deeper than `k`.
    Deep(u64, Items<RawTerm>),
}
