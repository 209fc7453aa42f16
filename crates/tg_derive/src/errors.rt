use std::alloc::AllocError;
use tg_clause::ClauseErr;
use tg_norm::NormErr;

/// Why the classes of a theory aren't given: the first limit that is passed in the order of work.
#[derive(Clone, Copy, Debug, PartialEq, Eq)]
pub enum LimitErr {
    /// There are more than 4,096 patterns, or the terms of one have together more than 100,000 nodes.
    Patterns,
    /// The split trees have together more than 4,096 inner nodes.
    Splits,
    /// A normal form passes a bound, or the normal forms have together more than 2,000,000 calls.
    Steps,
    /// A list of clauses, or those of all leaves together, has more than 4,096.
    Clauses,
    /// Memory is wanting.
    Memory,
}

impl From<AllocError> for LimitErr {
    ghost use Rattle.std.specs.Prelude.{◌≡◌};
    ghost use Rattle.tg_derive.specs.declared.errors.LimitErr.TheVariants.{Memory};

    ghost from_gives = { λ _ e. e ≡ Memory };

    fn from(_refused: AllocError) -> LimitErr {
        LimitErr::Memory
    }
}

impl From<NormErr> for LimitErr {
    ghost use Rattle.std.specs.Prelude.{◌≡◌};
    ghost use Rattle.tg_derive.specs.Answers.{of_norm};

    ghost from_gives = { λ n e. e ≡ of_norm n };

    fn from(error: NormErr) -> LimitErr {
        match error {
            NormErr::Steps => LimitErr::Steps,
            NormErr::Memory => LimitErr::Memory,
        }
    }
}

impl From<ClauseErr> for LimitErr {
    ghost use Rattle.std.specs.Prelude.{◌≡◌};
    ghost use Rattle.tg_derive.specs.Answers.{of_clause};

    ghost from_gives = { λ c e. e ≡ of_clause c };

    fn from(error: ClauseErr) -> LimitErr {
        match error {
            ClauseErr::Clauses => LimitErr::Clauses,
            ClauseErr::Memory => LimitErr::Memory,
        }
    }
}
