use std::alloc::AllocError;

/// Why the clauses of a term aren't given.
#[derive(Clone, Copy, Debug, PartialEq, Eq)]
pub enum ClauseErr {
    /// A list of clauses that the clause form asks for has more than 4,096.
    Clauses,
    /// Memory is wanting.
    Memory,
}

impl From<AllocError> for ClauseErr {
    ghost use Rattle.std.specs.Prelude.{◌≡◌};
    ghost use Rattle.tg_clause.specs.declared.errors.ClauseErr.TheVariants.{Memory};

    ghost from_gives = { λ _ e. e ≡ Memory };

    fn from(_refused: AllocError) -> ClauseErr {
        ClauseErr::Memory
    }
}
