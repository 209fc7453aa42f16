use std::alloc::AllocError;

/// Why a term isn't normalised.
#[derive(Clone, Copy, Debug)]
pub enum NormErr {
    /// A bound of the walk is passed: calls, levels or the nodes of a term.
    Steps,
    /// Memory is wanting.
    Memory,
}

impl From<AllocError> for NormErr {
    ghost use Rattle.std.specs.Prelude.{◌≡◌};
    ghost use Rattle.tg_norm.specs.declared.errors.NormErr.TheVariants.{Memory};

    ghost from_gives = { λ _ e. e ≡ Memory };

    fn from(_refused: AllocError) -> NormErr {
        NormErr::Memory
    }
}
