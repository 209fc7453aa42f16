use std::alloc::AllocError;

/// Why a line isn't appended.
#[derive(Clone, Copy, Debug, PartialEq, Eq)]
pub enum StepErr {
    /// The line is no instance of its rule on earlier lines.
    Bad {
        /// The number of the rule, from 1.
        rule: u32,
    },
    /// Memory is wanting.
    Memory,
}

impl From<AllocError> for StepErr {
    ghost use Rattle.std.specs.Prelude.{◌≡◌};
    ghost use Rattle.tg_kernel.specs.declared.errors.StepErr.TheVariants.{Memory};

    ghost from_gives = { λ _ e. e ≡ Memory };

    fn from(_refused: AllocError) -> StepErr {
        StepErr::Memory
    }
}
