use std::alloc::AllocError;
use tg_theory::BuildErr;

/// What is wrong with a declaration, in the order in which it is looked for. Of a specification a missing
/// program, and other variables than inputs, are found before its names.
#[derive(Clone, Copy, Debug)]
pub(crate) enum Kind {
    /// A term has too many nodes.
    TermSize,
    /// A name isn't declared before, or is declared already.
    Name,
    /// There is no typing.
    Typing,
    /// There are several typings.
    Ambiguous,
    /// A rule of shape is broken.
    Shape,
    /// A rule on the program under test is broken.
    Program,
}

/// Why a declaration is refused.
#[derive(Clone, Copy, Debug)]
pub(crate) enum Refusal {
    /// It is at fault.
    Fault(Kind),
    /// Memory is wanting.
    Memory,
}

impl From<AllocError> for Refusal {
    ghost use Rattle.std.specs.Prelude.{◌≡◌};
    ghost use Rattle.tg_infer.specs.declared.refusals.Refusal.TheVariants.{Memory};

    ghost from_gives = { λ _ e. e ≡ Memory };

    fn from(_refused: AllocError) -> Refusal {
        Refusal::Memory
    }
}

impl From<BuildErr> for Refusal {
    ghost use Rattle.std.specs.Prelude.{◌≡◌};
    ghost use Rattle.tg_infer.specs.Causes.{refusal};

    ghost from_gives = { λ e r. r ≡ refusal e };

    fn from(error: BuildErr) -> Refusal {
        match error {
            BuildErr::Name { .. } => Refusal::Fault(Kind::Name),
            BuildErr::Shape => Refusal::Fault(Kind::Shape),
            BuildErr::Program => Refusal::Fault(Kind::Program),
            BuildErr::Memory => Refusal::Memory,
        }
    }
}
