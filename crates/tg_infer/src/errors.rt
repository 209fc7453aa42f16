ghost use Rattle.std.specs.Prelude.{◌≡◌};
ghost use Rattle.tg_infer.specs.Theories.{refused_at};

use crate::refusals::{Kind, Refusal};
use std::alloc::AllocError;

/// Why a theory is refused: the first declaration that has a fault, and the first of these that it has. `decl` is
/// its number, from 1. A program or a specification that is missing is found behind all declarations.
#[derive(Clone, Copy, Debug)]
pub enum TheoryErr {
    /// A term has more than 100,000 nodes.
    TermSize {
        /// The number of the declaration.
        decl: u64,
    },
    /// A name isn't declared before, or is declared already.
    Name {
        /// The number of the declaration.
        decl: u64,
    },
    /// There is no typing.
    Typing {
        /// The number of the declaration.
        decl: u64,
    },
    /// There are several typings.
    Ambiguous {
        /// The number of the declaration.
        decl: u64,
    },
    /// A rule of shape is broken.
    Shape {
        /// The number of the declaration.
        decl: u64,
    },
    /// A rule on the program under test is broken.
    Program {
        /// The number of the declaration.
        decl: u64,
    },
    /// Memory is wanting.
    Memory,
}

impl From<AllocError> for TheoryErr {
    ghost use Rattle.std.specs.Prelude.{◌≡◌};
    ghost use Rattle.tg_infer.specs.declared.errors.TheoryErr.TheVariants.{Memory};

    ghost from_gives = { λ _ e. e ≡ Memory };

    fn from(_refused: AllocError) -> TheoryErr {
        TheoryErr::Memory
    }
}

impl Refusal {
    /// The declaration of this number is refused for this.
    pub(crate) fn at(self, decl: u64) -> TheoryErr
        ensures { result ≡ refused_at self decl }
    {
        match self {
            Refusal::Fault(Kind::TermSize) => TheoryErr::TermSize { decl },
            Refusal::Fault(Kind::Name) => TheoryErr::Name { decl },
            Refusal::Fault(Kind::Typing) => TheoryErr::Typing { decl },
            Refusal::Fault(Kind::Ambiguous) => TheoryErr::Ambiguous { decl },
            Refusal::Fault(Kind::Shape) => TheoryErr::Shape { decl },
            Refusal::Fault(Kind::Program) => TheoryErr::Program { decl },
            Refusal::Memory => TheoryErr::Memory,
        }
    }
}
