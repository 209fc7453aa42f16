use std::alloc::AllocError;
use tg_types::Name;

/// Why a declaration can't be added, the first of these that is so.
#[derive(Debug, Drop)]
pub enum BuildErr {
    /// A name of the declaration is declared already, or stands twice in it: the first such name, a type's
    /// before its constructors'.
    Name {
        /// The name.
        name: Name,
    },
    /// A datatype or a primitive recursive function hasn't the shape that it must have.
    Shape,
    /// A rule on the program under test is broken.
    Program,
    /// Memory is wanting.
    Memory,
}

impl From<AllocError> for BuildErr {
    ghost use Rattle.std.specs.Prelude.{◌≡◌};
    ghost use Rattle.tg_theory.specs.declared.errors.BuildErr.TheVariants.{Memory};

    ghost from_gives = { λ _ e. e ≡ Memory };

    fn from(_refused: AllocError) -> BuildErr {
        BuildErr::Memory
    }
}
