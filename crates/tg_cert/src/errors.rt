//! Why a certificate is refused.
use std::alloc::AllocError;

/// Why a certificate is refused.
#[derive(Clone, Copy, Debug, PartialEq, Eq)]
pub enum CertErr {
    /// A line bears another number than its place, or is no instance of its rule on earlier lines.
    Step {
        /// The place of the first such line, from 1.
        line: u64,
    },
    /// There is no line.
    Empty,
    /// Memory is wanting.
    Memory,
}

impl From<AllocError> for CertErr {
    ghost use Rattle.std.specs.Prelude.{◌≡◌};
    ghost use Rattle.tg_cert.specs.declared.errors.CertErr.TheVariants.{Memory};

    ghost from_gives = { λ _ e. e ≡ Memory };

    fn from(_refused: AllocError) -> CertErr {
        CertErr::Memory
    }
}
