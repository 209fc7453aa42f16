use std::alloc::AllocError;

/// Why outcomes aren't those of the tests.
#[derive(Clone, Copy, Debug, PartialEq, Eq)]
pub enum OutcomeErr {
    /// Their header states other settings than those in use, in the order depth, bound, seed, tries, width.
    Settings {
        /// The settings of the header.
        stated: [u64; 5],
        /// The settings in use.
        used: [u64; 5],
    },
    /// A record is of no test.
    Unknown {
        /// The number in the record.
        n: u64,
    },
    /// A record is of a test that has one already.
    Repeated {
        /// The number in the record.
        n: u64,
    },
    /// An answer is no value of the program's answer type.
    BadAnswer {
        /// The number in the record.
        n: u64,
    },
    /// Memory ran out.
    Memory,
}

impl From<AllocError> for OutcomeErr {
    ghost use Rattle.std.specs.Prelude.{◌≡◌};
    ghost use Rattle.tg_verdict.specs.declared.errors.OutcomeErr.TheVariants.{Memory};

    ghost from_gives = { λ _ e. e ≡ Memory };

    fn from(_refused: AllocError) -> OutcomeErr {
        OutcomeErr::Memory
    }
}
