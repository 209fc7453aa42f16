ghost use Rattle.std.specs.Prelude.{◌≡◌};

/// How a run explores its theory and searches for data.
#[derive(Clone, Copy, Debug, PartialEq, Eq)]
pub struct Settings {
    /// The greatest constructor depth of the inputs that the classes cover, from 1 to 8.
    pub depth: u8,
    /// The greatest number that the search for data tries in order for a natural, from 0 to 20,000.
    pub bound: u32,
    /// The seed of the random numbers.
    pub seed: u64,
    /// How many random data are tried for a class once those in order are through, from 0 to 100,000.
    pub tries: u32,
    /// How many bits a random natural has, from 1 to 32.
    pub width: u8,
}

impl Settings {
    /// The settings of a run that names none.
    pub const DEFAULT: Settings = Settings {
        depth: 3,
        bound: 8,
        seed: 1,
        tries: 1000,
        width: 16,
    };
}

impl Default for Settings {
    ghost is_default = { λ s. s ≡ record { depth = 3; bound = 8; seed = 1; tries = 1000; width = 16 } };

    fn default() -> Settings {
        Settings::DEFAULT
    }
}
