ghost use Rattle.tg_harness.specs.ReadBack.{OutcomesReadBack};

/// In a theory whose names are words that aren't reserved, the text of recorded outcomes is read by the grammar as these outcomes, with
/// the names of the constructors in the answers. The numbers are below 2^64, and the constructors are declared.
pub fn read_back()
    ensures { OutcomesReadBack }
{}
