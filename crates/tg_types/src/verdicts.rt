/// What the recorded outcomes say of a class.
#[derive(Clone, Copy, Debug, PartialEq, Eq)]
pub enum Verdict {
    /// One of the checks is true of the recorded answer.
    Passed,
    /// All checks are false of the recorded answer, or the class has none.
    Failed,
    /// The limits on the work were passed before the checks had a value.
    Undecided,
    /// The program is recorded to have raised an error in place of an answer.
    Raised,
    /// No outcome is recorded for the test.
    Missing,
    /// The class has no datum, so no test.
    NoDatum,
}
