/// The number, from 1, of a line in its book.
#[derive(Clone, Copy, Debug, PartialEq, Eq)]
pub struct Thm(pub u64);
