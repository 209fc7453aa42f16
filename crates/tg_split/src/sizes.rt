//! How many shapes there are and how large, up to the limit.
ghost use Rattle.std.specs.Prelude.{◌≡◌};
ghost use Rattle.tg_split.specs.Sizes.{sized, is_empty, count, is_passed, either, both, under, no_shape};

/// The most patterns.
const MOST_PATTERNS: u64 = 4096;

/// The most nodes of the terms of one pattern together.
const MOST_NODES: u64 = 100_000;

/// How many shapes there are, and the nodes of the largest, or that one of the two passes the limit.
#[derive(Clone, Copy, Debug)]
pub(crate) enum Size {
    Passed,
    Within(u32, u32),
}

/// The size of a list of so many shapes.
pub(crate) fn sized(count: u64, nodes: u64) -> Size
    ensures { result ≡ sized count nodes }
{
    if count > MOST_PATTERNS || nodes > MOST_NODES {
        return Size::Passed;
    }
    Size::Within(count as u32, nodes as u32)
}

impl Size {
    /// The size of no shape.
    pub(crate) fn none() -> Size
        ensures { result ≡ no_shape }
    {
        Size::Within(0, 0)
    }

    /// The number of shapes, or 4,097 where the limit is passed.
    pub(crate) fn count(self) -> u64
        ensures { result ≡ count self }
    {
        match self {
            Size::Passed => MOST_PATTERNS + 1,
            Size::Within(count, _) => u64::from(count),
        }
    }

    /// Whether the limit is passed.
    pub(crate) fn is_passed(self) -> bool
        ensures { result ≡ is_passed self }
    {
        matches!(self, Size::Passed)
    }

    /// Whether there is no shape.
    pub(crate) fn is_empty(self) -> bool
        ensures { result ≡ is_empty self }
    {
        match self {
            Size::Passed => false,
            Size::Within(count, _) => count == 0,
        }
    }

    /// The size of two lists, one after the other.
    pub(crate) fn either(self, other: Size) -> Size
        ensures { result ≡ either self other }
    {
        match (self, other) {
            (Size::Within(m, x), Size::Within(n, y)) => {
                sized(u64::from(m) + u64::from(n), u64::from(x.max(y)))
            }
            _ => Size::Passed,
        }
    }

    /// The size of the product of two lists.
    pub(crate) fn both(self, other: Size) -> Size
        ensures { result ≡ both self other }
    {
        if self.is_empty() || other.is_empty() {
            return Size::none();
        }
        match (self, other) {
            (Size::Within(m, x), Size::Within(n, y)) => {
                sized(u64::from(m) * u64::from(n), u64::from(x) + u64::from(y))
            }
            _ => Size::Passed,
        }
    }

    /// The size of as many shapes with a constructor on top.
    pub(crate) fn under(self) -> Size
        ensures { result ≡ under self }
    {
        self.both(Size::Within(1, 1))
    }
}
