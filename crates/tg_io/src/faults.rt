//! Counters that stop at their last value instead of wrapping, and calls that are due to fail.
ghost use Rattle.std.specs.Prelude.{◌≡◌, ◌≤◌, ◌↔◌, IsTrue};
ghost use Rattle.tg_io.specs.Faults.{one_more, Rose, IsDue};

/// One more, or the last value of a `u64`.
pub(crate) fn counted(count: u64) -> u64
    ensures value { result ≡ one_more count }
    ensures rose { Rose count result }
    ensures later { count ≤ result }
{
    count.saturating_add(1)
}

/// Whether the call after `calls` calls is one of those that are to fail.
///
/// A call past the last number that a `u64` can name is none of them.
pub(crate) fn is_due(failing: &[u64], calls: u64) -> bool
    ensures { IsTrue result ↔ IsDue failing.now calls }
{
    match calls.checked_add(1) {
        Some(number) => failing.contains(&number),
        None => false,
    }
}
