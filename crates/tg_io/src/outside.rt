//! What a source and a sink of bytes are.
ghost use Rattle.std.specs.Prelude.{ℕ, ◌<◌, ◌≤◌, List, length, Result};
ghost use Rattle.std.specs.declared.option.Option.{Option};
ghost use Rattle.std.specs.Io.{ReadsAtMost};
ghost use Rattle.std.specs.Io.KnownBytes.{ReadConsumes, WriteAppends};
ghost use Rattle.tg_io.specs.Faults.{HasCause, TakesSome};
ghost use Rattle.tg_io.specs.declared.outside.Failed.{Failed};

use thiserror::Error;

/// The source or sink failed in this call, and counted it.
#[derive(Clone, Copy, Debug, PartialEq, Eq, Error)]
#[error("the source or sink failed")]
pub struct Failed;

/// Where bytes come from.
///
/// `left` is the bytes that are not yet given, where the source tells them. `faults` is the number
/// of its failures so far, which never falls and stays at 2^64 - 1 once there. `gives` is what more
/// is known of a call, from the source before it, the buffer after it, its answer and the source
/// after it; a source that tells no more leaves it out.
pub trait Source {
    ghost left: { Self → Option (List ℕ) };

    ghost faults: { Self → ℕ };

    ghost gives: { Self → List ℕ → Result ℕ Failed → Self → Type 0 } = { λ _ _ _ _. Unit {0} };

    /// Gives the next bytes that are left into the front of `buf`, and answers how many.
    ///
    /// `Ok(0)` on a buffer that is not empty means that nothing is left. On `Failed`, which comes
    /// only where the count of faults rose, nothing was taken.
    fn read(&mut self, buf: &mut [u8]) -> Result<usize, Failed>
        ensures bound { ReadsAtMost result buf.new }
        ensures bytes { ReadConsumes (left self.old) (left self.new) result buf.new }
        ensures cause { HasCause (faults self.old) (faults self.new) result }
        ensures step { gives self.old buf.new result self.new };
}

/// Where bytes go.
///
/// `written` is the bytes that were taken so far, where the sink tells them. `faults` is the number
/// of its failures so far, which never falls and stays at 2^64 - 1 once there. `takes` is what more
/// is known of a call, from the sink before it, what it is given, its answer and the sink after it;
/// a sink that tells no more leaves it out.
pub trait Sink {
    ghost written: { Self → Option (List ℕ) };

    ghost faults: { Self → ℕ };

    ghost takes: { Self → List ℕ → Result ℕ Failed → Self → Type 0 } = { λ _ _ _ _. Unit {0} };

    /// Takes bytes from the front of `piece`, one at least, and answers how many.
    ///
    /// On `Failed`, which comes only where the count of faults rose, nothing was taken.
    fn write(&mut self, piece: &[u8]) -> Result<usize, Failed>
        requires { 0 < length piece.now }
        ensures bound { TakesSome result piece.now }
        ensures bytes { WriteAppends (written self.old) (written self.new) result piece.now }
        ensures cause { HasCause (faults self.old) (faults self.new) result }
        ensures step { takes self.old piece.now result self.new };
}
