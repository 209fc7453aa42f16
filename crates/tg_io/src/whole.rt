//! Reading all that a source has left, and writing all of a text.
ghost use Rattle.std.specs.Prelude.{◌≡◌, ◌<◌, ◌≤◌, [], length, take, vec_len, IfOk, IfErr, OnOk};
ghost use Rattle.std.specs.Io.KnownBytes.{Consumes, IsAtEnd, Appends};
ghost use Rattle.tg_io.specs.Faults.{HasCause};
ghost use Rattle.tg_io.specs.Whole.{TakesFront, HasReadCause, ReadsInTurns};
ghost use Rattle.tg_io.specs.Whole.{written_of, WritesInTurns};

use super::outside::{Failed, Sink, Source};
use std::alloc::Global;
use thiserror::Error;

/// Why a source could not be read whole.
#[derive(Clone, Copy, Debug, PartialEq, Eq, Error)]
pub enum ReadErr {
    /// The source failed, and counted it.
    #[error("reading failed")]
    Fault,
    /// More bytes came than the caller allowed.
    #[error("the input is too long")]
    TooLong,
    /// Memory ran out.
    #[error("out of memory")]
    Memory,
}

/// Why a text could not be written whole.
#[derive(Clone, Copy, Debug, PartialEq, Eq, Error)]
pub enum WriteErr {
    /// The sink failed, and counted it, after it took the first `written` bytes.
    #[error("writing failed after {written} bytes")]
    Fault {
        /// How many bytes the sink took, fewer than all.
        written: u64,
    },
}

// The most bytes that are asked for at once: the buffer lies on the stack.
const CHUNK: usize = 4096;

/// Reads all that `src` has left, and at most `max + 1` bytes.
///
/// `TooLong` comes exactly where more than `max` bytes came, which takes one byte past `max` to
/// see. `Fault` comes only where the source's count of faults rose in this call. At an error the
/// bytes that were taken are gone. `Memory` comes before the bytes that it was wanted for are
/// taken. Each call of the source gives at least one byte, but for a last one that gives none or
/// fails.
pub fn read_all<S: Source>(alloc: Global, src: &mut S, max: usize) -> Result<Vec<u8>, ReadErr>
    requires { max < usize.MAX }
    ensures whole { IfOk result (λ bytes. Consumes (S.left src.old) (S.left src.new) bytes.items) }
    ensures end { OnOk result (IsAtEnd (S.left src.new)) }
    ensures within { IfOk result (λ bytes. length bytes.items ≤ max) }
    ensures front { IfErr result (λ e. TakesFront e max (S.left src.old) (S.left src.new)) }
    ensures cause { HasReadCause (S.faults src.old) (S.faults src.new) result }
    ensures calls { ReadsInTurns S.gives vec_len max src.old result src.new }
{
    let mut bytes = Vec::new(alloc);
    let mut buf = [0; CHUNK];
    while bytes.len() <= max {
        let wanted = CHUNK.min(max + 1 - bytes.len());
        if bytes.reserve(wanted).is_err() {
            return Err(ReadErr::Memory);
        }
        let count = match src.read(&mut buf[..wanted]) {
            Ok(count) => count,
            Err(Failed) => return Err(ReadErr::Fault),
        };
        if count == 0 {
            return Ok(bytes);
        }
        bytes.extend_from_slice(&buf[..count]).unwrap();
    }
    Err(ReadErr::TooLong)
}

/// Writes all of `bytes`, and takes no memory.
///
/// Each call of the sink is given all the bytes that are left, and with no byte there is no call.
/// `Fault` comes only where the sink's count of faults rose in this call, and then exactly the
/// first `written` bytes were appended.
pub fn write_all<K: Sink>(sink: &mut K, bytes: &[u8]) -> Result<(), WriteErr>
    ensures whole { OnOk result (Appends (K.written sink.old) (K.written sink.new) bytes.now) }
    ensures front { IfErr result (λ e.
        Appends (K.written sink.old) (K.written sink.new) (take (written_of e) bytes.now)) }
    ensures part { IfErr result (λ e. written_of e < length bytes.now) }
    ensures cause { HasCause (K.faults sink.old) (K.faults sink.new) result }
    ensures calls { WritesInTurns K.takes bytes.now sink.old result sink.new }
    ensures idle { bytes.now ≡ [] → sink.new ≡ sink.old }
{
    let mut written = 0;
    while written < bytes.len() {
        match sink.write(&bytes[written..]) {
            Ok(count) => written += count,
            Err(Failed) => {
                return Err(WriteErr::Fault {
                    written: written as u64,
                });
            }
        }
    }
    Ok(())
}
