//! A source and a sink in memory, of which every byte and every failure is known.
ghost use Rattle.std.specs.Prelude.{◌≡◌, ◌≤◌, min, take, length, IfOk, Some};
ghost use Rattle.tg_io.specs.Supply.{new_supply, IsRead};
ghost use Rattle.tg_io.specs.Store.{new_store, IsWrite};

use super::faults::{counted, is_due};
use super::outside::{Failed, Sink, Source};
use std::alloc::{AllocError, Global};
use std::marker::Model;

/// A source that gives the bytes of a vector, at most `piece` in a call, and fails at chosen calls.
#[derive(Debug, Drop)]
pub struct MemSource {
    bytes: Vec<u8>,
    at: usize,
    piece: usize,
    failing: Vec<u64>,
    calls: u64,
    faults: u64,
}

impl Model for MemSource {
    ghost use Rattle.std.specs.Prelude.{◌≤◌, length, drop};
    ghost use Rattle.tg_io.specs.Supply.{Supply};

    ghost Value = { Supply };

    ghost view = { λ s. record {
      rest = drop s.at s.bytes.items;
      piece = s.piece;
      failing = s.failing.items;
      calls = s.calls;
      faults = s.faults;
    } };

    ghost invariant = { λ s. (s.at ≤ length s.bytes.items) × (1 ≤ s.piece) };
}

impl MemSource {
    /// A source of `bytes`. Each call gives at most `piece` of them, and exactly the calls whose
    /// numbers stand in `failing` fail; the first call's number is 1.
    pub fn new(bytes: Vec<u8>, piece: usize, failing: Vec<u64>) -> MemSource
        requires { 1 ≤ piece }
        ensures { result ≡ new_supply bytes.items piece failing.items }
    {
        MemSource {
            bytes,
            at: 0,
            piece,
            failing,
            calls: 0,
            faults: 0,
        }
    }
}

impl Source for MemSource {
    ghost left = { λ s. Some s.rest };

    ghost faults = { λ s. s.faults };

    ghost gives = { λ s buf r t. IsRead s buf r t };

    fn read(&mut self, buf: &mut [u8]) -> Result<usize, Failed> {
        let due = is_due(self.failing.as_slice(), self.calls);
        self.calls = counted(self.calls);
        if due {
            self.faults = counted(self.faults);
            return Err(Failed);
        }
        let count = copy_front(&self.bytes[self.at..], buf, self.piece);
        self.at += count;
        Ok(count)
    }
}

// Copies as many bytes as `most` and both slices allow, and answers how many.
fn copy_front(from: &[u8], to: &mut [u8], most: usize) -> usize
    ensures count { result ≡ min most (min (length to.old) (length from.now)) }
    ensures copied { take result to.new ≡ take result from.now }
{
    let count = most.min(to.len()).min(from.len());
    to[..count].copy_from_slice(&from[..count]);
    count
}

/// A sink that keeps the bytes in memory that it reserved when it was made, takes at most `piece`
/// in a call, and fails at chosen calls and where its room is full.
#[derive(Debug, Drop)]
pub struct MemSink {
    bytes: Vec<u8>,
    room: usize,
    piece: usize,
    failing: Vec<u64>,
    calls: u64,
    faults: u64,
}

impl Model for MemSink {
    ghost use Rattle.std.specs.Prelude.{◌≤◌, ◌+◌, vec_len, vec_capacity};
    ghost use Rattle.tg_io.specs.Store.{Store};

    ghost Value = { Store };

    ghost view = { λ s. record {
      taken = s.bytes.items;
      room = s.room;
      piece = s.piece;
      failing = s.failing.items;
      calls = s.calls;
      faults = s.faults;
    } };

    ghost invariant = { λ s. (vec_len s.bytes + s.room ≤ vec_capacity s.bytes) × (1 ≤ s.piece) };
}

impl MemSink {
    /// A sink with room for `room` bytes, for which it reserves memory here: no later call takes
    /// any. Each call takes at most `piece` bytes. Exactly the calls whose numbers stand in
    /// `failing` fail, and those at which no room is left; the first call's number is 1.
    ///
    /// The only error is want of memory.
    pub fn new(
        alloc: Global,
        room: usize,
        piece: usize,
        failing: Vec<u64>,
    ) -> Result<MemSink, AllocError>
        requires { 1 ≤ piece }
        ensures { IfOk result (λ sink. sink ≡ new_store room piece failing.items) }
    {
        let bytes = Vec::with_capacity(alloc, room)?;
        Ok(MemSink {
            bytes,
            room,
            piece,
            failing,
            calls: 0,
            faults: 0,
        })
    }

    /// The bytes that were taken so far.
    pub fn bytes(&self) -> &[u8]
        ensures { result.now ≡ self.now.taken }
    {
        self.bytes.as_slice()
    }
}

impl Sink for MemSink {
    ghost written = { λ s. Some s.taken };

    ghost faults = { λ s. s.faults };

    ghost takes = { λ s given r t. IsWrite s given r t };

    fn write(&mut self, piece: &[u8]) -> Result<usize, Failed> {
        let due = is_due(self.failing.as_slice(), self.calls);
        self.calls = counted(self.calls);
        if due || self.room == 0 {
            self.faults = counted(self.faults);
            return Err(Failed);
        }
        let count = self.piece.min(piece.len()).min(self.room);
        self.bytes.extend_from_slice(&piece[..count]).unwrap();
        self.room -= count;
        Ok(count)
    }
}
