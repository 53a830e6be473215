// Sinks in memory.
ghost use Rattle.std.specs.Prelude.{◌≡◌, ◌<◌, ◌≤◌, ◌↔◌, ℕ, List, Option, Some, Ok, [], length, take, IfOk, OnErr, IsErr, IsTrue, vec_len, vec_capacity};
ghost use Rattle.vpc_io.specs.MemorySink.{MemorySinkState, write_fails, taken_len, state_after_write};
ghost use Rattle.vpc_io.specs.Rose.{Rose};
ghost use Rattle.vpc_io.specs.Sink.{with_text};
ghost use Rattle.vpc_io.specs.Told.{nothing_told};

use crate::{Sink, WriteFailed};
use std::alloc::Global;
use std::marker::Model;
use vpc_base::NoMemory;

/// A sink in memory of a fixed room, that fails at chosen calls.
///
/// A write fails exactly where its number, from 1, is among those chosen, or no room is left. It takes
/// at most a piece of a fixed length, and at most the room that is left.
pub struct MemorySink {
    held: Vec<u8>,
    failing: Vec<u64>,
    piece: usize,
    room: usize,
    calls: u64,
    faults: u64,
}

impl Drop for MemorySink {
    fn drop(self) {
        let MemorySink {
            held,
            failing,
            piece: _,
            room: _,
            calls: _,
            faults: _,
        } = self;
        drop(held);
        drop(failing);
    }
}

impl Model for MemorySink {
    ghost Value = { MemorySinkState };

    ghost view = { λ s. record {
      held = s.held.items;
      failing = s.failing.items;
      piece = s.piece;
      room = s.room;
      calls = s.calls;
      faults = s.faults;
    } };

    // The room is reserved, so a write takes no memory.
    ghost invariant = { λ s. (0 < s.piece) × (vec_len s.held ≤ s.room)
        × (s.room ≤ vec_capacity s.held) };
}

impl MemorySink {
    /// A sink that holds nothing, with room for `room` bytes. A write takes at most `piece` bytes, and
    /// fails at the calls whose numbers, from 1, are in `failing`.
    pub fn of(
        alloc: Global,
        failing: Vec<u64>,
        piece: usize,
        room: usize,
    ) -> Result<MemorySink, NoMemory>
        requires { 0 < piece }
        ensures { IfOk result (λ s. s ≡ record {
          held = [];
          failing = failing.items;
          piece = piece;
          room = room;
          calls = 0;
          faults = 0;
        }) }
    {
        let held = Vec::with_capacity(alloc, room)?;
        Ok(MemorySink {
            held,
            failing,
            piece,
            room,
            calls: 0,
            faults: 0,
        })
    }

    /// What it holds.
    pub fn bytes(&self) -> &[u8]
        ensures { result.now ≡ self.now.held }
    {
        self.held.as_slice()
    }
}

impl Sink for MemorySink {
    ghost held = { λ s. Some s.held };

    ghost faults = { λ s. s.faults };

    fn write(&mut self, piece: &[u8]) -> Result<usize, WriteFailed>
        requires { 0 < length piece.now }

        ensures progress { IfOk result (λ n. 0 < n) }
        ensures within { IfOk result (λ n. n ≤ length piece.now) }
        ensures added { IfOk result
            (λ n. Some self.new.held ≡ with_text (Some self.old.held) (take n piece.now)) }

        ensures nothing_added { OnErr result (Some self.new.held ≡ Some self.old.held) }
        ensures failed_only_where_faults_rose { OnErr result
            (Rose self.old.faults self.new.faults) }
        ensures faults_never_fall { self.old.faults ≤ self.new.faults }

        ensures fails_exactly { IsErr result ↔ IsTrue (write_fails self.old) }
        ensures taken { IfOk result (λ n. n ≡ taken_len self.old (length piece.now)) }
        ensures state { self.new ≡ state_after_write self.old piece.now }
    {
        self.calls = self.calls.saturating_add(1);
        let left = self.room - self.held.len();
        if self.failing.contains(&self.calls) || left == 0 {
            self.faults = self.faults.saturating_add(1);
            return Err(WriteFailed);
        }
        let n = piece.len().min(self.piece).min(left);
        match self.held.extend_from_slice(&piece[..n]) {
            Ok(()) => Ok(n),
            Err(_) => unreachable!(),
        }
    }
}

/// Takes every piece whole and keeps nothing of it. It never fails: its count of faults is the constant
/// 0.
#[derive(Clone, Copy, Debug, Default)]
pub struct CountSink;

impl CountSink {
    pub fn new() -> CountSink {
        CountSink
    }
}

impl Sink for CountSink {
    ghost held = { λ _. nothing_told };

    ghost faults = { λ _. 0 };

    fn write(&mut self, piece: &[u8]) -> Result<usize, WriteFailed>
        ensures { result ≡ Ok (length piece.now) }
    {
        Ok(piece.len())
    }
}
