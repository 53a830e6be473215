// Writers of the system.
ghost use Rattle.std.specs.Prelude.{◌≡◌, ◌<◌, ◌≤◌, ℕ, length, take, IfOk, OnErr, MatchResult};
ghost use Rattle.std.specs.Io.KnownBytes.{WriteAppends};
ghost use Rattle.vpc_io.specs.Rose.{Rose, next_count};
ghost use Rattle.vpc_io.specs.Sink.{with_text};
ghost use Rattle.vpc_io.specs.Told.{nothing_told};

use crate::{Sink, WriteFailed};
use std::io::Write;
use std::marker::Model;

/// A writer, as standard output. Nothing is told of what it took.
///
/// The count of faults rises exactly where a write fails: the writer answered an error, or took no
/// byte. Give it a writer that hands bytes on at once: one with a buffer may lose what it took, with no
/// error.
#[derive(Drop)]
pub struct WriteSink<W: Write> {
    out: W,
    faults: u64,
}

impl<W: Write> Model for WriteSink<W> {
    ghost Value = { W × ℕ };

    ghost view = { λ s. (s.out, s.faults) };
}

impl<W: Write> WriteSink<W> {
    /// A sink over this writer, with no fault so far.
    pub fn of(out: W) -> WriteSink<W>
        ensures { result ≡ (out, 0) }
    {
        WriteSink { out, faults: 0 }
    }
}

impl<W: Write> Sink for WriteSink<W> {
    ghost held = { λ _. nothing_told };

    ghost faults = { λ s. s.1 };

    fn write(&mut self, piece: &[u8]) -> Result<usize, WriteFailed>
        requires { 0 < length piece.now }

        ensures progress { IfOk result (λ n. 0 < n) }
        ensures within { IfOk result (λ n. n ≤ length piece.now) }
        ensures added { IfOk result
            (λ n. nothing_told ≡ with_text nothing_told (take n piece.now)) }

        ensures nothing_added { OnErr result (nothing_told ≡ nothing_told) }
        ensures failed_only_where_faults_rose { OnErr result (Rose self.old.1 self.new.1) }
        ensures faults_never_fall { self.old.1 ≤ self.new.1 }

        ensures same_bytes { WriteAppends
            (W.contents self.old.0) (W.contents self.new.0) result piece.now }
        ensures faults_exactly { MatchResult result
            (λ _. self.new.1 ≡ self.old.1) (λ _. self.new.1 ≡ next_count self.old.1) }
    {
        match self.out.write(piece) {
            Ok(n) if n > 0 => Ok(n),
            _ => {
                self.faults = self.faults.saturating_add(1);
                Err(WriteFailed)
            }
        }
    }
}
