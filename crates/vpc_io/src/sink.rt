// Where text goes.
ghost use Rattle.std.specs.Prelude.{◌≡◌, ℕ, ◌<◌, ◌≤◌, List, Option, length, take, IfOk, OnOk, OnErr};
ghost use Rattle.vpc_io.specs.Rose.{Rose};
ghost use Rattle.vpc_io.specs.Sink.{with_text, AddsProperPrefix};

/// A sink took no byte of a piece. Its count of faults rose.
#[derive(Clone, Copy, Debug, PartialEq, Eq)]
pub struct WriteFailed;

/// What takes bytes, in pieces.
pub trait Sink {
    /// The bytes taken so far, where the sink tells them.
    ghost held: { Self → Option (List ℕ) };

    /// How often writing has failed so far. It stands still at the last value of a `u64`.
    ghost faults: { Self → ℕ };

    /// Takes bytes from the front of a piece, and answers how many: at least one.
    fn write(&mut self, piece: &[u8]) -> Result<usize, WriteFailed>
        requires { 0 < length piece.now }

        ensures progress { IfOk result (λ n. 0 < n) }
        ensures within { IfOk result (λ n. n ≤ length piece.now) }
        ensures added { IfOk result
            (λ n. held self.new ≡ with_text (held self.old) (take n piece.now)) }

        ensures nothing_added { OnErr result (held self.new ≡ held self.old) }
        ensures failed_only_where_faults_rose { OnErr result
            (Rose (faults self.old) (faults self.new)) }
        ensures faults_never_fall { faults self.old ≤ faults self.new };
}

/// Adds the whole text to what the sink holds, or a proper prefix of it where a write fails.
///
/// It stops at the first write that fails. An empty text needs no write.
pub fn put_all<O: Sink>(out: &mut O, text: &[u8]) -> Result<(), WriteFailed>
    ensures whole { OnOk result (O.held out.new ≡ with_text (O.held out.old) text.now) }
    ensures proper_prefix { OnErr result
        (AddsProperPrefix (O.held out.old) (O.held out.new) text.now) }
    ensures failed_only_where_faults_rose { OnErr result
        (Rose (O.faults out.old) (O.faults out.new)) }
    ensures faults_never_fall { O.faults out.old ≤ O.faults out.new }
{
    let mut at = 0;
    while at < text.len() {
        at += out.write(&text[at..])?;
    }
    Ok(())
}
