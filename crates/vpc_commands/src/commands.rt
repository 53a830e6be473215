// The top call.
ghost use Rattle.std.specs.Prelude.{◌≡◌, map, string_bytes};
ghost use Rattle.vpc_io.specs.Rose.{Rose};
ghost use Rattle.vpc_commands.specs.Complete.{IsComplete, ReadFailed};
ghost use Rattle.vpc_commands.specs.Due.{IsAnswer, IsDue, memory_text, only};

use crate::answers::answer_to;
use command_job::Status;
use std::alloc::Global;
use vpc_io::{Shelf, Sink, put_all};

// Writes a whole answer, and answers its status, or that writing failed.
fn put_answer<O: Sink>(out: &mut O, status: Status, text: &[u8]) -> Status
    ensures { IsAnswer (only status text.now)
        (O.held out.old) (O.held out.new) (Rose (O.faults out.old) (O.faults out.new)) result }
{
    match put_all(out, text) {
        Ok(()) => status,
        Err(_) => Status::Write,
    }
}

/// Answers that memory was refused.
pub fn refuse_memory<O: Sink>(out: &mut O) -> Status
    ensures { IsAnswer (only Status.Memory memory_text)
        (O.held out.old) (O.held out.new) (Rose (O.faults out.old) (O.faults out.new)) result }
{
    put_answer(out, Status::Memory, b"want of memory\n")
}

/// Answers the words of a command: builds its whole text, and then writes it.
///
/// `words` are those after the program's name. A file is read whole, up to 64 MiB.
pub fn run<S: Shelf, O: Sink>(alloc: Global, words: &[String], shelf: &mut S, out: &mut O) -> Status
    // A pair of status and text is due, and exactly that text was added; or writing failed after a
    // proper prefix of a due text.
    ensures due { IsAnswer (IsDue (map string_bytes words.now) (S.told shelf.old)
        (λ n. Rose (S.faults shelf.old n) (S.faults shelf.new n)))
        (O.held out.old) (O.held out.new) (Rose (O.faults out.old) (O.faults out.new)) result }
    ensures read_only_where_faults_rose { result ≡ Status.Read → ReadFailed (map string_bytes words.now)
        (λ n. Rose (S.faults shelf.old n) (S.faults shelf.new n)) }
    // Where no device and no memory was wanting, the status is decided by the network and the words.
    ensures complete { IsComplete (map string_bytes words.now) (S.told shelf.old) result }
    ensures write_only_where_faults_rose { result ≡ Status.Write
        → Rose (O.faults out.old) (O.faults out.new) }
{
    match answer_to(alloc, words, shelf) {
        Ok(answer) => put_answer(out, answer.status, answer.text.as_slice()),
        Err(_) => refuse_memory(out),
    }
}
