// Lists of packets, one a line.
ghost use Rattle.std.specs.Prelude.{◌≡◌, ◌≢◌, ◌∷◌, [], All, Err, IfOk, IfSome, codes, length, map};
ghost use Rattle.std.specs.Result.{result_ok};
ghost use Rattle.query_words.specs.Packet.{packet_of};
ghost use Rattle.query_words.specs.Events.{AreRead, StartsWell, bad_line, event_of, events_in, events_of};
ghost use Rattle.query_words.specs.declared.refusal.QueryRefusal.TheVariants as refusals;
ghost use Rattle.query_words.specs.declared.events.EventFault.TheVariants.{Memory};

use crate::QueryRefusal;
use crate::lines::{first_words, lines_of};
use crate::packets::read_event;
use crate::words::LineWords;
use reference_check::Network;
use std::alloc::{AllocError, AllocFailed, Global};
use vpc_base::NoMemory;
use vpc_model::Event;

/// Why a text is no list of packets.
#[derive(Drop)]
pub enum EventFault {
    /// The line with this number, from 1, is no packet.
    BadLine(u64),
    /// Memory was refused.
    Memory,
}

impl From<NoMemory> for EventFault {
    ghost from_gives = { λ _ r. r ≡ Memory };

    fn from(_error: NoMemory) -> EventFault {
        EventFault::Memory
    }
}

impl From<AllocError> for EventFault {
    ghost from_gives = { λ _ r. r ≡ Memory };

    fn from(_error: AllocError) -> EventFault {
        EventFault::Memory
    }
}

impl<T: Drop> From<AllocFailed<T>> for EventFault {
    ghost from_gives = { λ _ r. r ≡ Memory };

    fn from(_error: AllocFailed<T>) -> EventFault {
        EventFault::Memory
    }
}

// The packet that was read, if the words are one. Want of memory is no answer.
fn unless_memory(read: Result<Event, QueryRefusal>) -> Result<Option<Event>, NoMemory>
    ensures value { IfOk result (λ e. e ≡ result_ok read) }
    ensures told { IfOk result (λ e. read ≢ Err refusals.Memory) }
{
    match read {
        Ok(event) => Ok(Some(event)),
        Err(QueryRefusal::Memory) => Err(NoMemory),
        Err(_) => Ok(None),
    }
}

// The packet that eight words of a line give, if they are one.
fn event_of_words(alloc: Global, n: &Network, words: &[&[u8]]) -> Result<Option<Event>, NoMemory>
    requires { length words.now ≡ 8 }
    ensures event { IfOk result (λ e. e
        ≡ result_ok (packet_of n.now (codes "trace" ∷ [] ∷ map (λ w. w.now) words.now))) }
    ensures start { IfOk result (λ e. IfSome e (StartsWell n.now)) }
{
    let numbered = LineWords {
        name: b"trace",
        words,
    };
    unless_memory(read_event(alloc, n, &numbered))
}

// The packet of a line, if it is one.
fn event_of(alloc: Global, n: &Network, line: &[u8]) -> Result<Option<Event>, NoMemory>
    ensures event { IfOk result (λ e. e ≡ event_of n.now line.now) }
    ensures start { IfOk result (λ e. IfSome e (StartsWell n.now)) }
{
    // More than eight words are no packet, however many come after the ninth.
    let words = first_words(alloc, line, 9)?;
    if words.len() == 8 {
        event_of_words(alloc, n, words.as_slice())
    } else {
        Ok(None)
    }
}

fn read_lines(alloc: Global, n: &Network, lines: &[&[u8]]) -> Result<Vec<Event>, EventFault>
    ensures events { let texts = map (λ l. l.now) lines.now in
        AreRead (events_in n.now texts (bad_line n.now texts)) result }
    ensures starts { IfOk result (λ v. All (StartsWell n.now) v.items) }
{
    let mut events = Vec::with_capacity(alloc, lines.len())?;
    for (k, line) in lines.iter().enumerate() {
        match event_of(alloc, n, line)? {
            Some(event) => events.push(event)?,
            None => return Err(EventFault::BadLine(k as u64 + 1)),
        }
    }
    Ok(events)
}

/// The packets of a text with one `LABEL from END PROTO SRC DST P Q` a line. Words have one blank between
/// each two, each line ends with one newline, which may be missing at the last, and no line is empty.
pub fn read_events(alloc: Global, n: &Network, text: &[u8]) -> Result<Vec<Event>, EventFault>
    ensures events { AreRead (events_of n.now text.now) result }
    ensures starts { IfOk result (λ v. All (StartsWell n.now) v.items) }
{
    let lines = lines_of(alloc, text)?;
    read_lines(alloc, n, lines.as_slice())
}
